//! Edges that can be walked: few, and between rows that are there.

ghost use Rattle.std.specs.Prelude.{◌≤◌, length};
ghost use Rattle.graph.specs.Labels.{Within};

use crate::edges::Edge;

/// The most rows of a table.
pub(crate) const ROWS: usize = 64;

/// The most edges: three for each row.
pub(crate) const EDGES: usize = 192;

/// The edges of a table of at most 64 rows.
#[derive(Clone, Copy, Drop)]
pub(crate) struct Graph<'a> {
    pub(crate) edges: &'a [Edge],
    ghost within: { Within 64 edges.now },
    ghost few: { length edges.now ≤ 192 },
}
