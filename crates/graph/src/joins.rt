//! The check of edges.

ghost use Rattle.std.specs.Prelude.{MatchBool};
ghost use Rattle.graph.specs.Labels.{Within, Outside};

use crate::edges::Edge;

/// Whether every edge joins rows below the number of rows.
pub fn join_rows(edges: &[Edge], rows: usize) -> bool
    ensures { MatchBool result (Within rows edges.now) (Outside rows edges.now) }
{
    edges.iter().all(|edge| edge.from < rows && edge.to < rows)
}
