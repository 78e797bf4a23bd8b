//! The edges of a table of rows.

ghost use Rattle.std.specs.Prelude.{◌≡◌, ◌+◌, ◌<◌, ◌≤◌, [], ◌∷◌, ◌++◌};
ghost use Rattle.arrayvec.specs.ArrayVec.{array_vec_len};
ghost use Rattle.table.specs.Edges.{row_edges, table_edges};

use crate::rows::TableRows;
use arrayvec::ArrayVec;
use graph::{Edge, Label};
use reading::Row;

/// The edges of a table, in the order in which they were added: at most three for each row.
type Edges = ArrayVec<Edge, 192>;

/// Adds one edge.
fn add(edges: &mut Edges, from: usize, label: Label, to: u8)
    requires { array_vec_len edges.old < 192 }
    ensures added { edges.new.items ≡ edges.old.items ++ record { from = from; to = to; label = label } ∷ [] }
    ensures count { array_vec_len edges.new ≡ array_vec_len edges.old + 1 }
{
    edges.push(Edge {
        from,
        to: usize::from(to),
        label,
    });
}

/// Adds the edges of one row.
fn add_row(edges: &mut Edges, from: usize, row: Row)
    requires { array_vec_len edges.old + 3 ≤ 192 }
    ensures added { edges.new.items ≡ edges.old.items ++ row_edges from row }
    ensures few { array_vec_len edges.new ≤ array_vec_len edges.old + 3 }
{
    match row {
        Row::Literal(_) | Row::Truth(_) | Row::Channel(_) => {}
        Row::Same(x) | Row::First(x) | Row::Not(x) | Row::Negate(x) => {
            add(edges, from, Label::Same, x);
        }
        Row::Next(x) => add(edges, from, Label::Next, x),
        Row::Fby(x, y) => {
            add(edges, from, Label::Same, x);
            add(edges, from, Label::Before, y);
        }
        Row::Asa(x, y) => {
            add(edges, from, Label::Unbounded, x);
            add(edges, from, Label::Unbounded, y);
        }
        Row::If(c, x, y) => {
            add(edges, from, Label::Same, c);
            add(edges, from, Label::Same, x);
            add(edges, from, Label::Same, y);
        }
        Row::And(x, y) | Row::Or(x, y) | Row::Compute(_, x, y) | Row::Relate(_, x, y) => {
            add(edges, from, Label::Same, x);
            add(edges, from, Label::Same, y);
        }
    }
}

impl TableRows<'_> {
    /// The edges of all rows.
    pub(crate) fn list_edges(&self) -> Edges
        ensures { result.items ≡ table_edges self.now.rows.now }
    {
        let mut edges = ArrayVec::new();
        for (from, row) in self.rows.iter().enumerate() {
            add_row(&mut edges, from, *row);
        }
        edges
    }
}
