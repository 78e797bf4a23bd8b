//! A loop over a checked table: what it sees of the table, and the cells in which it works.

ghost use Rattle.std.specs.Prelude.{◌≤◌, length};

use reading::Reading;
use table::View;

// The source goes beside it and not in it: half of the methods read none, and its type would be one more parameter.
/// A loop over a checked table, with cells enough for its windows and its `asa` rows.
#[derive(Drop)]
pub(crate) struct Loop<'v, 'c, V> {
    pub(crate) view: View<'v>,
    pub(crate) cells: &'c mut [Reading<V>],
    ghost room: { view.size ≤ length cells.now },
}
