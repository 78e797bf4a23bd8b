//! A run over a checked table and cells.

ghost use Rattle.std.specs.Prelude.{◌≤◌, length, IfSome};
ghost use Rattle.std.proofs.Props.{props};

use crate::progress::Progress;
use reading::Reading;
use table::Table;

/// A run: how far it has come, over a checked table and cells that are lent. Without a horizon in force it has no
/// progress, and with one there are cells enough.
#[derive(Drop)]
pub struct Run<'t, 'c, V> {
    pub(crate) table: &'t Table,
    pub(crate) cells: &'c mut [Reading<V>],
    pub(crate) progress: Option<Progress>,
    ghost room: { IfSome progress (λ _. table.now.schedule.size ≤ length cells.now) } by { Prim.hlevel props },
}
