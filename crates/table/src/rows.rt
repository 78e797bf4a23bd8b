//! The rows of a table that is checked.

ghost use Rattle.std.specs.Prelude.{◌≤◌, length};

use reading::Row;

/// The most rows of a table.
pub(crate) const ROWS: usize = 64;

/// Rows that are few enough for a table.
#[derive(Clone, Copy, Drop)]
pub(crate) struct TableRows<'a> {
    pub(crate) rows: &'a [Row],
    ghost few: { length rows.now ≤ 64 },
}
