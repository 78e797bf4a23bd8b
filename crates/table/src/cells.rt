//! How many cells a table takes.

ghost use Rattle.std.specs.Prelude.{◌≡◌, ℕ, ◌+◌, ◌≤◌, length, sum, slice_index};
ghost use Rattle.table.specs.Layout.{is_asa};
ghost use Rattle.table.specs.Tables.{asas};

use reading::Row;

/// Whether the row takes a cell besides its window, for a reading that lasts for a whole run.
pub(crate) fn is_asa(row: Row) -> bool
    ensures { result ≡ is_asa row }
{
    matches!(row, Row::Asa(_, _))
}

/// The number of `asa` rows.
pub(crate) fn count_asas(rows: &[Row]) -> usize
    ensures { result ≡ asas rows.now }
{
    rows.iter().filter(|row| is_asa(**row)).count()
}

/// The number of cells that the windows take: all depths.
pub(crate) fn count_window_cells(depth: &[u32]) -> u32
    requires low { (row : ℕ) → slice_index depth.now row ≤ 65 }
    requires few { length depth.now ≤ 64 }
    ensures value { result ≡ sum depth.now }
    ensures low { result ≤ 4160 }
{
    depth.iter().sum()
}
