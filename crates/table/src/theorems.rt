//! Theorems about checked tables.

ghost use Rattle.table.specs.Laws.{DeterminedBy};
ghost use Rattle.table.specs.Layout.{Planned};
ghost use Rattle.table.specs.Tables.{layout};

use crate::table::Table;

/// Each horizon has exactly one sheet, and the least solution has exactly the values of the sheets.
pub fn determines<V>(table: &Table)
    ensures { DeterminedBy V table.now.schedule }
{}

/// A loop over the table finds each reading where it looks for it.
pub fn plans(table: &Table)
    ensures { Planned (layout table.now.schedule) }
{}
