//! The rows of a table, with all that a loop over it has to know.

use crate::place::Place;
use graph::Plan;
use reading::Row;

/// The schedule of a table.
// Arrays with a count, since the type is Copy and takes no heap; one array each, since a view lends each as a slice.
#[derive(Clone, Copy, Drop)]
pub struct Schedule {
    /// The rows, of which the first `count` belong to the table.
    pub rows: [Row; 64],
    pub count: usize,
    /// The row of `result`.
    pub result: u8,
    /// Lead, stage and depth of each row.
    pub plan: Plan,
    pub places: [Place; 64],
    /// The order in which a turn makes the rows.
    pub order: [u8; 64],
    /// The greatest lead: so many turns come before the first tick.
    pub lag: u32,
    /// The greatest stage.
    pub stages: u8,
    /// How many cells the windows take, and how many there are with those of the `asa` rows.
    pub windows: usize,
    pub size: usize,
}
