//! A checked table as a loop over it sees it.

ghost use Rattle.table.specs.Layout.{Planned, planned_prop};

use crate::place::Place;
use reading::Row;

/// The rows of a checked table, their places, and the order in which a turn makes them.
#[derive(Clone, Copy, Drop)]
pub struct View<'a> {
    pub rows: &'a [Row],
    pub places: &'a [Place],
    pub order: &'a [u8],
    /// The greatest lead: so many turns come before the first tick.
    pub lag: u32,
    /// The greatest stage.
    pub stages: u8,
    /// The row of `result`.
    pub result: u8,
    /// How many cells the windows take, and how many there are with those of the `asa` rows.
    pub windows: usize,
    pub size: usize,
    ghost planned: { Planned (record { rows = rows.now; places = places.now; order = order.now; lag = lag; stages = stages; result = result; windows = windows; size = size }) } by { planned_prop _ },
}
