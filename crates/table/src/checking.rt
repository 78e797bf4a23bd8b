//! The check of a table: refuse it for a ring that is not negative, or find all that a loop over it has to know.

ghost use Rattle.std.specs.Prelude.{◌≡◌, ℕ, ◌<◌, ◌≤◌, length, take, slice_index};
ghost use Rattle.graph.specs.Plans.{Planned};
ghost use Rattle.table.specs.Edges.{table_edges, Closed};
ghost use Rattle.table.specs.Tables.{Greatest, Placed, Checked};
ghost use Rattle.table.specs.Outcomes.{JudgedRows};

use crate::cells::{count_asas, count_window_cells, is_asa};
use crate::orders::{find_positions, order_rows};
use crate::place::Place;
use crate::rows::{ROWS, TableRows};
use crate::schedule::Schedule;
use crate::table::Table;
use graph::{Defect, Plan, analyse, join_rows};
use reading::Row;

/// The greatest of some numbers.
fn greatest(numbers: &[u32]) -> u32
    requires { 0 < length numbers.now }
    ensures { Greatest numbers.now (length numbers.now) result }
{
    numbers.iter().copied().max().unwrap()
}

impl TableRows<'_> {
    /// The rows, in an array with room for as many as a table may have.
    fn store(&self) -> [Row; 64]
        ensures { take (length self.now.rows.now) result ≡ self.now.rows.now }
    {
        let mut stored = [Row::Truth(false); 64];
        stored[..self.rows.len()].copy_from_slice(self.rows);
        stored
    }

    /// The place of each row, where the windows take the first cells.
    fn find_places(
        &self,
        plan: &Plan,
        positions: &[usize; 64],
        lag: u32,
        windows: usize,
    ) -> [Place; 64]
        requires lag { (r : ℕ) → r < length self.now.rows.now → slice_index plan.now.lead r ≤ lag }
        requires low { (r : ℕ) → slice_index plan.now.depth r ≤ 65 }
        requires stages { (r : ℕ) → r < 64 → slice_index plan.now.stage r < 64 }
        requires windows { windows ≤ 4160 }
        ensures { Placed self.now.rows.now plan.now positions.now lag windows result (length self.now.rows.now) }
    {
        let mut places = [Place::default(); 64];
        let mut start = 0;
        let mut cell = windows;
        for (r, row) in self.rows.iter().enumerate() {
            let depth = plan.depth[r] as usize;
            places[r] = Place {
                delay: lag - plan.lead[r],
                depth,
                start,
                stage: plan.stage[r] as u8,
                position: positions[r],
                settled: cell,
            };
            start += depth;
            cell += usize::from(is_asa(*row));
        }
        places
    }

    /// The schedule of rows that have a plan.
    fn schedule(&self, output: u8, plan: Plan) -> Schedule
        requires closed { Closed self.now.rows.now }
        requires output_within { output < length self.now.rows.now }
        requires planned { Planned (table_edges self.now.rows.now) output plan }
        ensures { Checked self.now.rows.now output result }
    {
        let count = self.rows.len();
        let lag = greatest(&plan.lead[..count]);
        let windows = count_window_cells(&plan.depth[..count]) as usize;
        let order = order_rows(&plan, count);
        let positions = find_positions(&order[..count]);
        Schedule {
            rows: self.store(),
            count,
            result: output,
            plan,
            places: self.find_places(&plan, &positions, lag, windows),
            order,
            lag,
            stages: greatest(&plan.stage[..count]) as u8,
            windows,
            size: windows + count_asas(self.rows),
        }
    }
}

/// The checked table of the rows, of which one is that of the output.
pub fn check_rows(rows: &[Row], output: u8) -> Result<Table, Defect>
    ensures { JudgedRows rows.now output result }
{
    if rows.len() > ROWS || usize::from(output) >= rows.len() {
        return Err(Defect::Malformed);
    }
    let table = TableRows { rows };
    let edges = table.list_edges();
    if !join_rows(&edges, rows.len()) {
        return Err(Defect::Malformed);
    }
    let plan = analyse(&edges, usize::from(output))?;
    let schedule = table.schedule(output, plan);
    Ok(Table { schedule })
}
