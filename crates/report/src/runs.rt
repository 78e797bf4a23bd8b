//! A whole run, and its list.

ghost use Rattle.std.specs.Prelude.{◌≡◌, length};
ghost use Rattle.report.specs.Reports.{Reported, heading};
ghost use Rattle.table.specs.Tables.{layout};

use crate::ticks::{push_ticks, settle_stages};
use engine::{Refusal, Run};
use format::{Heading, Shown};
use kind::Kind;
use reading::Reading;
use source::Source;
use table::Table;
use text::Text;

/// The first line of a table's list.
fn heading(table: &Table) -> Heading
    ensures { result ≡ heading table.now.schedule }
{
    Heading {
        rows: table.schedule.count,
        stages: table.schedule.stages,
        lead: table.schedule.lag,
        cells: table.schedule.size,
    }
}

/// Runs a table over a source up to its tick count, and appends the list.
pub fn push_run<K: Kind + Shown, S: Source<K>>(
    table: &Table,
    source: &S,
    cells: &mut [Reading<K>],
    out: &mut Text,
) -> Result<(), Refusal>
    ensures { Reported table.now.schedule K.Kind.meaning (S.Source.meaning source.now).says (S.Source.meaning source.now).ticks (length cells.old) K.Shown.text out.old out.new result }
{
    let mut run = Run::new(table, cells);
    let horizon = source.ticks();
    let stages = run.open(horizon)?;
    settle_stages(&mut run, source, stages)?;
    heading(table).push_to(out);
    push_ticks(&mut run, source, horizon, out)
}
