//! The calls of a run.

ghost use Rattle.std.specs.Prelude.{◌≡◌, ◌<◌, true, false, length, is_ok, ok_or};
ghost use Rattle.theory.specs.Says.{Says};
ghost use Rattle.table.specs.Views.{seen};
ghost use Rattle.turns.specs.Holds.{At};
ghost use Rattle.engine.specs.declared.calls.Answer.TheVariants.{Stages, Left, Made, Seen, Restarted};
ghost use Rattle.engine.specs.declared.calls.Refusal.TheVariants.{NoHorizon};
ghost use Rattle.engine.specs.declared.calls.Call.TheVariants.{Open, Settle, Step, Look, Restart};
ghost use Rattle.engine.specs.Cells.{cell_of, Own, Keeps};
ghost use Rattle.engine.specs.Law.{Past, answered};
ghost use Rattle.engine.specs.Tells.{laid, Tells, Lawful, Renewed, Stays};

use crate::calls::Refusal;
use crate::progress::Progress;
use crate::run::Run;
use kind::Kind;
use reading::{Reading, Row};
use source::Source;
use table::View;
use turns::{make_tick, settle_stage};
use window::slot;

/// The greatest horizon.
const FARTHEST: u32 = 100000;

/// The cell of a row, if it is an `asa` row.
fn cell_of(view: &View<'_>, row: u8) -> Option<usize>
    ensures { result ≡ cell_of (seen view.now) row }
{
    match view.rows.get(row as usize) {
        Some(Row::Asa(_, _)) => Some(view.places[row as usize].settled),
        _ => None,
    }
}

impl<'t, 'c, V: Kind> Run<'t, 'c, V> {
    /// How far the run has come under the horizon in force.
    // A copy, which each call changes and puts back. Tried by `as_mut`: after the `?` it is not known that the run stayed.
    fn progress(&self) -> Result<Progress, Refusal>
        ensures { result ≡ ok_or self.now.progress NoHorizon }
    {
        self.progress.ok_or(Refusal::NoHorizon)
    }

    /// Forgets the ticks made and keeps what is settled.
    pub fn restart(&mut self) -> Result<(), Refusal>
        ensures stays { Stays self.old self.new }
        ensures refused { is_ok result ≡ false → self.new ≡ self.old }
        ensures law { (says : Says V) → Lawful V.Kind.meaning says self.old self.new Restart (answered (λ _. Restarted) result) }
    {
        let mut progress = self.progress()?;
        progress.made = 0;
        self.progress = Some(progress);
        Ok(())
    }

    /// Takes a horizon, and answers the number of stages.
    pub fn open(&mut self, horizon: u32) -> Result<u8, Refusal>
        ensures stays { Stays self.old self.new }
        ensures refused { is_ok result ≡ false → self.new ≡ self.old }
        ensures law { (says : Says V) → Lawful V.Kind.meaning says self.old self.new (Open horizon) (answered Stages result) }
        ensures renewed { is_ok result ≡ true → (says says' : Says V) → Renewed V.Kind.meaning says says' self.old self.new (Open horizon) (answered Stages result) }
    {
        if horizon < 1 || horizon > FARTHEST {
            return Err(Refusal::Horizon);
        }
        let schedule = &self.table.schedule;
        if self.cells.len() < schedule.size {
            return Err(Refusal::Cells);
        }
        let stages = schedule.stages;
        self.progress = Some(Progress {
            horizon,
            settled: 0,
            made: 0,
        });
        Ok(stages)
    }

    /// Makes the next tick, and answers it with the reading of `result`.
    pub fn step<S: Source<V>>(&mut self, source: &S) -> Result<(u32, Reading<V>), Refusal>
        ensures stays { Stays self.old self.new }
        ensures refused { is_ok result ≡ false → self.new ≡ self.old }
        ensures law { Lawful V.Kind.meaning (S.Source.meaning source.now).says self.old self.new Step (answered (λ m. Made m.0 m.1) result) }
    {
        let mut progress = self.progress()?;
        let view = self.table.view();
        if progress.settled < view.stages {
            return Err(Refusal::StageLeft);
        }
        let tick = progress.made;
        if tick >= progress.horizon {
            return Err(Refusal::Over);
        }
        let Some(reading) = make_tick(&view, source, self.cells, tick) else {
            unreachable()
        };
        progress.made += 1;
        self.progress = Some(progress);
        Ok((tick, reading))
    }

    /// Finds the readings of the next stage, and answers how many stages are left.
    pub fn settle<S: Source<V>>(&mut self, source: &S) -> Result<u8, Refusal>
        ensures stays { Stays self.old self.new }
        ensures refused { is_ok result ≡ false → self.new ≡ self.old }
        ensures law { Lawful V.Kind.meaning (S.Source.meaning source.now).says self.old self.new Settle (answered Left result) }
    {
        let mut progress = self.progress()?;
        let view = self.table.view();
        if progress.settled >= view.stages {
            return Ok(0);
        }
        progress.settled += 1;
        let Some(()) = settle_stage(
            &view,
            source,
            self.cells,
            progress.settled,
            progress.horizon,
        ) else {
            unreachable()
        };
        self.progress = Some(progress);
        Ok(view.stages - progress.settled)
    }

    /// The reading in a cell.
    fn cell(&self, i: usize) -> Reading<V>
        requires { i < length self.now.cells.now }
        ensures { At self.now.cells.now i result }
    {
        self.cells[i]
    }

    /// The reading of a row at a tick, where its window has it.
    pub fn look(&mut self, row: u8, tick: u32) -> Result<Option<Reading<V>>, Refusal>
        ensures same { self.new ≡ self.old }
        ensures law { (says : Says V) → Lawful V.Kind.meaning says self.old self.new (Look row tick) (answered Seen result) }
    {
        let progress = self.progress()?;
        let view = self.table.view();
        if row as usize >= view.rows.len() || tick >= progress.horizon {
            return Err(Refusal::Place);
        }
        let place = view.places[row as usize];
        let turns = progress.made + view.lag;
        let due = tick + place.delay;
        if progress.made == 0 || due >= turns || (turns - due) as usize > place.depth {
            return Ok(None);
        }
        Ok(Some(self.cell(place.start + slot(tick, place.depth))))
    }

    /// The cell that an `asa` row has for its own: there its reading stands from its settle to the next accepted open.
    pub fn settled_cell(&self, row: u8) -> Option<usize>
        ensures value { result ≡ cell_of (laid self.now) row }
        ensures own { Own (laid self.now) row result }
        ensures keeps { (says : Says V) (past : Past V) → Tells V.Kind.meaning says self.now past → Keeps (laid self.now) V.Kind.meaning says self.now.cells.now past row result }
    {
        cell_of(&self.table.view(), row)
    }
}
