//! The search for the readings of `asa` rows: one pass over the ticks for all rows of a stage.

ghost use Rattle.std.specs.Prelude.{◌≡◌, ℕ, ◌-◌, ◌<◌, ◌≤◌, true, false, length, slice_index_or, slice_set};
ghost use Rattle.theory.specs.Rule.{Sheet, row_at};
ghost use Rattle.table.specs.Layout.{place_at, is_asa};
ghost use Rattle.table.specs.Views.{seen};
ghost use Rattle.turns.specs.Holds.{Settled};
ghost use Rattle.turns.specs.Loops.{laid, Stays};
ghost use Rattle.turns.specs.Reads.{Has};
ghost use Rattle.turns.specs.Searches.{searching, found_at, Ends, Seeking, SoughtRow, SoughtAll};
ghost use Rattle.turns.specs.Ticks.{Untouched, Settles, TriedStage};

use crate::decision::{fault, is};
use crate::looping::Loop;
use crate::turn::MOST;
use kind::Kind;
use reading::{FaultNumber, Reading, Row};
use source::Source;
use std::num::NonZeroU8;
use table::View;

/// What an `asa` row reads, from its sides at the tick that ends its search.
fn taken<V: Kind>(x: Reading<V>, y: Reading<V>, r: u8, t: u32) -> Reading<V>
    ensures { result ≡ found_at V.Kind.meaning r t x y }
{
    match y?.told() {
        Some(true) => x,
        _ => fault(FaultNumber::WrongKind, r, t),
    }
}

/// Whether no search is pending.
fn ended(pending: &[bool; 256]) -> bool
    ensures { result ≡ true → (k : ℕ) → slice_index_or pending.now k false ≡ false }
{
    !pending.contains(&true)
}

impl<'v, 'c, V: Kind> Loop<'v, 'c, V> {
    /// Whether row `r` is an `asa` row of the stage.
    fn searches(&self, r: u8, stage: NonZeroU8) -> bool
        requires row { r < length self.now.view.rows.now }
        ensures { result ≡ searching (laid self.now) stage.value r }
    {
        matches!(self.row(r), Row::Asa(_, _)) && self.place(r).stage == stage.get()
    }

    /// The reading of the row `r`, which is `x asa y`, if its search ends at tick `t`.
    fn end_at(&self, r: u8, x: u8, y: u8, t: u32) -> Option<Reading<V>>
        requires left { x < length self.now.view.rows.now }
        requires right { y < length self.now.view.rows.now }
        ensures { (σ : Sheet V) → Has (laid self.now) self.now.cells.now x t (σ x t) → Has (laid self.now) self.now.cells.now y t (σ y t) → Ends V.Kind.meaning σ r x y t result }
    {
        let end = self.fetch(y, t);
        if is(false, &end) {
            return None;
        }
        let start = self.fetch(x, t);
        Some(taken(start, end, r, t))
    }

    /// Writes a reading into the own cell of an `asa` row.
    fn store(&mut self, r: u8, reading: Reading<V>)
        requires row { r < length self.old.view.rows.now }
        requires asa { is_asa (row_at self.old.view.rows.now r) ≡ true }
        ensures cells { self.new.cells.now ≡ slice_set self.old.cells.now (place_at (laid self.old) r).settled reading }
        ensures stays { Stays self.old self.new }
    {
        let settled = self.place(r).settled;
        self.cells[settled] = reading;
    }

    /// Starts the search of each `asa` row of a stage. While it is pending, the row's cell has fault 1.
    fn begin(&mut self, stage: NonZeroU8) -> [bool; 256]
        ensures seeking { (σ : Sheet V) → Settled (laid self.old) self.old.cells.now σ (stage.value - 1) → Settled (laid self.old) self.new.cells.now σ (stage.value - 1) × Seeking (laid self.old) V.Kind.meaning self.new.cells.now σ result stage.value 0 0 }
        ensures beyond { Untouched (laid self.old) self.old.cells.now self.new.cells.now }
        ensures stays { Stays self.old self.new }
    {
        // A mark for each number that a row can have, so that no bound on the rows is needed.
        let mut pending = [false; 256];
        let order = self.view.order;
        for &r in order {
            if self.searches(r, stage) {
                self.store(r, fault(FaultNumber::Unreached, r, 0));
                pending[r as usize] = true;
            }
        }
        pending
    }

    /// Goes on with the search of row `r` at tick `t`: where its right side is not false it has found its reading.
    fn seek_row(&mut self, stage: NonZeroU8, t: u32, r: u8, pending: &mut [bool; 256])
        requires row { r < length self.old.view.rows.now }
        ensures sought { SoughtRow (laid self.old) V.Kind.meaning stage.value t r self.old.cells.now pending.old self.new.cells.now pending.new }
        ensures beyond { Untouched (laid self.old) self.old.cells.now self.new.cells.now }
        ensures stays { Stays self.old self.new }
    {
        if !pending[r as usize] || !self.searches(r, stage) {
            return;
        }
        let Row::Asa(x, y) = self.row(r) else {
            return;
        };
        if let Some(reading) = self.end_at(r, x, y, t) {
            self.store(r, reading);
            pending[r as usize] = false;
        }
    }

    /// Goes on with the search of all rows of the stage at tick `t`.
    fn seek(&mut self, stage: NonZeroU8, t: u32, pending: &mut [bool; 256])
        ensures sought { SoughtAll (laid self.old) V.Kind.meaning stage.value t self.old.cells.now pending.old self.new.cells.now pending.new }
        ensures beyond { Untouched (laid self.old) self.old.cells.now self.new.cells.now }
        ensures stays { Stays self.old self.new }
    {
        let order = self.view.order;
        for &r in order {
            self.seek_row(stage, t, r, pending);
        }
    }

    /// Finds the readings of the `asa` rows of a stage, and stops as soon as all have one.
    fn search<S: Source<V>>(&mut self, source: &S, stage: NonZeroU8, horizon: u32)
        requires horizon { horizon ≤ 100000 }
        ensures settles { Settles (laid self.old) V.Kind.meaning (S.Source.meaning source.now).says self.old.cells.now self.new.cells.now stage.value horizon }
        ensures stays { Stays self.old self.new }
    {
        let lag = self.view.lag;
        let lower = stage.get() - 1;
        let mut pending = self.begin(stage);
        self.turns(source, lower, lag);
        for t in 0..horizon {
            self.turn(source, lower, t + lag);
            self.seek(stage, t, &mut pending);
            if ended(&pending) {
                return;
            }
        }
    }
}

/// Finds the readings of the `asa` rows of a stage, where those of lower stages are found.
/// Does nothing, and answers `None`, where there are too few cells, too many ticks, or no such stage.
pub fn settle_stage<V: Kind, S: Source<V>>(
    view: &View<'_>,
    source: &S,
    cells: &mut [Reading<V>],
    stage: u8,
    horizon: u32,
) -> Option<()>
    ensures { TriedStage (seen view.now) V.Kind.meaning (S.Source.meaning source.now).says cells.old cells.new stage horizon result }
{
    let stage = NonZeroU8::new(stage)?;
    if cells.len() < view.size || horizon > MOST {
        return None;
    }
    let mut lap = Loop { view: *view, cells };
    lap.search(source, stage, horizon);
    Some(())
}
