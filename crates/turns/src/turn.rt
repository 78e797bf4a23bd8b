//! One turn of the loop.

ghost use Rattle.std.specs.Prelude.{◌≡◌, ℕ, ◌+◌, ◌-◌, ◌%◌, ◌^◌, ◌<◌, ◌≤◌, true, false, length, slice_set};
ghost use Rattle.theory.specs.Rule.{Sheet, Fits, row_at};
ghost use Rattle.table.specs.Layout.{place_at, is_asa};
ghost use Rattle.table.specs.Views.{seen};
ghost use Rattle.turns.specs.Holds.{At, slot, Holds, Settled, Kept, RowMade, TurnMade, TurnsMade};
ghost use Rattle.turns.specs.Loops.{laid, Stays};
ghost use Rattle.turns.specs.Ticks.{Ticked, Tried};
ghost use Rattle.turns.specs.Reads.{Has, Left, Right, Third, Ready};

use crate::decision::{answered, decide};
use crate::looping::Loop;
use kind::Kind;
use reading::{Reading, Row};
use source::Source;
use table::{Place, View};
use window::{Window, slot};

/// Writes the reading of tick `t` into a row's window, which is all of these cells.
// A function of its own: of a window made over a part in place, it is not known what the whole cells then hold.
fn put<V: Kind>(cells: &mut [Reading<V>], t: u32, reading: Reading<V>)
    ensures { cells.new ≡ slice_set cells.old (t % length cells.old) reading }
{
    let mut window = Window::over(cells);
    window.put(t, reading);
}

// Each method asks that the number of a row is one of the table's: a type that carried it would have to name the table.
impl<'v, 'c, V: Kind> Loop<'v, 'c, V> {
    /// The row of a number.
    pub(crate) fn row(&self, r: u8) -> Row
        requires row { r < length self.now.view.rows.now }
        ensures { result ≡ row_at self.now.view.rows.now r }
    {
        self.view.rows[r as usize]
    }

    /// The place of a row.
    pub(crate) fn place(&self, r: u8) -> Place
        requires row { r < length self.now.view.rows.now }
        ensures { result ≡ place_at (laid self.now) r }
    {
        self.view.places[r as usize]
    }

    /// The reading of row `x` at tick `t`, from the row's window.
    pub(crate) fn fetch(&self, x: u8, t: u32) -> Reading<V>
        requires row { x < length self.now.view.rows.now }
        ensures { Has (laid self.now) self.now.cells.now x t result }
    {
        // Taken by itself first, so that it is known how long the cells can be.
        let cells = &*self.cells;
        let place = self.place(x);
        cells[place.start + slot(t, place.depth)]
    }

    /// The reading in the own cell of an `asa` row.
    fn settled(&self, r: u8) -> Reading<V>
        requires row { r < length self.now.view.rows.now }
        requires asa { is_asa (row_at self.now.view.rows.now r) ≡ true }
        ensures { At self.now.cells.now (place_at (laid self.now) r).settled result }
    {
        self.cells[self.place(r).settled]
    }

    /// The first operand of row `r` at tick `t`.
    fn left<S: Source<V>>(&self, source: &S, row: Row, r: u8, t: u32) -> Reading<V>
        requires row { (r < length self.now.view.rows.now) × (row ≡ row_at self.now.view.rows.now r) }
        requires tick { t + (place_at (laid self.now) r).delay < 2 ^ 32 }
        ensures { Left (laid self.now) (S.Source.meaning source.now).says self.now.cells.now row r t result }
    {
        match row {
            Row::Channel(c) => answered(source.read(c, t), r, t),
            Row::Literal(_) | Row::Truth(_) => self.fetch(r, 0),
            Row::First(_) if t > 0 => self.fetch(r, t - 1),
            Row::Fby(_, y) if t > 0 => self.fetch(y, t - 1),
            Row::First(x) | Row::Fby(x, _) => self.fetch(x, 0),
            Row::Next(x) => self.fetch(x, t + 1),
            Row::Asa(_, _) => self.settled(r),
            Row::Same(x)
            | Row::If(x, _, _)
            | Row::And(x, _)
            | Row::Or(x, _)
            | Row::Not(x)
            | Row::Negate(x) => self.fetch(x, t),
            Row::Compute(_, x, _) | Row::Relate(_, x, _) => self.fetch(x, t),
        }
    }

    // No Option, here and below: `decide` takes three readings, and looks at none that the row has no operand for.
    /// The second operand of row `r` at tick `t`, or any reading where it has none.
    fn right(&self, row: Row, r: u8, t: u32) -> Reading<V>
        requires row { (r < length self.now.view.rows.now) × (row ≡ row_at self.now.view.rows.now r) }
        ensures { Right (laid self.now) self.now.cells.now row t result }
    {
        match row {
            Row::If(_, x, _)
            | Row::And(_, x)
            | Row::Or(_, x)
            | Row::Compute(_, _, x)
            | Row::Relate(_, _, x) => self.fetch(x, t),
            _ => self.fetch(r, 0),
        }
    }

    /// The third operand of row `r` at tick `t`, or any reading where it has none.
    fn third(&self, row: Row, r: u8, t: u32) -> Reading<V>
        requires row { (r < length self.now.view.rows.now) × (row ≡ row_at self.now.view.rows.now r) }
        ensures { Third (laid self.now) self.now.cells.now row t result }
    {
        match row {
            Row::If(_, _, x) => self.fetch(x, t),
            _ => self.fetch(r, 0),
        }
    }

    /// What row `r` reads at tick `t`, where the cells hold what it reads.
    fn reading<S: Source<V>>(&self, source: &S, r: u8, t: u32) -> Reading<V>
        requires row { r < length self.now.view.rows.now }
        requires tick { t + (place_at (laid self.now) r).delay < 2 ^ 32 }
        ensures { (H : ℕ) (σ : Sheet V) → Fits self.now.view.rows.now V.Kind.meaning (S.Source.meaning source.now).says H σ → Ready (laid self.now) self.now.cells.now σ (row_at self.now.view.rows.now r) r t → result ≡ σ r t }
    {
        // The row is looked up once and passed beside its number: looked up by each of these, turns take a twentieth longer.
        let row = self.row(r);
        let a = self.left(source, row, r, t);
        let b = self.right(row, r, t);
        let c = self.third(row, r, t);
        decide(row, r, t, &a, &b, &c)
    }

    /// Writes the reading of tick `t` into the window of row `r`.
    #[tactic(auto, using(crate::proofs::Mid::put_part))]
    fn keep(&mut self, r: u8, t: u32, reading: Reading<V>)
        requires row { r < length self.old.view.rows.now }
        ensures cells { self.new.cells.now ≡ slice_set self.old.cells.now (slot (place_at (laid self.old) r) t) reading }
        ensures stays { Stays self.old self.new }
    {
        let place = self.place(r);
        let start = place.start;
        let end = start + place.depth;
        put(&mut self.cells[start..end], t, reading);
    }

    /// Makes row `r` at its tick of a turn, where it is of the stage or a lower one, and its first turn has come.
    fn make_row<S: Source<V>>(&mut self, source: &S, stage: u8, turn: u32, r: u8)
        requires row { r < length self.old.view.rows.now }
        ensures made { RowMade (laid self.old) V.Kind.meaning (S.Source.meaning source.now).says stage turn r self.old.cells.now self.new.cells.now }
        ensures kept { Kept (laid self.old) self.old.cells.now self.new.cells.now }
        ensures stays { Stays self.old self.new }
    {
        let place = self.place(r);
        if place.stage > stage || place.delay > turn {
            return;
        }
        let t = turn - place.delay;
        let made = self.reading(source, r, t);
        self.keep(r, t, made);
    }

    /// Makes the rows up to a stage at their ticks of one turn.
    pub(crate) fn turn<S: Source<V>>(&mut self, source: &S, stage: u8, turn: u32)
        ensures made { TurnMade (laid self.old) V.Kind.meaning (S.Source.meaning source.now).says stage turn self.old.cells.now self.new.cells.now }
        ensures kept { Kept (laid self.old) self.old.cells.now self.new.cells.now }
        ensures stays { Stays self.old self.new }
    {
        let order = self.view.order;
        for &r in order {
            self.make_row(source, stage, turn, r);
        }
    }

    /// Makes the turns from 0 to before `count`, over the rows up to a stage.
    pub(crate) fn turns<S: Source<V>>(&mut self, source: &S, stage: u8, count: u32)
        ensures made { TurnsMade (laid self.old) V.Kind.meaning (S.Source.meaning source.now).says stage count self.old.cells.now self.new.cells.now }
        ensures kept { Kept (laid self.old) self.old.cells.now self.new.cells.now }
        ensures stays { Stays self.old self.new }
    {
        for turn in 0..count {
            self.turn(source, stage, turn);
        }
    }

    /// Makes tick `t` of all rows, and answers the reading of `result`. Before tick 0 the rows of greater leads go ahead.
    fn tick<S: Source<V>>(&mut self, source: &S, t: u32) -> Reading<V>
        requires tick { t < 100000 }
        ensures ticked { Ticked (laid self.old) V.Kind.meaning (S.Source.meaning source.now).says self.old.cells.now self.new.cells.now t result }
        ensures stays { Stays self.old self.new }
    {
        let View {
            lag,
            stages,
            result,
            ..
        } = self.view;
        if t == 0 {
            self.turns(source, stages, lag);
        }
        self.turn(source, stages, t + lag);
        self.fetch(result, t)
    }
}

/// The most ticks of a run.
pub(crate) const MOST: u32 = 100000;

/// Makes tick `t`, where there are cells enough and the tick is not too late, and answers the reading of `result`.
pub fn make_tick<V: Kind, S: Source<V>>(
    view: &View<'_>,
    source: &S,
    cells: &mut [Reading<V>],
    t: u32,
) -> Option<Reading<V>>
    ensures { Tried (seen view.now) V.Kind.meaning (S.Source.meaning source.now).says cells.old cells.new t result }
{
    if cells.len() < view.size || t >= MOST {
        return None;
    }
    let mut lap = Loop { view: *view, cells };
    Some(lap.tick(source, t))
}
