//! A window keeps the entry of tick t in its cell t modulo the number of its cells.

ghost use Rattle.std.specs.Prelude.{◌≡◌, ℕ, ◌+◌, ◌%◌, ◌<◌, ◌≤◌, List, [], ◌∷◌, ◌++◌, length, Some, slice_index_or, slice_set};
ghost use Rattle.window.specs.Windows.{Holds, recalled};

/// The cell of a tick in a window of that depth; a window of depth 1 takes no division.
pub fn slot(tick: u32, depth: usize) -> usize
    ensures { (0 < depth → result ≡ tick % depth) × (depth ≡ 0 → result ≡ 0) }
{
    if depth <= 1 { 0 } else { tick as usize % depth }
}

/// A window over cells that are lent.
#[derive(Drop)]
pub struct Window<'a, T> {
    cells: &'a mut [T],
}

impl<'a, T: Copy> Window<'a, T> {
    /// The window over all of the cells.
    pub fn over(cells: &'a mut [T]) -> Window<'a, T>
        ensures { result.cells ≡ cells.entry }
    {
        Window { cells }
    }

    /// Keeps the entry of a tick, in the place of the one that is as many ticks older as there are cells.
    #[tactic(auto, using(crate::proofs::Ring::pushed))]
    pub fn put(&mut self, tick: u32, entry: T)
        ensures cells { self.new.cells.now ≡ slice_set self.old.cells.now (tick % length self.old.cells.now) entry }
        ensures named { self.new.cells.ghost_name ≡ self.old.cells.ghost_name }
        ensures holds { (history : List T) → length history ≡ tick → Holds self.old.cells.now history → Holds self.new.cells.now (history ++ entry ∷ []) }
    {
        let depth = self.cells.len();
        if depth > 0 {
            self.cells[slot(tick, depth)] = entry;
        }
    }

    /// The entry of a tick, if there are cells; it is the one kept last among those whose ticks share its cell.
    pub fn get(&self, tick: u32) -> Option<T>
        ensures value { result ≡ recalled self.now.cells.now tick }
        ensures held { (history : List T) → Holds self.now.cells.now history → tick < length history → length history ≤ tick + length self.now.cells.now → (d : T) → result ≡ Some (slice_index_or history tick d) }
    {
        self.cells.get(slot(tick, self.cells.len())).copied()
    }
}
