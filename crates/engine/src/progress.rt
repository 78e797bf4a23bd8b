//! How far a run has come.

ghost use Rattle.std.specs.Prelude.{◌≤◌};

/// The horizon in force, and what was done under it. The ticks made stay within the horizon, and that within its limit.
#[derive(Clone, Copy, Drop)]
pub struct Progress {
    pub(crate) horizon: u32,
    /// How many stages are settled.
    pub(crate) settled: u8,
    /// How many ticks are made.
    pub(crate) made: u32,
    ghost low: { horizon ≤ 100000 },
    ghost within: { made ≤ horizon },
}
