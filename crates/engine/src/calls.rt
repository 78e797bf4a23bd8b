//! The calls of a run, and what they answer.

ghost use Rattle.std.specs.Prelude.{◌≡◌};
ghost use Rattle.engine.specs.Refusals.{number_of};

use reading::Reading;

/// Why a call was refused, by the number of the refusal.
#[derive(Clone, Copy, Drop)]
pub enum Refusal {
    /// No horizon is in force.
    NoHorizon = 13,
    /// A horizon outside its limits.
    Horizon = 14,
    /// Fewer cells than the table needs.
    Cells = 15,
    /// A step with a stage left.
    StageLeft = 16,
    /// A step after all ticks of the horizon.
    Over = 17,
    /// A row or a tick that is not there.
    Place = 18,
}

impl Refusal {
    /// The number of the refusal. Its place is 0.
    pub fn number(self) -> u8
        ensures { result ≡ number_of self }
    {
        self as u8
    }
}

/// A call of a run.
#[derive(Clone, Copy, Drop)]
pub enum Call {
    Open(u32),
    Settle,
    Step,
    Look(u8, u32),
    Restart,
}

/// What an accepted call answered.
#[derive(Clone, Copy, Drop)]
pub enum Answer<V> {
    /// How many stages there are to settle.
    Stages(u8),
    /// How many stages are left.
    Left(u8),
    /// The tick made, and the reading of `result`.
    Made(u32, Reading<V>),
    /// The reading looked at, if the window has the tick.
    Seen(Option<Reading<V>>),
    Restarted,
}

/// What a call answered, or why it was refused.
pub type Reply<V> = Result<Answer<V>, Refusal>;

/// A call with its reply.
#[derive(Clone, Copy, Drop)]
pub struct Entry<V> {
    pub call: Call,
    pub reply: Reply<V>,
}
