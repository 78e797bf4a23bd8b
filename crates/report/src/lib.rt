//! The list of a run: a heading, and a line for each tick.

#![tactic(auto)]

mod runs;
mod ticks;

pub use runs::push_run;
