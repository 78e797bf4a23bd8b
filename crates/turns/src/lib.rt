//! The turns of the loop over a checked table: one reading of each row a turn, and the search of `asa` rows.

#![tactic(auto)]

mod decision;
mod looping;
mod settle;
mod turn;

pub use decision::decide;
pub use settle::settle_stage;
pub use turn::make_tick;
