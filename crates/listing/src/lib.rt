//! From the bytes of a text and a recording to the printed list of their run.

#![tactic(auto)]

mod limits;
mod lists;
mod refusal;

pub use lists::list;
pub use refusal::Refusal;
