//! From the bytes of a text to a checked table.

#![tactic(auto)]

mod heads;
mod loading;
mod refusal;
mod rows;
mod sizes;
mod uses;

pub use loading::load;
pub use refusal::Refusal;
pub use syntax::Refusal as ReadingRefusal;
