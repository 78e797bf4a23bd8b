//! History windows: the last entries of a row, in a stretch of cells that somebody else owns.

#![tactic(auto)]

mod window;

pub use window::{Window, slot};
