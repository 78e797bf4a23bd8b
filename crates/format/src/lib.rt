//! How values, readings and the lines of a list are printed.

#![tactic(auto)]

mod lines;
mod values;

pub use lines::{Heading, Line, Refused};
pub use values::Shown;
