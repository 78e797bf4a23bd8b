//! What equations compute: readings and faults, and the rows that they are made of.

#![tactic(auto)]

mod faults;
mod rows;

pub use faults::{Fault, FaultNumber, KindFault, Reading, SourceFault};
pub use rows::{Arithmetic, Relation, Row};
