//! The kinds of values that equations compute with: whole numbers and rates.

#![tactic(auto)]

mod finite;
mod integer;
mod kinds;
mod numbers;
mod rate;
mod values;
mod whole;

pub use finite::Finite;
pub use integer::Integer;
pub use kinds::Kind;
pub use numbers::Number;
pub use rate::Rate;
pub use values::Value;
pub use whole::Whole;
