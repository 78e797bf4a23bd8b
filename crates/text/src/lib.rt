//! Text that is put together piece by piece.

#![tactic(auto)]

mod fields;
mod numbers;
mod text;

pub use fields::Field;
pub use text::Text;
