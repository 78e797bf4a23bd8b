//! From the bytes of a text to a table of its equations.

#![tactic(auto)]

ghost use Rattle.syntax.specs.Judgement.{Single};

mod draft;
mod reader;
mod refusal;

pub use draft::{Draft, EQUATIONS, Equation, Node, OPERANDS, Operand};
pub use reader::parse;
pub use refusal::Refusal;

/// Carries the theorem that at most one answer of the reader fits a text.
pub fn answer_is_single()
    ensures { Single }
{}
