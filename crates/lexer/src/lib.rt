//! Cuts a text into words.

#![tactic(auto)]

mod lexer;
mod token;

pub use lexer::{NotAWord, Word, scan, skip};
pub use token::{Atom, Infix, Mark, Name, Prefix, Token};
