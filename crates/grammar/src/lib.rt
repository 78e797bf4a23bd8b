//! The grammar of the language: the levels of its operators, and a machine that decides which words make a text.

#![tactic(auto)]

ghost use Rattle.grammar.specs.Decision.{Decides};

mod levels;

pub use levels::{ATOM, CHOICE, Levels, levels_of, names, prefix_level, prefix_of, takes};

/// Carries the theorem that the machine decides the grammar.
pub fn machine_decides()
    ensures { Decides }
{}
