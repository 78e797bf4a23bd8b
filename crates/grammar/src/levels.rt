//! The levels of the operators.

ghost use Rattle.std.specs.Prelude.{◌≡◌};
ghost use Rattle.grammar.specs.Grammar.{levels, prefix_level};
ghost use Rattle.grammar.specs.Machine.{takes, as_prefix, nameable};

use lexer::{Atom, Infix, Prefix, Token};

/// The level of what is no operator.
pub const ATOM: u8 = 11;

/// The level of `if`.
pub const CHOICE: u8 = 3;

/// An operator's own level, and those of its left and its right operand.
#[derive(Clone, Copy)]
pub struct Levels {
    pub own: u8,
    pub left: u8,
    pub right: u8,
}

/// The levels of an operator between two operands.
pub fn levels_of(op: Infix) -> Levels
    ensures { result ≡ levels op }
{
    let (own, left, right) = match op {
        Infix::Fby => (1, 2, 1),
        Infix::Asa => (2, 3, 3),
        Infix::Or => (4, 4, 5),
        Infix::And => (5, 5, 6),
        Infix::Eq | Infix::Ne | Infix::Lt | Infix::Le | Infix::Gt | Infix::Ge => (7, 8, 8),
        Infix::Add | Infix::Sub => (8, 8, 9),
        Infix::Mul | Infix::Div => (9, 9, 10),
    };
    Levels { own, left, right }
}

/// The operator before one operand that a word is, if it is one.
pub fn prefix_of(token: Token) -> Option<Prefix>
    ensures { result ≡ as_prefix token }
{
    match token {
        Token::Infix(Infix::Sub) => Some(Prefix::Negate),
        Token::First => Some(Prefix::First),
        Token::Next => Some(Prefix::Next),
        Token::Not => Some(Prefix::Not),
        _ => None,
    }
}

/// The level of an operator before one operand, which is its operand's too.
pub fn prefix_level(op: Prefix) -> u8
    ensures { result ≡ prefix_level op }
{
    match op {
        Prefix::Negate | Prefix::First | Prefix::Next => 10,
        Prefix::Not => 6,
    }
}

/// The operator, if an expression of level `min` whose left side has the level `level` goes on by it.
pub fn takes(min: u8, level: u8, token: Token) -> Option<Infix>
    ensures { result ≡ takes min level token }
{
    let Token::Infix(op) = token else {
        return None;
    };
    let levels = levels_of(op);
    (min <= levels.own && levels.left <= level).then_some(op)
}

/// Whether an equation may define it: a name or a channel.
pub fn names(atom: Atom) -> bool
    ensures { result ≡ nameable atom }
{
    matches!(atom, Atom::Name(_) | Atom::Channel(_))
}
