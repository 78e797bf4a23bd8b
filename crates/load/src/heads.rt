//! The left sides of the equations.

ghost use Rattle.std.specs.Prelude.{◌≡◌, ◌<◌, ◌≤◌, [], length, IfOk};
ghost use Rattle.std.specs.Option.{IfSome};
ghost use Rattle.load.specs.Heads.{defines, found, clashes, heads_from, result_name, or_none};

use crate::refusal::Refusal;
use lexer::{Atom, Name};
use syntax::Equation;

/// Whether the left side of an equation is the name.
fn defines(head: Atom, name: Name) -> bool
    ensures { result ≡ defines name head }
{
    matches!(head, Atom::Name(own) if own == name)
}

/// The number of the first equation that defines the name.
pub(crate) fn find(equations: &[Equation], name: Name) -> Option<usize>
    ensures value { result ≡ found name equations.now }
    ensures within { IfSome result (λ k. k < length equations.now) }
{
    equations
        .iter()
        .position(|equation| defines(equation.head, name))
}

/// Whether the left side is a channel, or a name that is defined before.
fn clashes(before: &[Equation], head: Atom) -> bool
    ensures { result ≡ clashes before.now head }
{
    match head {
        Atom::Name(name) => find(before, name).is_some(),
        _ => true,
    }
}

/// Refuses the first equation that defines a channel, or a name again.
pub(crate) fn check_heads(equations: &[Equation]) -> Result<(), Refusal>
    ensures { result ≡ heads_from [] equations.now }
{
    for (k, equation) in equations.iter().enumerate() {
        if clashes(&equations[..k], equation.head) {
            return Err(Refusal::Taken(equation.place));
        }
    }
    Ok(())
}

const RESULT: Name = Name {
    bytes: *b"result\0\0\0\0\0\0\0\0\0\0",
};

/// The number of the equation of `result`; without one the text is refused at its `end`.
pub(crate) fn find_result(equations: &[Equation], end: usize) -> Result<usize, Refusal>
    ensures value { result ≡ or_none end (found result_name equations.now) }
    ensures within { IfOk result (λ k. k < length equations.now) }
{
    find(equations, RESULT).ok_or(Refusal::NoResult(end))
}
