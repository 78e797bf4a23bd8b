//! The names that the equations use.

ghost use Rattle.std.specs.Prelude.{◌≡◌, map, fold};
ghost use Rattle.load.specs.Uses.{unknown, earlier, unknown_in, used};

use crate::heads::find;
use crate::refusal::Refusal;
use syntax::{Equation, Node, Operand};

/// The place where an operand is a name that no equation defines.
// The equations go along, here and below, and are no struct: it would hold one slice, and no fact of it is needed.
fn unknown(equations: &[Equation], operand: Operand) -> Option<usize>
    ensures { result ≡ unknown equations.now operand }
{
    match operand {
        Operand::Name(name, place) if find(equations, name).is_none() => Some(place),
        _ => None,
    }
}

/// The earlier of two places, of those that are there.
fn earlier(first: Option<usize>, second: Option<usize>) -> Option<usize>
    ensures { result ≡ earlier first second }
{
    match (first, second) {
        (Some(a), Some(b)) => Some(a.min(b)),
        _ => first.or(second),
    }
}

/// The earliest place where a node uses a name that no equation defines.
fn unknown_in(equations: &[Equation], node: Node) -> Option<usize>
    ensures { result ≡ unknown_in equations.now node }
{
    match node {
        Node::Name(name, place) => unknown(equations, Operand::Name(name, place)),
        Node::Channel(_) | Node::Literal(_) | Node::Truth(_) => None,
        Node::Prefix(_, a) => unknown(equations, a),
        Node::Infix(_, a, b) => earlier(unknown(equations, a), unknown(equations, b)),
        Node::Choice(a, b, c) => {
            let first = earlier(unknown(equations, a), unknown(equations, b));
            earlier(first, unknown(equations, c))
        }
    }
}

/// The earliest such place in the nodes.
fn first_unknown(equations: &[Equation], nodes: &[Node]) -> Option<usize>
    ensures { result ≡ fold earlier None (map (unknown_in equations.now) nodes.now) }
{
    nodes
        .iter()
        .map(|node| unknown_in(equations, *node))
        .fold(None, |first, second| earlier(first, second))
}

/// Refuses the earliest use of a name that no equation defines.
pub(crate) fn check_uses(equations: &[Equation], nodes: &[Node]) -> Result<(), Refusal>
    ensures { result ≡ used equations.now nodes.now }
{
    first_unknown(equations, nodes).map_or(Ok(()), |place| Err(Refusal::Undefined(place)))
}
