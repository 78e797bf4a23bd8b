//! The rows of a text, by their numbers.

ghost use Rattle.std.specs.Prelude.{◌≡◌, ◌+◌, ◌<◌, ◌≤◌, length, take};
ghost use Rattle.load.specs.Rows.{operand_row, prefix_row, infix_row, node_row, nodes_of, table_rows};

use crate::heads::find;
use crate::sizes::ROWS;
use lexer::{Infix, Prefix};
use reading::{Arithmetic, Relation, Row};
use syntax::{Equation, Node, Operand};

/// The row of an operator before its operand.
fn prefix_row(op: Prefix, x: u8) -> Row
    ensures { result ≡ prefix_row op x }
{
    match op {
        Prefix::Negate => Row::Negate(x),
        Prefix::First => Row::First(x),
        Prefix::Next => Row::Next(x),
        Prefix::Not => Row::Not(x),
    }
}

/// The row of an operator between its operands.
fn infix_row(op: Infix, x: u8, y: u8) -> Row
    ensures { result ≡ infix_row op x y }
{
    match op {
        Infix::Fby => Row::Fby(x, y),
        Infix::Asa => Row::Asa(x, y),
        Infix::Or => Row::Or(x, y),
        Infix::And => Row::And(x, y),
        Infix::Eq => Row::Relate(Relation::Equal, x, y),
        Infix::Ne => Row::Relate(Relation::Unequal, x, y),
        Infix::Lt => Row::Relate(Relation::Less, x, y),
        Infix::Le => Row::Relate(Relation::AtMost, x, y),
        Infix::Gt => Row::Relate(Relation::Greater, x, y),
        Infix::Ge => Row::Relate(Relation::AtLeast, x, y),
        Infix::Add => Row::Compute(Arithmetic::Add, x, y),
        Infix::Sub => Row::Compute(Arithmetic::Subtract, x, y),
        Infix::Mul => Row::Compute(Arithmetic::Multiply, x, y),
        Infix::Div => Row::Compute(Arithmetic::Divide, x, y),
    }
}

/// The equations of a table, and how many rows it has.
#[derive(Clone, Copy)]
struct Layout<'a> {
    equations: &'a [Equation],
    count: usize,
    ghost few_equations: { length equations.now ≤ 64 },
    ghost few_rows: { count ≤ 64 },
}

impl<'a> Layout<'a> {
    /// The row of an operand.
    fn operand_row(self, operand: Operand) -> u8
        ensures { result ≡ operand_row self.entry.equations.now self.entry.count operand }
    {
        match operand {
            Operand::Name(name, _) => find(self.equations, name).unwrap_or(0) as u8,
            Operand::Row(number) => {
                let row = self.equations.len() + number as usize;
                if row < self.count { row as u8 } else { 0 }
            }
        }
    }

    /// The row of a node.
    fn node_row(self, node: Node) -> Row
        ensures { result ≡ node_row self.entry.equations.now self.entry.count node }
    {
        match node {
            Node::Name(name, place) => Row::Same(self.operand_row(Operand::Name(name, place))),
            Node::Channel(channel) => Row::Channel(channel),
            Node::Literal(value) => Row::Literal(value),
            Node::Truth(truth) => Row::Truth(truth),
            Node::Prefix(op, a) => prefix_row(op, self.operand_row(a)),
            Node::Infix(op, a, b) => infix_row(op, self.operand_row(a), self.operand_row(b)),
            Node::Choice(a, b, c) => Row::If(
                self.operand_row(a),
                self.operand_row(b),
                self.operand_row(c),
            ),
        }
    }
}

/// The nodes of all rows: the equations' own, and then the operands'; what is past them is no row.
// Here and below an array with its count beside it, and no `ArrayVec`: a default node and a default row, which it asks
// for, would have to be written by hand, for places that nothing reads.
pub(crate) fn nodes_of(equations: &[Equation], operands: &[Node]) -> [Node; ROWS]
    requires { length equations.now + length operands.now ≤ 64 }
    ensures { take (length equations.now + length operands.now) result ≡ nodes_of equations.now operands.now }
{
    let mut nodes = [Node::Literal(0); ROWS];
    for (k, equation) in equations.iter().enumerate() {
        nodes[k] = equation.node;
    }
    nodes[equations.len()..equations.len() + operands.len()].copy_from_slice(operands);
    nodes
}

/// The rows of the nodes; what is past them is no row.
pub(crate) fn table_rows(equations: &[Equation], nodes: &[Node]) -> [Row; ROWS]
    requires equations { length equations.now ≤ 64 }
    requires nodes { length nodes.now ≤ 64 }
    ensures { take (length nodes.now) result ≡ table_rows equations.now nodes.now }
{
    let layout = Layout {
        equations,
        count: nodes.len(),
    };
    let mut rows = [Row::Literal(0); ROWS];
    for (k, node) in nodes.iter().enumerate() {
        rows[k] = layout.node_row(*node);
    }
    rows
}
