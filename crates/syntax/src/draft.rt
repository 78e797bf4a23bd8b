//! The unchecked table: what a text says, row by row, with its names not yet looked up.

ghost use Rattle.std.specs.Prelude.{◌≡◌, ◌≤◌, length, take};
ghost use Rattle.syntax.specs.Drafts.{empty, node_of, placed, with_row, defined, equation_limit};

use lexer::{Atom, Infix, Name, Prefix};

/// The most equations of a text.
pub const EQUATIONS: usize = 32;

/// The most operand rows that are kept.
pub const OPERANDS: usize = 64;

/// What an operator reads: a name with the place of its use, or the operand row of that number.
#[derive(Clone, Copy)]
pub enum Operand {
    Name(Name, usize),
    Row(u8),
}

/// What an expression is at its outermost operator. A name has the place of its use.
#[derive(Clone, Copy)]
pub enum Node {
    Name(Name, usize),
    Channel(u8),
    Literal(u32),
    Truth(bool),
    Prefix(Prefix, Operand),
    Infix(Infix, Operand, Operand),
    Choice(Operand, Operand, Operand),
}

/// The node of a name, a channel, a literal or a truth word at a place.
pub(crate) fn node_of(atom: Atom, place: usize) -> Node
    ensures { result ≡ node_of atom place }
{
    match atom {
        Atom::Name(name) => Node::Name(name, place),
        Atom::Channel(channel) => Node::Channel(channel),
        Atom::Literal(value) => Node::Literal(value),
        Atom::Truth(truth) => Node::Truth(truth),
    }
}

/// An equation.
#[derive(Clone, Copy)]
pub struct Equation {
    /// The name or channel that it defines.
    pub head: Atom,
    /// The place of that.
    pub place: usize,
    pub node: Node,
    /// How many operand rows there are after it.
    pub rows: u8,
}

/// The equations in text order, and the operand rows in the order in which they arise.
// Arrays with their counts: a `Vec` would ask for memory, and this type is Copy, which an `ArrayVec` is not.
#[derive(Clone, Copy)]
pub struct Draft {
    /// The equations, of which the first `count` are filled.
    pub equations: [Equation; EQUATIONS],
    pub count: usize,
    /// The place of the first equation that there is no room for.
    pub excess: Option<usize>,
    /// The operand rows, of which the first `rows` are filled; those past the last are not counted.
    pub operands: [Node; OPERANDS],
    pub rows: u8,
    /// The place of the closing `end`.
    pub end: usize,
}

/// The draft of no equation.
pub(crate) fn empty() -> Draft
    ensures { result ≡ empty }
{
    let node = Node::Literal(0);
    let equation = Equation {
        head: Atom::Literal(0),
        place: 0,
        node,
        rows: 0,
    };
    Draft {
        equations: [equation; EQUATIONS],
        count: 0,
        excess: None,
        operands: [node; OPERANDS],
        rows: 0,
        end: 0,
    }
}

impl Draft {
    // Gives the node an operand row, if there is room for one.
    fn add(&mut self, node: Node)
        ensures { self.new ≡ with_row self.old node }
    {
        let row = self.rows as usize;
        if row < OPERANDS {
            self.operands[row] = node;
            self.rows += 1;
        }
    }

    /// The operand that a node becomes: a name itself, anything else a new row.
    pub(crate) fn place(&mut self, node: Node) -> Operand
        ensures operand { result ≡ (placed self.old node).0 }
        ensures draft { self.new ≡ (placed self.old node).1 }
    {
        match node {
            Node::Name(name, place) => Operand::Name(name, place),
            _ => {
                let row = self.rows;
                self.add(node);
                Operand::Row(row)
            }
        }
    }

    /// Fills the next equation's row.
    pub(crate) fn define(&mut self, head: Atom, place: usize, node: Node)
        ensures { self.new ≡ defined self.old head place node }
    {
        if self.count < EQUATIONS {
            self.equations[self.count] = Equation {
                head,
                place,
                node,
                rows: self.rows,
            };
            self.count += 1;
        } else {
            self.excess = self.excess.or(Some(place));
        }
    }

    /// The equations that are kept.
    pub fn kept(&self) -> &[Equation]
        ensures value { result.now ≡ take self.now.count self.now.equations }
        ensures few { length result.now ≤ equation_limit }
    {
        self.equations.get(..self.count).unwrap_or(&self.equations)
    }
}
