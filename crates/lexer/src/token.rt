//! What a text is made of.

/// A name, its letters small, filled up with zeros.
// No `String`: reading a text asks for no memory, and a name is copied.
#[derive(Clone, Copy, PartialEq)]
pub struct Name {
    pub bytes: [u8; 16],
}

/// What stands by itself as an expression.
#[derive(Clone, Copy)]
pub enum Atom {
    Name(Name),
    Channel(u8),
    Literal(u32),
    Truth(bool),
}

/// The operators between two operands.
#[derive(Clone, Copy)]
pub enum Infix {
    Fby,
    Asa,
    Or,
    And,
    Eq,
    Ne,
    Lt,
    Le,
    Gt,
    Ge,
    Add,
    Sub,
    Mul,
    Div,
}

/// The operators before one operand.
#[derive(Clone, Copy)]
pub enum Prefix {
    Negate,
    First,
    Next,
    Not,
}

/// The words and signs that build a text and stand for no operator of their own.
#[derive(Clone, Copy, PartialEq, Eq)]
pub enum Mark {
    Compute,
    Output,
    Where,
    End,
    If,
    Then,
    Else,
    Open,
    Close,
    Equals,
    Semicolon,
}

/// A word. The minus sign is `Infix(Sub)`, before an operand too.
#[derive(Clone, Copy)]
pub enum Token {
    Atom(Atom),
    Infix(Infix),
    First,
    Next,
    Not,
    Mark(Mark),
}
