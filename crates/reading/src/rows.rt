//! The rows of a table of equations.

#[derive(Clone, Copy)]
pub enum Arithmetic {
    Add,
    Subtract,
    Multiply,
    Divide,
}

#[derive(Clone, Copy)]
pub enum Relation {
    Equal,
    Unequal,
    Less,
    AtMost,
    Greater,
    AtLeast,
}

/// A row: an operator with the rows of its operands.
#[derive(Clone, Copy)]
pub enum Row {
    Literal(u32),
    Truth(bool),
    Channel(u8),
    /// An equation that is a bare name reads that name's row.
    Same(u8),
    First(u8),
    Next(u8),
    Fby(u8, u8),
    Asa(u8, u8),
    If(u8, u8, u8),
    And(u8, u8),
    Or(u8, u8),
    Not(u8),
    Negate(u8),
    Compute(Arithmetic, u8, u8),
    Relate(Relation, u8, u8),
}
