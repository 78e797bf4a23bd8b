//! Values: the numbers of a kind, and the truth values.

ghost use Rattle.std.specs.Prelude.{◌≡◌};
ghost use Rattle.kind.specs.Values.{alike, operand, values};

use crate::kinds::Kind;
use crate::numbers::{Number, hold};
use reading::{Arithmetic, KindFault, Relation};

/// A number or a truth value.
#[derive(Clone, Copy)]
pub enum Value<N> {
    Number(N),
    Truth(bool),
}

/// Of two truth values it can only be said whether they are the same.
fn match_truths(relation: Relation, p: bool, q: bool) -> Result<bool, KindFault>
    ensures { result ≡ alike relation p q }
{
    match relation {
        Relation::Equal => Ok(p == q),
        Relation::Unequal => Ok(p != q),
        _ => Err(KindFault::WrongKind),
    }
}

impl<N: Number> Value<N> {
    /// The value as arithmetic and order take it.
    fn operand(self) -> Value<N::Operand>
        ensures { result ≡ operand N.numbers self }
    {
        match self {
            Value::Number(n) => Value::Number(n.operand()),
            Value::Truth(truth) => Value::Truth(truth),
        }
    }
}

impl<N: Number> Kind for Value<N> {
    ghost meaning = { values N.numbers };

    fn literal(n: u32) -> Value<N> {
        Value::Number(N::literal(n))
    }

    fn truth(b: bool) -> Value<N> {
        Value::Truth(b)
    }

    fn told(self) -> Option<bool> {
        match self {
            Value::Number(_) => None,
            Value::Truth(told) => Some(told),
        }
    }

    fn negate(self) -> Result<Value<N>, KindFault> {
        match self.operand() {
            Value::Number(x) => Ok(Value::Number(N::negate(x)?)),
            Value::Truth(_) => Err(KindFault::WrongKind),
        }
    }

    fn compute(op: Arithmetic, left: Value<N>, right: Value<N>) -> Result<Value<N>, KindFault> {
        match (left.operand(), right.operand()) {
            (Value::Number(a), Value::Number(b)) => Ok(Value::Number(N::compute(op, a, b)?)),
            _ => Err(KindFault::WrongKind),
        }
    }

    fn relate(relation: Relation, left: Value<N>, right: Value<N>) -> Result<Value<N>, KindFault> {
        match (left.operand(), right.operand()) {
            (Value::Number(a), Value::Number(b)) => Ok(Value::Truth(hold(relation, a, b))),
            (Value::Truth(p), Value::Truth(q)) => Ok(Value::Truth(match_truths(relation, p, q)?)),
            _ => Err(KindFault::WrongKind),
        }
    }

    fn word(bytes: [u8; 8]) -> Option<Value<N>> {
        Some(Value::Number(N::word(bytes)?))
    }
}
