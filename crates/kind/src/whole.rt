//! Whole numbers, computed over the integers.

ghost use Rattle.std.specs.Prelude.{◌≡◌};
ghost use Rattle.kind.specs.Wholes.{integers, fitted};
ghost use Rattle.kind.specs.Ordered.{integers_ordered};

use crate::integer::Integer;
use crate::numbers::{Number, capped};
use crate::values::Value;
use reading::{Arithmetic, KindFault};

/// How far from 0 a whole number may lie.
const LIMIT: u64 = 2147483647;

/// A whole number or a truth value.
pub type Whole = Value<Integer>;

/// The whole number of the kind that an integer is.
impl TryFrom<i64> for Integer {
    type Error = KindFault;

    ghost try_from_gives = { λ z r. r ≡ fitted z };

    fn try_from(n: i64) -> Result<Integer, KindFault> {
        if n.unsigned_abs() <= LIMIT {
            Ok(Integer { value: n as i32 })
        } else {
            Err(KindFault::OutOfRange)
        }
    }
}

impl Number for Integer {
    type Operand = Integer;

    ghost numbers = { integers };

    ghost ordered = { integers_ordered };

    fn literal(n: u32) -> Integer {
        Integer {
            value: capped(n) as i32,
        }
    }

    fn operand(self) -> Integer {
        self
    }

    fn negate(n: Integer) -> Result<Integer, KindFault> {
        Integer::try_from(-i64::from(n.value))
    }

    fn compute(op: Arithmetic, left: Integer, right: Integer) -> Result<Integer, KindFault> {
        let a = i64::from(left.value);
        let b = i64::from(right.value);
        match op {
            Arithmetic::Add => Integer::try_from(a + b),
            Arithmetic::Subtract => Integer::try_from(a - b),
            Arithmetic::Multiply => Integer::try_from(a * b),
            Arithmetic::Divide if b == 0 => Err(KindFault::ZeroDivisor),
            // Of the kept numbers and not of a and b: a division of 64 bits takes longer.
            Arithmetic::Divide => Integer::try_from(i64::from(left.value / right.value)),
        }
    }

    fn word(bytes: [u8; 8]) -> Option<Integer> {
        Integer::try_from(i64::from_be_bytes(bytes)).ok()
    }
}
