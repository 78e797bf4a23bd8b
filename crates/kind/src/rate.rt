//! Rates: finite IEEE 754 binary64 numbers.

ghost use Rattle.std.specs.Prelude.{◌≡◌, from_bits};
ghost use Rattle.std.specs.Float.{float_is_finite, binary64};
ghost use Rattle.kind.specs.Rates.{finites, packed};
ghost use Rattle.kind.specs.Ordered.{floats_ordered};

use crate::finite::Finite;
use crate::numbers::{Number, capped};
use crate::values::Value;
use reading::{Arithmetic, KindFault};
use std::num::f64_from_bits_with_nan;

/// A rate, a finite binary64 number that is kept by its bits, or a truth value. Arithmetic and order work on a
/// `Value<f64>`.
pub type Rate = Value<Finite>;

/// The rate that a binary64 number is.
impl TryFrom<f64> for Finite {
    type Error = KindFault;

    ghost try_from_gives = { λ x r. r ≡ packed x };

    fn try_from(x: f64) -> Result<Finite, KindFault> {
        if x.is_finite() {
            Ok(Finite { bits: x.to_bits() })
        } else {
            Err(KindFault::OutOfRange)
        }
    }
}

/// Whether the bits are those of a finite number.
fn is_finite(bits: u64) -> bool
    ensures { result ≡ float_is_finite (from_bits binary64 bits) }
{
    f64_from_bits_with_nan(bits).is_finite()
}

impl Number for Finite {
    type Operand = f64;

    ghost numbers = { finites };

    ghost ordered = { floats_ordered };

    fn literal(n: u32) -> Finite {
        Finite {
            bits: (capped(n) as f64).to_bits(),
        }
    }

    fn operand(self) -> f64 {
        f64::from_bits(self.bits)
    }

    fn negate(x: f64) -> Result<Finite, KindFault> {
        Finite::try_from(-x)
    }

    // Here and for whole numbers by itself: in one for both, the four operators would each need a trait with its law.
    fn compute(op: Arithmetic, left: f64, right: f64) -> Result<Finite, KindFault> {
        match op {
            Arithmetic::Add => Finite::try_from(left + right),
            Arithmetic::Subtract => Finite::try_from(left - right),
            Arithmetic::Multiply => Finite::try_from(left * right),
            Arithmetic::Divide if right == 0.0 => Err(KindFault::ZeroDivisor),
            Arithmetic::Divide => Finite::try_from(left / right),
        }
    }

    fn word(bytes: [u8; 8]) -> Option<Finite> {
        let bits = u64::from_be_bytes(bytes);
        if is_finite(bits) {
            Some(Finite { bits })
        } else {
            None
        }
    }
}
