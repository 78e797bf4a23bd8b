//! Finite binary64 numbers by their bits.

ghost use Rattle.std.specs.Prelude.{T, from_bits};
ghost use Rattle.std.specs.Float.{float_is_finite, binary64};

/// The bits of a finite binary64 number.
#[derive(Clone, Copy)]
pub struct Finite {
    pub bits: u64,
    ghost number: { T (float_is_finite (from_bits binary64 bits)) },
}
