//! Whole numbers within their limit.

ghost use Rattle.std.specs.Prelude.{◌≤◌, unsigned_abs};

/// A whole number within 2147483647 of 0.
#[derive(Clone, Copy, PartialEq, PartialOrd)]
pub struct Integer {
    pub value: i32,
    ghost within: { unsigned_abs value ≤ 2147483647 },
}
