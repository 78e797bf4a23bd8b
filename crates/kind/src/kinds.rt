//! What the engine asks of a kind of values.

ghost use Rattle.std.specs.Prelude.{◌≡◌};
ghost use Rattle.kind.specs.Kinds.{Meaning};

use reading::{Arithmetic, KindFault, Relation};

/// A kind of values. `meaning` says what every operation answers, and each method answers that.
pub trait Kind: Copy {
    ghost meaning: { Meaning Self };

    fn literal(n: u32) -> Self
        ensures { result ≡ meaning.literal n };

    fn truth(b: bool) -> Self
        ensures { result ≡ meaning.truth b };

    /// Which truth value this is, if it is one.
    fn told(self) -> Option<bool>
        ensures { result ≡ meaning.told self };

    fn negate(self) -> Result<Self, KindFault>
        ensures { result ≡ meaning.negated self };

    fn compute(op: Arithmetic, left: Self, right: Self) -> Result<Self, KindFault>
        ensures { result ≡ meaning.computed op left right };

    fn relate(relation: Relation, left: Self, right: Self) -> Result<Self, KindFault>
        ensures { result ≡ meaning.related relation left right };

    /// The value that eight bytes stand for.
    fn word(bytes: [u8; 8]) -> Option<Self>
        ensures { result ≡ meaning.word bytes };
}
