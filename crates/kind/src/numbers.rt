//! What a kind of values asks of its numbers.

ghost use Rattle.std.specs.Prelude.{◌≡◌, min};
ghost use Rattle.reading.specs.declared.rows.Relation as Relations;
ghost use Rattle.kind.specs.Numbers.{Numbers, compared};

use reading::{Arithmetic, KindFault, Relation};

/// The numbers of a kind, as they are kept. `numbers` says what every operation answers, each method answers that, and
/// `==` and `<` of the operands are the relations that it says hold.
pub trait Number: Copy {
    /// A number as arithmetic and order take it.
    type Operand: Copy + PartialOrd;

    ghost numbers: { Numbers Self Self.Operand };

    fn literal(n: u32) -> Self
        ensures { result ≡ numbers.literal n };

    fn operand(self) -> Self::Operand
        ensures { result ≡ numbers.operand self };

    fn negate(x: Self::Operand) -> Result<Self, KindFault>
        ensures { result ≡ numbers.negated x };

    fn compute(op: Arithmetic, left: Self::Operand, right: Self::Operand) -> Result<Self, KindFault>
        ensures { result ≡ numbers.computed op left right };

    /// The number that eight bytes stand for.
    fn word(bytes: [u8; 8]) -> Option<Self>
        ensures { result ≡ numbers.word bytes };

    ghost ordered: { (relation : Relations.Relation) (a b : Self.Operand) → compared Self.Operand.eq Self.Operand.partial_cmp relation a b ≡ numbers.holds relation a b };
}

/// The greatest literal of a text.
const GREATEST: u32 = 2147483647;

/// A literal, kept to the greatest that a text can have.
pub(crate) fn capped(n: u32) -> u32
    ensures { result ≡ min n 2147483647 }
{
    n.min(GREATEST)
}

/// Whether a relation holds of two numbers.
pub(crate) fn hold<T: PartialOrd + Copy>(relation: Relation, a: T, b: T) -> bool
    ensures { result ≡ compared T.eq T.partial_cmp relation a b }
{
    match relation {
        Relation::Equal => a == b,
        Relation::Unequal => a != b,
        Relation::Less => a < b,
        Relation::AtMost => a <= b,
        Relation::Greater => a > b,
        Relation::AtLeast => a >= b,
    }
}
