//! What a row reads, from the readings of its operands.

ghost use Rattle.std.specs.Prelude.{◌≡◌};
ghost use Rattle.theory.specs.Rule.{is, born};
ghost use Rattle.turns.specs.Reads.{Answers, decided, told};

use kind::Kind;
use reading::{Fault, FaultNumber, Reading, Row};

/// Whether a reading is the truth value `b`.
pub(crate) fn is<V: Kind>(b: bool, reading: &Reading<V>) -> bool
    ensures { result ≡ is V.Kind.meaning b reading.now }
{
    (*reading).is_ok_and(|v| v.told() == Some(b))
}

/// A fault that is born in a row at a tick.
// Row and tick go apart, here and in the loop: a struct of the two would hold no fact, and be made at each call.
pub(crate) fn fault<V>(number: FaultNumber, row: u8, tick: u32) -> Reading<V>
    ensures { result ≡ born number row tick }
{
    Err(Fault { number, row, tick })
}

/// What the kind or the source answers, in a row at a tick.
pub(crate) fn answered<V, F: Into<FaultNumber>>(
    answer: Result<V, F>,
    row: u8,
    tick: u32,
) -> Reading<V>
    ensures { Answers F.Into.converts answer row tick result }
{
    answer.map_err(|f| Fault {
        number: f.into(),
        row,
        tick,
    })
}

/// The truth value that a value is, in a row at a tick.
fn truth<V: Kind>(value: V, row: u8, tick: u32) -> Result<bool, Fault>
    ensures { result ≡ told V.Kind.meaning value row tick }
{
    let number = FaultNumber::WrongKind;
    value.told().ok_or(Fault { number, row, tick })
}

/// What row `r` reads at tick `t` from the readings of its operands.
pub fn decide<V: Kind>(
    row: Row,
    r: u8,
    t: u32,
    a: &Reading<V>,
    b: &Reading<V>,
    c: &Reading<V>,
) -> Reading<V>
    ensures { result ≡ decided V.Kind.meaning row r t a.now b.now c.now }
{
    match (row, a, b) {
        (Row::Literal(n), _, _) => Ok(V::literal(n)),
        (Row::Truth(w), _, _) => Ok(V::truth(w)),
        (Row::Channel(_) | Row::Same(_) | Row::First(_) | Row::Next(_), _, _) => *a,
        (Row::Fby(_, _) | Row::Asa(_, _), _, _) => *a,
        (Row::And(_, _), _, _) if is(false, a) || is(false, b) => Ok(V::truth(false)),
        (Row::Or(_, _), _, _) if is(true, a) || is(true, b) => Ok(V::truth(true)),
        (_, Err(f), _) => Err(*f),
        (Row::Not(_), Ok(v), _) => Ok(V::truth(!truth(*v, r, t)?)),
        (Row::If(_, _, _), Ok(v), _) => if truth(*v, r, t)? { *b } else { *c },
        (Row::Negate(_), Ok(v), _) => answered((*v).negate(), r, t),
        (_, _, Err(f)) => Err(*f),
        (Row::And(_, _), _, _) if is(true, a) && is(true, b) => Ok(V::truth(true)),
        (Row::Or(_, _), _, _) if is(false, a) && is(false, b) => Ok(V::truth(false)),
        (Row::And(_, _) | Row::Or(_, _), _, _) => fault(FaultNumber::WrongKind, r, t),
        (Row::Compute(op, _, _), Ok(v), Ok(w)) => answered(V::compute(op, *v, *w), r, t),
        (Row::Relate(op, _, _), Ok(v), Ok(w)) => answered(V::relate(op, *v, *w), r, t),
    }
}
