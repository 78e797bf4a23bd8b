//! Why a text is refused.

ghost use Rattle.std.specs.Prelude.{◌≡◌};
ghost use Rattle.load.specs.Refusals.{number, place, from_reading};

/// Why a text is refused, with the place; the place of a ring is 0.
#[derive(Clone, Copy)]
pub enum Refusal {
    /// The reader refuses it.
    Reading(syntax::Refusal),
    /// The equation is one too many, or in it a row is.
    TooMany(usize),
    /// The name is defined already, or is a channel.
    Taken(usize),
    NoResult(usize),
    Undefined(usize),
    /// Some ring is not negative.
    Ring,
}

impl Refusal {
    /// The number that the refusal is told by.
    // By a match, here and in the place: a case that holds a place has no number of its own to cast.
    pub fn number(self) -> u8
        ensures { result ≡ number self }
    {
        match self {
            Refusal::Reading(refusal) => refusal.number(),
            Refusal::TooMany(_) => 5,
            Refusal::Taken(_) => 6,
            Refusal::NoResult(_) => 7,
            Refusal::Undefined(_) => 8,
            Refusal::Ring => 9,
        }
    }

    /// The byte of the text that it is about.
    pub fn place(self) -> usize
        ensures { result ≡ place self }
    {
        match self {
            Refusal::Reading(refusal) => refusal.place(),
            Refusal::TooMany(place)
            | Refusal::Taken(place)
            | Refusal::NoResult(place)
            | Refusal::Undefined(place) => place,
            Refusal::Ring => 0,
        }
    }
}

impl From<syntax::Refusal> for Refusal {
    ghost from_gives = { λ r e. e ≡ from_reading r };

    fn from(refusal: syntax::Refusal) -> Refusal {
        Refusal::Reading(refusal)
    }
}
