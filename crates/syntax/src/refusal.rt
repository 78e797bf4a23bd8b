//! Why a text is refused while it is read.

ghost use Rattle.std.specs.Prelude.{◌≡◌};
ghost use Rattle.syntax.specs.Judgement.{number, place};

/// Why a text is refused, and the place; the place of a text that is too long is 0.
#[derive(Clone, Copy)]
pub enum Refusal {
    TooLong,
    NoWord(usize),
    Unexpected(usize),
    TooDeep(usize),
}

impl Refusal {
    /// The number that the refusal is told by.
    // By a match, here and in the place: a case that holds a place has no number of its own to cast.
    pub fn number(self) -> u8
        ensures { result ≡ number self }
    {
        match self {
            Refusal::TooLong => 1,
            Refusal::NoWord(_) => 2,
            Refusal::Unexpected(_) => 3,
            Refusal::TooDeep(_) => 4,
        }
    }

    /// The byte of the text that it is about.
    pub fn place(self) -> usize
        ensures { result ≡ place self }
    {
        match self {
            Refusal::TooLong => 0,
            Refusal::NoWord(place) | Refusal::Unexpected(place) | Refusal::TooDeep(place) => place,
        }
    }
}
