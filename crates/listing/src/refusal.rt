//! Why there is no list.

ghost use Rattle.std.specs.Prelude.{◌≡◌};
ghost use Rattle.format.specs.Shown.{refused_text};
ghost use Rattle.listing.specs.declared.refusal.Refusal.TheVariants as Refusals;
ghost use Rattle.listing.specs.Refusals.{number_of, place_of, refused};

use format::{Refused, Shown};
use source::RecordingError;
use text::Text;

/// A refusal of the text, of the recording or of the run.
#[derive(Clone, Copy, Drop)]
pub enum Refusal {
    Text(load::Refusal),
    Recording(RecordingError),
    Run(engine::Refusal),
}

impl Refusal {
    /// The number by which the refusal is known.
    pub fn number(self) -> u8
        ensures { result ≡ number_of self }
    {
        match self {
            Refusal::Text(refusal) => refusal.number(),
            Refusal::Recording(error) => error.number(),
            Refusal::Run(refusal) => refusal.number(),
        }
    }

    /// The byte that the refusal is about, and 0 for a call of the run.
    pub fn place(self) -> usize
        ensures { result ≡ place_of self }
    {
        match self {
            Refusal::Text(refusal) => refusal.place(),
            Refusal::Recording(error) => error.place(),
            Refusal::Run(_) => 0,
        }
    }

    /// The refusal as it is printed.
    pub fn line(self) -> Refused
        ensures { result ≡ refused self }
    {
        Refused {
            number: self.number(),
            place: self.place(),
        }
    }
}

impl Shown for Refusal {
    ghost text = { λ r. refused_text (refused r) };

    fn push_to(&self, out: &mut Text) {
        self.line().push_to(out);
    }
}

// These three by hand and not by a derive: contracts name what `?` makes of an error.
impl From<load::Refusal> for Refusal {
    ghost from_gives = { λ e r. r ≡ Refusals.Text e };

    fn from(refusal: load::Refusal) -> Refusal {
        Refusal::Text(refusal)
    }
}

impl From<RecordingError> for Refusal {
    ghost from_gives = { λ e r. r ≡ Refusals.Recording e };

    fn from(error: RecordingError) -> Refusal {
        Refusal::Recording(error)
    }
}

impl From<engine::Refusal> for Refusal {
    ghost from_gives = { λ e r. r ≡ Refusals.Run e };

    fn from(refusal: engine::Refusal) -> Refusal {
        Refusal::Run(refusal)
    }
}
