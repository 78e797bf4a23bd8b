//! A reading is what a row has at a tick: a value, or a fault that says what went wrong, and where.

ghost use Rattle.std.specs.Prelude.{◌≡◌};
ghost use Rattle.reading.specs.Faults.{number_of, of_kind, of_source};

/// What went wrong, by the number that is printed.
#[derive(Clone, Copy)]
pub enum FaultNumber {
    /// An `asa` never met its condition below the horizon.
    Unreached = 1,
    /// The source has no such channel or tick.
    Ended = 2,
    /// The source has nothing at this tick.
    Gap = 3,
    /// A truth value where a number is due, or the other way round.
    WrongKind = 4,
    ZeroDivisor = 5,
    /// A result or a word that is no value of the kind.
    OutOfRange = 6,
}

impl FaultNumber {
    /// The number by which the fault is known.
    pub fn number(self) -> u8
        ensures { result ≡ number_of self }
    {
        self as u8
    }
}

/// What a value kind may answer in place of a value.
#[derive(Clone, Copy)]
pub enum KindFault {
    WrongKind,
    ZeroDivisor,
    OutOfRange,
}

// By a match of its own, here and for a source's faults: the two enums have other cases.
impl From<KindFault> for FaultNumber {
    ghost from_gives = { λ f r. r ≡ of_kind f };

    fn from(fault: KindFault) -> FaultNumber {
        match fault {
            KindFault::WrongKind => FaultNumber::WrongKind,
            KindFault::ZeroDivisor => FaultNumber::ZeroDivisor,
            KindFault::OutOfRange => FaultNumber::OutOfRange,
        }
    }
}

/// What a source may say in place of a value.
#[derive(Clone, Copy)]
pub enum SourceFault {
    Ended,
    Gap,
    OutOfRange,
}

impl From<SourceFault> for FaultNumber {
    ghost from_gives = { λ f r. r ≡ of_source f };

    fn from(fault: SourceFault) -> FaultNumber {
        match fault {
            SourceFault::Ended => FaultNumber::Ended,
            SourceFault::Gap => FaultNumber::Gap,
            SourceFault::OutOfRange => FaultNumber::OutOfRange,
        }
    }
}

/// A fault, with the row and the tick of its birth.
#[derive(Clone, Copy)]
pub struct Fault {
    pub number: FaultNumber,
    pub row: u8,
    pub tick: u32,
}

/// What a row reads at a tick: a value of any kind, or a fault. So `?` passes a fault on, with its birthplace.
pub type Reading<V> = Result<V, Fault>;
