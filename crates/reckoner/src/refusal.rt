use std::fmt;

/// Why a booking is turned away; on the walk, at which step.
#[derive(Clone, Copy, Debug, PartialEq, Eq)]
pub enum Refusal {
    TooFewWords,
    NoSuchName,
    TooManySubscripts,
    NothingThere(u8),
    OtherSort(u8),
    Outside(u8),
    OtherType,
    BadField,
    BadLength,
    NoRoom,
}

impl Refusal {
    ghost use Rattle.reckoner.specs.Refusals.{number_of, step_of};
    ghost use Rattle.std.specs.Prelude.{◌≡◌};

    /// The number by which it is told.
    pub fn number(self) -> u8
        ensures { result ≡ number_of self }
    {
        match self {
            Refusal::TooFewWords => 2,
            Refusal::NoSuchName => 3,
            Refusal::TooManySubscripts => 4,
            Refusal::NothingThere(_) => 5,
            Refusal::OtherSort(_) => 6,
            Refusal::Outside(_) => 7,
            Refusal::OtherType => 8,
            Refusal::BadField => 9,
            Refusal::BadLength => 10,
            Refusal::NoRoom => 11,
        }
    }

    /// The step of the walk at which it comes, if it comes there.
    pub fn step(self) -> Option<u8>
        ensures { result ≡ step_of self }
    {
        match self {
            Refusal::NothingThere(step) | Refusal::OtherSort(step) | Refusal::Outside(step) => {
                Some(step)
            }
            _ => None,
        }
    }
}

impl fmt::Display for Refusal {
    fn fmt<W: fmt::Write>(&self, f: &mut fmt::Formatter<W>) -> fmt::Result {
        let number = self.number();
        match self.step() {
            Some(step) => write!(f, "refused {number} step {step}"),
            None => write!(f, "refused {number}"),
        }
    }
}
