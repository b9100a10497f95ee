ghost use Rattle.booking.specs.Refusals.{told};
ghost use Rattle.std.specs.Prelude.{◌≡◌};

use super::Refusal;

// The numbers are how refusals are known outside the program, and a number alone would lose the step: so they are no `as u8`, and both
// are told as a pair of plain values.
impl Refusal {
    /// The number by which the refusal is known, and on the walk the step.
    pub fn told(&self) -> (u8, Option<u8>)
        ensures { result ≡ told self.now }
    {
        match *self {
            Refusal::OutsideStore(_) => (1, None),
            Refusal::WrongCount => (2, None),
            Refusal::UnknownName => (3, None),
            Refusal::TooDeep => (4, None),
            Refusal::Unlabelled(step) => (5, Some(step)),
            Refusal::WrongSort(step) => (6, Some(step)),
            Refusal::OutOfBounds(step) => (7, Some(step)),
            Refusal::WrongType => (8, None),
            Refusal::BadField => (9, None),
            Refusal::BadLength => (10, None),
            Refusal::NoRoom => (11, None),
            Refusal::Inconsistent => (12, None),
        }
    }

    /// The number alone.
    pub fn number(&self) -> u8
        ensures { result ≡ (told self.now).0 }
    {
        self.told().0
    }

    /// The step alone, on the walk.
    pub fn step(&self) -> Option<u8>
        ensures { result ≡ (told self.now).1 }
    {
        self.told().1
    }
}
