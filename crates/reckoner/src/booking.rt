// What is booked, where, and what is answered.
ghost use Rattle.std.specs.Prelude.{◌≡◌, ◌≤◌, ◌↔◌, IsOk, vec_len};

use crate::refusal::Refusal;
use std::alloc::AllocError;
use std::fmt;

/// How many names there are.
pub const NAMES: u64 = 64;

/// How many subscripts a trace may have.
const SUBSCRIPTS: usize = 3;

/// A name, and the subscripts that lead down from it.
#[derive(Debug, Drop)]
pub struct Trace {
    pub name: u64,
    pub subscripts: Vec<i32>,
}

impl Trace {
    /// No place has another name than 1 to 64, or a fourth subscript.
    pub fn check(&self) -> Result<(), Refusal>
        ensures { IsOk result ↔ ((1 ≤ self.now.name) × (self.now.name ≤ 64) × (vec_len self.now.subscripts ≤ 3)) }
    {
        if self.name == 0 || self.name > NAMES {
            return Err(Refusal::NoSuchName);
        }
        if self.subscripts.len() > SUBSCRIPTS {
            return Err(Refusal::TooManySubscripts);
        }
        Ok(())
    }
}

/// What is booked at a place. Numbers are as they were given: some of them no place can have.
#[derive(Debug, Drop)]
pub enum Booking {
    Take(Shape),
    Free,
    Read { kind: u64, at: i32 },
    Write { kind: u64, at: i32, word: u64 },
    Row { kind: u64, at: i32, n: u64 },
    Rewrite { kind: u64, at: i32, words: Vec<u64> },
    Span,
    Insert { at: i32, n: u64 },
    Delete { at: i32, n: u64 },
    Rebase(i64),
    Exchange(i32, i32),
}

/// An array that is asked for.
#[derive(Clone, Copy, Debug)]
pub struct Shape {
    pub n: u64,
    pub base: i64,
    pub codes: bool,
    pub kind: u64,
}

/// What a booking answers.
#[derive(Debug, Drop)]
pub enum Reply {
    Done,
    Word(u64),
    Words(Vec<u64>),
    Nothing,
    Extent {
        base: i16,
        n: u64,
        codes: bool,
        kind: u8,
    },
}

/// The words for the two sorts of arrays.
fn sort(codes: bool) -> &'static str {
    if codes { "codes" } else { "data" }
}

impl fmt::Display for Reply {
    fn fmt<W: fmt::Write>(&self, f: &mut fmt::Formatter<W>) -> fmt::Result {
        match self {
            Reply::Done => write!(f, "done"),
            Reply::Word(word) => write!(f, "word {word}"),
            Reply::Words(words) => {
                write!(f, "words")?;
                for word in words {
                    write!(f, " {word}")?;
                }
                Ok(())
            }
            Reply::Nothing => write!(f, "nothing"),
            Reply::Extent {
                base,
                n,
                codes,
                kind,
            } => write!(f, "extent {base} {n} {} {kind}", sort(*codes)),
        }
    }
}

/// Why no answer came at once: the booking is refused, or memory ran out.
#[derive(Debug, Drop)]
pub enum Failure {
    Refused(Refusal),
    NoMemory(AllocError),
}

impl From<Refusal> for Failure {
    ghost use Rattle.reckoner.specs.declared.booking.Failure.TheVariants.{Refused};

    ghost from_gives = { λ refusal failure. failure ≡ Refused refusal };

    fn from(refusal: Refusal) -> Failure {
        Failure::Refused(refusal)
    }
}

impl From<AllocError> for Failure {
    ghost use Rattle.reckoner.specs.declared.booking.Failure.TheVariants.{NoMemory};

    ghost from_gives = { λ error failure. failure ≡ NoMemory error };

    fn from(error: AllocError) -> Failure {
        Failure::NoMemory(error)
    }
}
