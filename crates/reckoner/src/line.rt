// Lines of a list of bookings.
use crate::booking::{Booking, Shape, Trace};
use std::alloc::{AllocError, Global};
use std::fmt;
use std::num::ParseIntError;

/// One line.
#[derive(Debug, Drop)]
pub enum Line {
    Count(u64),
    Tidy,
    Book(Trace, Booking),
}

/// Why a line cannot be read.
#[derive(Debug, Drop)]
pub enum Fault {
    NoCount,
    SecondCount,
    Unknown,
    Number,
    Sort,
    NoMemory(AllocError),
}

impl fmt::Display for Fault {
    fn fmt<W: fmt::Write>(&self, f: &mut fmt::Formatter<W>) -> fmt::Result {
        match self {
            Fault::NoCount => write!(f, "the first line counts the words, as in: count 75"),
            Fault::SecondCount => write!(f, "only the first line counts the words"),
            Fault::Unknown => write!(f, "there is no such booking with so many fields"),
            Fault::Number => write!(f, "a field is no number, or none that fits"),
            Fault::Sort => write!(f, "an array is of data or of codes"),
            Fault::NoMemory(error) => write!(f, "{error}"),
        }
    }
}

impl From<AllocError> for Fault {
    fn from(error: AllocError) -> Fault {
        Fault::NoMemory(error)
    }
}

impl From<ParseIntError> for Fault {
    fn from(_error: ParseIntError) -> Fault {
        Fault::Number
    }
}

impl Line {
    /// Reads a line, whose fields are separated by single spaces. Of several faults the first counts, after that of its form.
    pub(crate) fn read(alloc: Global, line: &str) -> Result<Line, Fault> {
        let fields: Vec<&str> = line.split(' ').collect(alloc)?;
        match *fields.as_slice() {
            ["count", count] => Ok(Line::Count(count.parse()?)),
            ["tidy"] => Ok(Line::Tidy),
            ["take", trace, n, base, sort, kind] => {
                let trace = read_trace(alloc, trace)?;
                let shape = Shape {
                    n: n.parse()?,
                    base: base.parse()?,
                    codes: read_sort(sort)?,
                    kind: kind.parse()?,
                };
                Ok(Line::Book(trace, Booking::Take(shape)))
            }
            ["free", trace] => Ok(Line::Book(read_trace(alloc, trace)?, Booking::Free)),
            ["span", trace] => Ok(Line::Book(read_trace(alloc, trace)?, Booking::Span)),
            ["rebase", trace, base] => {
                let trace = read_trace(alloc, trace)?;
                Ok(Line::Book(trace, Booking::Rebase(base.parse()?)))
            }
            _ => read_elements(alloc, &fields),
        }
    }
}

// A booking of elements.
fn read_elements(alloc: Global, fields: &[&str]) -> Result<Line, Fault> {
    match *fields {
        ["read", trace, kind, at] => {
            let trace = read_trace(alloc, trace)?;
            let kind = kind.parse()?;
            let at = at.parse()?;
            Ok(Line::Book(trace, Booking::Read { kind, at }))
        }
        ["row", trace, kind, at, n] => {
            let trace = read_trace(alloc, trace)?;
            let kind = kind.parse()?;
            let at = at.parse()?;
            let n = n.parse()?;
            Ok(Line::Book(trace, Booking::Row { kind, at, n }))
        }
        ["write", trace, kind, at, word] => {
            let trace = read_trace(alloc, trace)?;
            let kind = kind.parse()?;
            let at = at.parse()?;
            let word = word.parse()?;
            Ok(Line::Book(trace, Booking::Write { kind, at, word }))
        }
        ["rewrite", trace, kind, at, ref words @ ..] => {
            let trace = read_trace(alloc, trace)?;
            let kind = kind.parse()?;
            let at = at.parse()?;
            let words = read_words(alloc, words)?;
            Ok(Line::Book(trace, Booking::Rewrite { kind, at, words }))
        }
        _ => read_moves(alloc, fields),
    }
}

// A booking by which elements come, go, or change places.
fn read_moves(alloc: Global, fields: &[&str]) -> Result<Line, Fault> {
    match *fields {
        ["insert", trace, at, n] => {
            let trace = read_trace(alloc, trace)?;
            let at = at.parse()?;
            let n = n.parse()?;
            Ok(Line::Book(trace, Booking::Insert { at, n }))
        }
        ["delete", trace, at, n] => {
            let trace = read_trace(alloc, trace)?;
            let at = at.parse()?;
            let n = n.parse()?;
            Ok(Line::Book(trace, Booking::Delete { at, n }))
        }
        ["exchange", trace, one, other] => {
            let trace = read_trace(alloc, trace)?;
            let one = one.parse()?;
            Ok(Line::Book(trace, Booking::Exchange(one, other.parse()?)))
        }
        _ => Err(Fault::Unknown),
    }
}

// A name, and behind it each subscript after a dot.
fn read_trace(alloc: Global, text: &str) -> Result<Trace, Fault> {
    let mut parts = text.split('.');
    let name = parts.next().unwrap_or("").parse()?;
    let mut subscripts = Vec::new(alloc);
    for part in parts {
        subscripts.push(part.parse()?).map_err(AllocError::from)?;
    }
    Ok(Trace { name, subscripts })
}

// The sort of an array: whether it is of codes.
fn read_sort(text: &str) -> Result<bool, Fault> {
    match text {
        "data" => Ok(false),
        "codes" => Ok(true),
        _ => Err(Fault::Sort),
    }
}

// Words, one after another.
fn read_words(alloc: Global, fields: &[&str]) -> Result<Vec<u64>, Fault> {
    let mut words = Vec::new(alloc);
    for field in fields {
        words.push(field.parse()?).map_err(AllocError::from)?;
    }
    Ok(words)
}
