// Bookings in plain words. No clause says what is printed.
use crate::entry::{Booking, Deed, Entry};
use booking::Shape;
use std::fmt;

impl fmt::Display for Deed<'_> {
    fn fmt<W: fmt::Write>(&self, f: &mut fmt::Formatter<W>) -> fmt::Result {
        match *self {
            Deed::Take(shape) => take(shape, f),
            Deed::Free => write!(f, "free it"),
            Deed::Read { kind, subscript } => {
                write!(f, "read element {subscript} as type {kind}")
            }
            Deed::Write {
                kind,
                subscript,
                word,
            } => write!(
                f,
                "write the word {word:x} to element {subscript} as type {kind}"
            ),
            Deed::ReadRow {
                kind,
                subscript,
                length,
            } => row("read", length, subscript, kind, f),
            Deed::WriteRow {
                kind,
                subscript,
                words,
            } => row("write", words.len() as u64, subscript, kind, f),
            Deed::Span => write!(f, "ask for its extent"),
            Deed::Insert { subscript, n } => write!(f, "insert {n} before element {subscript}"),
            Deed::Delete { subscript, n } => write!(f, "delete {n} from element {subscript} on"),
            Deed::Rebase(base) => write!(f, "count its elements from {base} on"),
            Deed::Exchange(one, other) => write!(f, "exchange elements {one} and {other}"),
        }
    }
}

fn take<W: fmt::Write>(shape: Shape, f: &mut fmt::Formatter<W>) -> fmt::Result {
    let Shape {
        base,
        length,
        codes,
        kind,
    } = shape;
    if codes {
        write!(f, "take a table of {length} from {base} on")
    } else {
        write!(f, "take a row of {length} from {base} on, of type {kind}")
    }
}

fn row<W: fmt::Write>(
    verb: &str,
    length: u64,
    subscript: i32,
    kind: u64,
    f: &mut fmt::Formatter<W>,
) -> fmt::Result {
    write!(
        f,
        "{verb} {length} elements from {subscript} on as type {kind}"
    )
}

impl fmt::Display for Booking<'_> {
    fn fmt<W: fmt::Write>(&self, f: &mut fmt::Formatter<W>) -> fmt::Result {
        let name = self.trace.name();
        let deed = self.deed;
        write!(f, "name {name}")?;
        for subscript in self.trace.subscripts() {
            write!(f, ", element {subscript}")?;
        }
        write!(f, ": {deed}")
    }
}

impl fmt::Display for Entry<'_> {
    fn fmt<W: fmt::Write>(&self, f: &mut fmt::Formatter<W>) -> fmt::Result {
        match self {
            Entry::Book(booking) => write!(f, "{booking}"),
            Entry::Tidy => write!(f, "tidy"),
        }
    }
}
