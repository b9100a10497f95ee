// What a line asks for.
use crate::fault::Fault;
use crate::fields::Fields;
use booking::{Refusal, Shape, Trace};
use entries::Deed;

/// A line of a list.
#[derive(Drop)]
pub(crate) enum Line<'a> {
    Count(u64),
    Tidy,
    Book(Asked<'a>),
}

/// What is asked at a place. As it was written down, it may be a place to which no trace leads.
#[derive(Drop)]
pub(crate) struct Asked<'a> {
    pub(crate) place: Result<Trace, Refusal>,
    pub(crate) deed: Deed<'a>,
}

/// The first word of a line that asks for something at a place.
#[derive(Clone, Copy)]
enum Verb {
    Take,
    Free,
    Elements(Elements),
    Span,
    Insert,
    Delete,
    Rebase,
    Exchange,
}

/// That of a line that reads or replaces elements.
#[derive(Clone, Copy)]
enum Elements {
    Read,
    Write,
    Row,
    Rewrite,
}

impl Verb {
    // The word, where the line has as many fields as go with it.
    fn of(word: &str, fields: usize) -> Result<Verb, Fault> {
        match (word, fields) {
            ("take", 6) => Ok(Verb::Take),
            ("free", 2) => Ok(Verb::Free),
            ("read", 4) => Ok(Verb::Elements(Elements::Read)),
            ("write", 5) => Ok(Verb::Elements(Elements::Write)),
            ("row", 5) => Ok(Verb::Elements(Elements::Row)),
            ("rewrite", 4..) => Ok(Verb::Elements(Elements::Rewrite)),
            ("span", 2) => Ok(Verb::Span),
            ("insert", 4) => Ok(Verb::Insert),
            ("delete", 4) => Ok(Verb::Delete),
            ("rebase", 3) => Ok(Verb::Rebase),
            ("exchange", 4) => Ok(Verb::Exchange),
            _ => Err(Fault::NoSuchBooking),
        }
    }
}

impl<'a> Line<'a> {
    /// Reads a line from left to right. The words that it writes into a row were read before.
    pub(crate) fn read(line: &str, words: &'a [u64]) -> Result<Line<'a>, Fault> {
        let count = line.split(' ').count();
        let mut fields = Fields::of(line);
        match (fields.text()?, count) {
            ("count", 2) => Ok(Line::Count(fields.number()?)),
            ("tidy", 1) => Ok(Line::Tidy),
            (word, _) => {
                let verb = Verb::of(word, count)?;
                let place = fields.trace()?;
                let deed = read_deed(&mut fields, verb, words)?;
                Ok(Line::Book(Asked { place, deed }))
            }
        }
    }
}

// What is to be done, in the fields behind the place.
fn read_deed<'a>(fields: &mut Fields<'_>, verb: Verb, words: &'a [u64]) -> Result<Deed<'a>, Fault> {
    match verb {
        Verb::Free => Ok(Deed::Free),
        Verb::Span => Ok(Deed::Span),
        Verb::Take => Ok(Deed::Take(read_shape(fields)?)),
        Verb::Rebase => Ok(Deed::Rebase(fields.base()?)),
        Verb::Exchange => {
            let one = fields.subscript()?;
            Ok(Deed::Exchange(one, fields.subscript()?))
        }
        Verb::Insert => {
            let subscript = fields.subscript()?;
            let n = fields.number()?;
            Ok(Deed::Insert { subscript, n })
        }
        Verb::Delete => {
            let subscript = fields.subscript()?;
            let n = fields.number()?;
            Ok(Deed::Delete { subscript, n })
        }
        Verb::Elements(elements) => read_elements(fields, elements, words),
    }
}

// The array that is to be taken.
fn read_shape(fields: &mut Fields<'_>) -> Result<Shape, Fault> {
    let length = fields.number()?;
    let base = fields.base()?;
    let codes = fields.sort()?;
    let kind = fields.number()?;
    Ok(Shape {
        base,
        length,
        codes,
        kind,
    })
}

// What is to be done with elements of a type, from a subscript on.
fn read_elements<'a>(
    fields: &mut Fields<'_>,
    elements: Elements,
    words: &'a [u64],
) -> Result<Deed<'a>, Fault> {
    let kind = fields.number()?;
    let subscript = fields.subscript()?;
    match elements {
        Elements::Read => Ok(Deed::Read { kind, subscript }),
        Elements::Write => {
            let word = fields.number()?;
            Ok(Deed::Write {
                kind,
                subscript,
                word,
            })
        }
        Elements::Row => {
            let length = fields.number()?;
            Ok(Deed::ReadRow {
                kind,
                subscript,
                length,
            })
        }
        Elements::Rewrite => Ok(Deed::WriteRow {
            kind,
            subscript,
            words,
        }),
    }
}
