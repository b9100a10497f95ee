use crate::fault::Fault;
use booking::{Refusal, Trace};
use std::str::Split;

/// What is left of the fields of a line, which are separated by single spaces.
#[derive(Drop)]
pub(crate) struct Fields<'a> {
    rest: Split<'a, char>,
}

impl<'a> Fields<'a> {
    pub(crate) fn of(line: &'a str) -> Fields<'a> {
        Fields {
            rest: line.split(' '),
        }
    }

    /// The next field as it stands.
    pub(crate) fn text(&mut self) -> Result<&'a str, Fault> {
        self.rest.next().ok_or(Fault::NoSuchBooking)
    }

    /// A length, a type or a word.
    pub(crate) fn number(&mut self) -> Result<u64, Fault> {
        self.text()?.parse().map_err(|_| Fault::NoNumber)
    }

    pub(crate) fn subscript(&mut self) -> Result<i32, Fault> {
        self.text()?.parse().map_err(|_| Fault::NoNumber)
    }

    pub(crate) fn base(&mut self) -> Result<i64, Fault> {
        self.text()?.parse().map_err(|_| Fault::NoNumber)
    }

    /// Whether an array is of codes.
    pub(crate) fn sort(&mut self) -> Result<bool, Fault> {
        match self.text()? {
            "codes" => Ok(true),
            "data" => Ok(false),
            _ => Err(Fault::NoSort),
        }
    }

    /// A name, and each subscript behind a dot. Read whole, it may still be refused.
    pub(crate) fn trace(&mut self) -> Result<Result<Trace, Refusal>, Fault> {
        let mut parts = self.text()?.split('.');
        let name = parts.next().unwrap_or("");
        let mut trace = Trace::new(name.parse().map_err(|_| Fault::NoNumber)?);
        for part in parts {
            let subscript = part.parse().map_err(|_| Fault::NoNumber)?;
            trace = deeper(trace, subscript);
        }
        Ok(trace)
    }
}

// One subscript deeper; what was refused stays so.
fn deeper(trace: Result<Trace, Refusal>, subscript: i32) -> Result<Trace, Refusal> {
    Ok(trace?.down(subscript)?)
}
