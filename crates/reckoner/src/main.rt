// Books the lines of a list over plain trees in memory, by the same rules as a keeper and with nothing of one.
#![tactic(auto)]

mod block;
mod booked;
mod booking;
mod house;
mod line;
mod refusal;
mod tree;

use booking::Failure;
use house::House;
use line::{Fault, Line};
use std::alloc::Global;
use std::io::{self, BufRead, BufReader, BufWriter, Write};

fn main(rt: HostRuntime) -> io::Result<()> {
    let alloc = rt.alloc();
    let mut out = BufWriter::new(alloc, io::writer(&rt))?;
    let mut lines = BufReader::new(alloc, rt.reader())?.lines(alloc);
    let first = match lines.next() {
        Some(line) => line?,
        None => String::new(alloc),
    };
    if let Some(mut house) = open(alloc, &mut out, &first)? {
        for (number, line) in (2u64..).zip(lines) {
            answer(alloc, &mut out, &mut house, number, &line?)?;
        }
        close(&mut out, &house)?;
    }
    out.flush()
}

// Makes a house of as many words as the first line counts.
fn open<W: Write>(alloc: Global, out: &mut W, line: &str) -> io::Result<Option<House>> {
    match Line::read(alloc, line) {
        Ok(Line::Count(count)) => match House::new(alloc, count) {
            Ok(house) => {
                writeln!(out, "made")?;
                return Ok(Some(house));
            }
            Err(Failure::Refused(refusal)) => writeln!(out, "{refusal}")?,
            Err(Failure::NoMemory(error)) => return Err(error.into()),
        },
        Err(Fault::NoMemory(error)) => return Err(error.into()),
        _ => writeln!(out, "line 1: {}", Fault::NoCount)?,
    }
    Ok(None)
}

// Books one line, and says what came of it.
fn answer<W: Write>(
    alloc: Global,
    out: &mut W,
    house: &mut House,
    number: u64,
    line: &str,
) -> io::Result<()> {
    match Line::read(alloc, line) {
        Ok(Line::Tidy) => writeln!(out, "tidied"),
        Ok(Line::Book(trace, booking)) => match house.book(alloc, &trace, &booking) {
            Ok(reply) => writeln!(out, "{reply}"),
            Err(Failure::Refused(refusal)) => writeln!(out, "{refusal}"),
            Err(Failure::NoMemory(error)) => Err(error.into()),
        },
        Ok(Line::Count(_)) => writeln!(out, "line {number}: {}", Fault::SecondCount),
        Err(Fault::NoMemory(error)) => Err(error.into()),
        Err(fault) => writeln!(out, "line {number}: {fault}"),
    }
}

// Says what every name holds that holds something, and how many words are free.
fn close<W: Write>(out: &mut W, house: &House) -> io::Result<()> {
    for (name, tree) in (1u8..).zip(&house.names) {
        if !tree.is_nothing() {
            writeln!(out, "name {name}: {tree}")?;
        }
    }
    writeln!(out, "free words {}", house.free_words())
}
