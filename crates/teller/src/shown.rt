// What a keeper holds at the end, as its calls answer it.
use crate::told::{tell_refusal, tell_words};
use booking::{NAMES, Refusal, Trace};
use keeper::Keeper;
use std::alloc::Global;
use std::io::{self, Write};
use std::ops::Range;
use store::Store;

/// The most blocks that lie one below the other.
const LEVELS: u8 = 4;

/// Shows each name that holds something, and how many words are free.
pub(crate) fn show_names<W: Write, S: Store>(
    alloc: Global,
    out: &mut W,
    keeper: &Keeper<S>,
) -> io::Result<()> {
    for name in 1..=NAMES {
        let trace = Trace::new(name).unwrap();
        if keeper.span(&trace) != Ok(None) {
            write!(out, "name {name}: ")?;
            show_tree(alloc, out, keeper, &trace, LEVELS)?;
            writeln!(out, "")?;
        }
    }
    let total = keeper.total();
    writeln!(out, "free words {total}")
}

// Shows what stands at a trace, at most so many levels of it.
#[cycle(show)]
fn show_tree<W: Write, S: Store>(
    alloc: Global,
    out: &mut W,
    keeper: &Keeper<S>,
    trace: &Trace,
    levels: u8,
) -> io::Result<()> {
    if levels == 0 {
        return Ok(());
    }
    match keeper.span(trace) {
        Ok(None) => write!(out, "nothing"),
        Ok(Some((base, length, false, kind))) => {
            write!(out, "row base {base} type {kind}:")?;
            show_row(alloc, out, keeper, trace, kind, base, length)
        }
        Ok(Some((base, length, true, _))) => {
            write!(out, "table base {base}:")?;
            let items = base..base.saturating_add_unsigned(length);
            show_items(alloc, out, keeper, trace, items, levels - 1)
        }
        Err(refusal) => tell_refusal(out, refusal),
    }
}

// Shows what stands below each element of a table.
#[cycle(show)]
fn show_items<W: Write, S: Store>(
    alloc: Global,
    out: &mut W,
    keeper: &Keeper<S>,
    trace: &Trace,
    items: Range<i64>,
    levels: u8,
) -> io::Result<()> {
    for item in items {
        match below(trace, item) {
            Ok(place) => {
                write!(out, " [")?;
                show_tree(alloc, out, keeper, &place, levels)?;
                write!(out, "]")?;
            }
            Err(refusal) => tell_refusal(out, refusal)?,
        }
    }
    Ok(())
}

// Shows the words of a row.
fn show_row<W: Write, S: Store>(
    alloc: Global,
    out: &mut W,
    keeper: &Keeper<S>,
    trace: &Trace,
    kind: u64,
    base: i64,
    length: u64,
) -> io::Result<()> {
    let Ok(first) = i32::try_from(base) else {
        return tell_refusal(out, Refusal::BadField);
    };
    let mut words = vec![in alloc; 0; length as usize]?;
    match keeper.read_words(trace, kind, first, &mut words) {
        Ok(()) => tell_words(out, &words),
        Err(refusal) => tell_refusal(out, refusal),
    }
}

// The trace of an element of the table at a trace, which is not used up.
fn below(trace: &Trace, subscript: i64) -> Result<Trace, Refusal> {
    let Ok(last) = i32::try_from(subscript) else {
        return Err(Refusal::BadField);
    };
    let mut deeper = Trace::new(u64::from(trace.name()))?;
    for subscript in trace.subscripts() {
        deeper = deeper.down(*subscript)?;
    }
    Ok(deeper.down(last)?)
}
