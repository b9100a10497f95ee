// What is open under a name: the elements that are not 0.
use booking::{NAMES, Refusal, Trace};
use keeper::Keeper;
use std::io;
use store::Store;
use telling::{element_of, tell};

/// Tells of each name under which something is open how many items either keeper counts there, and under how many names both count the
/// same.
pub(crate) fn compare<R: Store, Q: Store>(
    rt: &impl Print,
    receivables: &Keeper<R>,
    treasury: &Keeper<Q>,
) -> io::Result<()> {
    println!(rt; "Open items afterwards:")?;
    let mut same = 0u64;
    for name in 1..=NAMES {
        let (here, there) = match both_count(receivables, treasury, name) {
            Ok(counts) => counts,
            Err(refusal) => return tell(rt, refusal),
        };
        if here == there {
            same = same.saturating_add(1);
        }
        if here != 0 || there != 0 {
            println!(rt; "  Name {name}: receivables counts {here}, treasury counts {there}.")?;
        }
    }
    println!(rt; "  Both count the same under {same} of {NAMES} names.")?;
    let here = receivables.total();
    let there = treasury.total();
    println!(rt; "  Receivables has {here} free words, treasury {there}.")
}

// The items under a name, as either keeper counts them.
fn both_count<R: Store, Q: Store>(
    receivables: &Keeper<R>,
    treasury: &Keeper<Q>,
    name: u64,
) -> Result<(u64, u64), Refusal> {
    Ok((open_under(receivables, name)?, open_under(treasury, name)?))
}

// The items under a name: those in its row, or in the rows of its table.
fn open_under<S: Store>(keeper: &Keeper<S>, name: u64) -> Result<u64, Refusal> {
    let trace = Trace::new(name)?;
    let Some((base, length, true, _)) = keeper.span(&trace)? else {
        return open_in(keeper, &trace);
    };
    let mut sum = 0u64;
    for subscript in (0..length).map_while(|k| subscript_at(base, k)) {
        sum = sum.saturating_add(open_in(keeper, &element_of(name, subscript)?)?);
    }
    Ok(sum)
}

// The items in the row at a trace; none where nothing is booked.
fn open_in<S: Store>(keeper: &Keeper<S>, trace: &Trace) -> Result<u64, Refusal> {
    let Some((base, length, _, kind)) = keeper.span(trace)? else {
        return Ok(0);
    };
    let mut sum = 0u64;
    for subscript in (0..length).map_while(|k| subscript_at(base, k)) {
        if keeper.read_word(trace, kind, subscript)? != 0 {
            sum = sum.saturating_add(1);
        }
    }
    Ok(sum)
}

// The subscript of element k of a block, if it is one.
fn subscript_at(base: i64, k: u64) -> Option<i32> {
    i32::try_from(base.checked_add_unsigned(k)?).ok()
}
