ghost use Rattle.std.specs.Prelude.{◌≡◌, ◌≤◌, [], ◌∷◌, length, Ok, Err};
ghost use Rattle.booking.specs.Traces.{Made, subscripts};

use booking::{Refusal, Trace};

// Stands for a booking, which is lent the trace: it answers the name and how many subscripts there are, a pair that a test compares
// at once, as do the two below.
fn booked(trace: &Trace) -> (u8, usize)
    ensures { result ≡ (trace.now.name, length (subscripts trace.now)) }
{
    (trace.name(), trace.subscripts().len())
}

// Books by the trace of a row, which is the deeper one.
pub(crate) fn book_row(name: u64, row: i32) -> Result<(u8, usize), Refusal>
    ensures { elim result [ Ok p ↦ (1 ≤ name) × (name ≤ 64) × (p ≡ (name, 1)) | Err e ↦ Made name (Err e) ] }
{
    let whole = Trace::new(name)?;
    let below = whole.down(row)?;
    Ok(booked(&below))
}

// The traces of two rows of one name: for the second the trace is made anew.
pub(crate) fn rows(name: u64, first: i32, second: i32) -> Result<(Trace, Trace), Refusal>
    ensures { elim result [ Ok p ↦ (p.0.name ≡ name) × (subscripts p.0 ≡ first ∷ []) × (p.1.name ≡ name) × (subscripts p.1 ≡ second ∷ []) | Err e ↦ Made name (Err e) ] }
{
    let whole = Trace::new(name)?;
    let one = whole.down(first)?;
    let anew = Trace::new(name)?;
    let other = anew.down(second)?;
    Ok((one, other))
}
