// The bookings that only look.
ghost use Rattle.booking.specs.Bookings.{Read, RowRead, Span, on};
ghost use Rattle.entries.specs.Readings.{reply_of};
ghost use Rattle.layout.specs.Booked.{Books};
ghost use Rattle.posting.specs.Posted.{Posts};

use booking::Trace;
use elements::run;
use entries::{Answer, Reply};
use keeper::Keeper;
use std::alloc::{AllocError, Global};
use store::Store;

/// One data element.
pub fn read<S: Store>(keeper: &Keeper<S>, trace: &Trace, kind: u64, subscript: i32) -> Reply
    ensures { Books (S.Store.words keeper.now.store) (on trace.now (Read kind subscript)) (reply_of result) (S.Store.words keeper.now.store) }
{
    Ok(Answer::Word(keeper.read_word(trace, kind, subscript)?))
}

/// What stands at the trace.
pub fn span<S: Store>(keeper: &Keeper<S>, trace: &Trace) -> Reply
    ensures { Books (S.Store.words keeper.now.store) (on trace.now Span) (reply_of result) (S.Store.words keeper.now.store) }
{
    Ok(Answer::Span(keeper.span(trace)?))
}

/// A row, in a list of its own. What refuses it is found before any memory is asked for.
pub fn read_row<S: Store>(
    alloc: Global,
    keeper: &Keeper<S>,
    trace: &Trace,
    kind: u64,
    subscript: i32,
    length: u64,
) -> Result<Reply, AllocError>
    ensures { Posts (S.Store.words keeper.now.store) (on trace.now (RowRead kind subscript length)) result (S.Store.words keeper.now.store) }
{
    let length = length as usize;
    if let Err(refusal) = run(&keeper.store, trace, kind, subscript, length) {
        return Ok(Err(refusal));
    }
    let mut words = vec![in alloc; 0; length]?;
    if let Err(refusal) = keeper.read_words(trace, kind, subscript, &mut words) {
        return Ok(Err(refusal));
    }
    Ok(Ok(Answer::Words(words)))
}
