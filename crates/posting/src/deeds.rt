ghost use Rattle.entries.specs.Readings.{booking_of};
ghost use Rattle.posting.specs.Posted.{Posts};
ghost use Rattle.std.specs.Prelude.{◌≡◌, length};

use crate::looks::{read, read_row, span};
use entries::{Answer, Booking, Deed, Reply};
use keeper::Keeper;
use std::alloc::{AllocError, Global};
use store::Store;

/// Has the keeper do a booking. Only a row that is read wants memory.
pub fn post<S: Store>(
    alloc: Global,
    keeper: &mut Keeper<S>,
    booking: &Booking<'_>,
) -> Result<Reply, AllocError>
    ensures booked { Posts (S.Store.words keeper.old.store) (booking_of booking.now) result (S.Store.words keeper.new.store) }
    ensures count { length (S.Store.words keeper.new.store) ≡ length (S.Store.words keeper.old.store) }
    ensures rest { S.Store.rest keeper.new.store ≡ S.Store.rest keeper.old.store }
{
    let trace = booking.trace;
    let done = match booking.deed {
        Deed::Read { kind, subscript } => return Ok(read(keeper, trace, kind, subscript)),
        Deed::ReadRow {
            kind,
            subscript,
            length,
        } => return read_row(alloc, keeper, trace, kind, subscript, length),
        Deed::Span => return Ok(span(keeper, trace)),
        Deed::Take(shape) => keeper.take(trace, shape),
        Deed::Free => keeper.free(trace),
        Deed::Write {
            kind,
            subscript,
            word,
        } => keeper.write_word(trace, kind, subscript, word),
        Deed::WriteRow {
            kind,
            subscript,
            words,
        } => keeper.write_words(trace, kind, subscript, words),
        Deed::Insert { subscript, n } => keeper.insert(trace, subscript, n),
        Deed::Delete { subscript, n } => keeper.delete(trace, subscript, n),
        Deed::Rebase(base) => keeper.rebase(trace, base),
        Deed::Exchange(one, other) => keeper.exchange(trace, one, other),
    };
    Ok(done.map(|()| Answer::Done))
}
