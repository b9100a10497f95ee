// Elements read and written, one or a row of them. The trace, the number and the subscript stay apart: a struct of them would be made
// for one call, and taken apart in it. The number is no enum, since any may be asked for, and one that no block has is refused.
ghost use Rattle.booking.specs.Bookings.{Read, RowRead, RowWrite, Write, on};
ghost use Rattle.elements.specs.Rows.{UnlessGranted, read_of, row_of, run_found};
ghost use Rattle.layout.specs.Booked.{Answers, Books};
ghost use Rattle.layout.specs.Results.{done_of};
ghost use Rattle.std.specs.Prelude.{◌≡◌, map, length};

use crate::selection::row;
use booking::{Kind, Refusal, Trace};
use store::{Store, put, read_from, word, write_from};

/// One data element of a block whose type is the number, as an item of the kind.
pub fn read<S: Store, K: Kind>(
    store: &S,
    trace: &Trace,
    number: u64,
    subscript: i32,
) -> Result<K::Item, Refusal>
    ensures { Answers (S.Store.words store.now) (on trace.now (Read number subscript)) (read_of K.Kind.word result) }
{
    let (at, _) = row(store, trace, number, subscript)?;
    Ok(K::from_word(word(store, at)))
}

/// Replaces one data element of a block whose type is the number.
pub fn write<S: Store, K: Kind>(
    store: &mut S,
    trace: &Trace,
    number: u64,
    subscript: i32,
    item: K::Item,
) -> Result<(), Refusal>
    ensures booked { Books (S.Store.words store.old) (on trace.now (Write number subscript (K.Kind.word item))) (done_of result) (S.Store.words store.new) }
    ensures count { length (S.Store.words store.new) ≡ length (S.Store.words store.old) }
    ensures rest { S.Store.rest store.new ≡ S.Store.rest store.old }
{
    let (at, _) = row(store, trace, number, subscript)?;
    put(store, at, K::to_word(item));
    Ok(())
}

/// Where a row of n data elements begins: n is not 0, and there are as many from the subscript on.
#[tactic(auto, unfolding(crate::specs::Rows::run_found))]
pub fn run<S: Store>(
    store: &S,
    trace: &Trace,
    number: u64,
    subscript: i32,
    n: usize,
) -> Result<u64, Refusal>
    ensures { result ≡ run_found (S.Store.words store.now) trace.now number subscript n }
{
    let (at, left) = row(store, trace, number, subscript)?;
    if n == 0 || n as u64 > left {
        return Err(Refusal::BadLength);
    }
    Ok(at)
}

/// Copies as many data elements as the list has, from the subscript on, into the list. Refused, the list stays as it was.
pub fn read_row<S: Store, K: Kind>(
    store: &S,
    trace: &Trace,
    number: u64,
    subscript: i32,
    items: &mut [K::Item],
) -> Result<(), Refusal>
    ensures booked { Answers (S.Store.words store.now) (on trace.now (RowRead number subscript (length items.old))) (row_of K.Kind.word result items.new) }
    ensures list { UnlessGranted result (items.new ≡ items.old) }
{
    let at = run(store, trace, number, subscript, items.len())?;
    read_from::<S, K>(store, at, items);
    Ok(())
}

/// Replaces as many data elements as the list has, from the subscript on.
pub fn write_row<S: Store, K: Kind>(
    store: &mut S,
    trace: &Trace,
    number: u64,
    subscript: i32,
    items: &[K::Item],
) -> Result<(), Refusal>
    ensures booked { Books (S.Store.words store.old) (on trace.now (RowWrite number subscript (map K.Kind.word items.now))) (done_of result) (S.Store.words store.new) }
    ensures count { length (S.Store.words store.new) ≡ length (S.Store.words store.old) }
    ensures rest { S.Store.rest store.new ≡ S.Store.rest store.old }
{
    let at = run(store, trace, number, subscript, items.len())?;
    write_from::<S, K>(store, at, items);
    Ok(())
}
