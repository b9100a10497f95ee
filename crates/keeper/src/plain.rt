ghost use Rattle.booking.specs.Bookings.{Read, RowRead, RowWrite, Write, on};
ghost use Rattle.elements.specs.Rows.{UnlessGranted, read_of, row_of};
ghost use Rattle.layout.specs.Booked.{Answers, Books};
ghost use Rattle.layout.specs.Results.{done_of};
ghost use Rattle.std.specs.Prelude.{◌≡◌, length};

use crate::keeper::Keeper;
use booking::{Refusal, Trace, Words};
use store::Store;

// The same calls with plain words, in a block of any type, given by its number: callers that know no kinds need them. Both forms go by
// the same functions of `elements`.
impl<S: Store> Keeper<S> {
    /// One data element of a block of the type.
    pub fn read_word(&self, trace: &Trace, number: u64, subscript: i32) -> Result<u64, Refusal>
        ensures { Answers (S.Store.words self.now.store) (on trace.now (Read number subscript)) (read_of (λ w. w) result) }
    {
        elements::read::<S, Words>(&self.store, trace, number, subscript)
    }

    /// Replaces one data element of a block of the type.
    pub fn write_word(
        &mut self,
        trace: &Trace,
        number: u64,
        subscript: i32,
        word: u64,
    ) -> Result<(), Refusal>
        ensures booked { Books (S.Store.words self.old.store) (on trace.now (Write number subscript word)) (done_of result) (S.Store.words self.new.store) }
        ensures count { length (S.Store.words self.new.store) ≡ length (S.Store.words self.old.store) }
        ensures rest { S.Store.rest self.new.store ≡ S.Store.rest self.old.store }
    {
        elements::write::<S, Words>(&mut self.store, trace, number, subscript, word)
    }

    /// Copies as many data elements of a block of the type as the list has, from the subscript on, into the list. Refused, the list stays as it was.
    pub fn read_words(
        &self,
        trace: &Trace,
        number: u64,
        subscript: i32,
        words: &mut [u64],
    ) -> Result<(), Refusal>
        ensures booked { Answers (S.Store.words self.now.store) (on trace.now (RowRead number subscript (length words.old))) (row_of (λ w. w) result words.new) }
        ensures list { UnlessGranted result (words.new ≡ words.old) }
    {
        elements::read_row::<S, Words>(&self.store, trace, number, subscript, words)
    }

    /// Replaces as many data elements of a block of the type as the list has, from the subscript on.
    pub fn write_words(
        &mut self,
        trace: &Trace,
        number: u64,
        subscript: i32,
        words: &[u64],
    ) -> Result<(), Refusal>
        ensures booked { Books (S.Store.words self.old.store) (on trace.now (RowWrite number subscript words.now)) (done_of result) (S.Store.words self.new.store) }
        ensures count { length (S.Store.words self.new.store) ≡ length (S.Store.words self.old.store) }
        ensures rest { S.Store.rest self.new.store ≡ S.Store.rest self.old.store }
    {
        elements::write_row::<S, Words>(&mut self.store, trace, number, subscript, words)
    }
}
