ghost use Rattle.booking.specs.Bookings.{Exchange, Read, Rebase, RowRead, RowWrite, Write, on};
ghost use Rattle.elements.specs.Rows.{UnlessGranted, read_of, row_of};
ghost use Rattle.layout.specs.Booked.{Answers, Books};
ghost use Rattle.layout.specs.Results.{done_of};
ghost use Rattle.std.specs.Prelude.{◌≡◌, map, length};

use crate::keeper::Keeper;
use booking::{Kind, Refusal, Trace};
use store::Store;

impl<S: Store> Keeper<S> {
    /// One data element, as an item of the kind.
    pub fn read<K: Kind>(&self, trace: &Trace, subscript: i32) -> Result<K::Item, Refusal>
        ensures { Answers (S.Store.words self.now.store) (on trace.now (Read K.Kind.TYPE subscript)) (read_of K.Kind.word result) }
    {
        elements::read::<S, K>(&self.store, trace, K::TYPE, subscript)
    }

    /// Replaces one data element by an item of the kind.
    pub fn write<K: Kind>(
        &mut self,
        trace: &Trace,
        subscript: i32,
        item: K::Item,
    ) -> Result<(), Refusal>
        ensures booked { Books (S.Store.words self.old.store) (on trace.now (Write K.Kind.TYPE subscript (K.Kind.word item))) (done_of result) (S.Store.words self.new.store) }
        ensures count { length (S.Store.words self.new.store) ≡ length (S.Store.words self.old.store) }
        ensures rest { S.Store.rest self.new.store ≡ S.Store.rest self.old.store }
    {
        elements::write::<S, K>(&mut self.store, trace, K::TYPE, subscript, item)
    }

    /// Copies as many data elements as the list has, from the subscript on, into the list. Refused, the list stays as it was.
    pub fn read_row<K: Kind>(
        &self,
        trace: &Trace,
        subscript: i32,
        items: &mut [K::Item],
    ) -> Result<(), Refusal>
        ensures booked { Answers (S.Store.words self.now.store) (on trace.now (RowRead K.Kind.TYPE subscript (length items.old))) (row_of K.Kind.word result items.new) }
        ensures list { UnlessGranted result (items.new ≡ items.old) }
    {
        elements::read_row::<S, K>(&self.store, trace, K::TYPE, subscript, items)
    }

    /// Replaces as many data elements as the list has, from the subscript on.
    pub fn write_row<K: Kind>(
        &mut self,
        trace: &Trace,
        subscript: i32,
        items: &[K::Item],
    ) -> Result<(), Refusal>
        ensures booked { Books (S.Store.words self.old.store) (on trace.now (RowWrite K.Kind.TYPE subscript (map K.Kind.word items.now))) (done_of result) (S.Store.words self.new.store) }
        ensures count { length (S.Store.words self.new.store) ≡ length (S.Store.words self.old.store) }
        ensures rest { S.Store.rest self.new.store ≡ S.Store.rest self.old.store }
    {
        elements::write_row::<S, K>(&mut self.store, trace, K::TYPE, subscript, items)
    }

    /// Gives the block at a trace another base; nothing else of its codeword changes.
    pub fn rebase(&mut self, trace: &Trace, base: i64) -> Result<(), Refusal>
        ensures booked { Books (S.Store.words self.old.store) (on trace.now (Rebase base)) (done_of result) (S.Store.words self.new.store) }
        ensures count { length (S.Store.words self.new.store) ≡ length (S.Store.words self.old.store) }
        ensures rest { S.Store.rest self.new.store ≡ S.Store.rest self.old.store }
    {
        elements::rebase(&mut self.store, trace, base)
    }

    /// Two elements of a codeword block change places, with the arrays below them.
    pub fn exchange(&mut self, trace: &Trace, one: i32, other: i32) -> Result<(), Refusal>
        ensures booked { Books (S.Store.words self.old.store) (on trace.now (Exchange one other)) (done_of result) (S.Store.words self.new.store) }
        ensures count { length (S.Store.words self.new.store) ≡ length (S.Store.words self.old.store) }
        ensures rest { S.Store.rest self.new.store ≡ S.Store.rest self.old.store }
    {
        elements::exchange(&mut self.store, trace, one, other)
    }
}
