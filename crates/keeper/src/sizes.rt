// Blocks that grow and shrink.
ghost use Rattle.booking.specs.Bookings.{Delete, Insert, on};
ghost use Rattle.layout.specs.Booked.{Books};
ghost use Rattle.layout.specs.Results.{done_of};
ghost use Rattle.std.specs.Prelude.{◌≡◌, length};

use crate::keeper::Keeper;
use booking::{Refusal, Trace};
use store::Store;

impl<S: Store> Keeper<S> {
    /// Brings `n` elements in before the one that the subscript selects, or after the last: zeros, or codewords that label nothing. The base stays.
    pub fn insert(&mut self, trace: &Trace, subscript: i32, n: u64) -> Result<(), Refusal>
        ensures booked { Books (S.Store.words self.old.store) (on trace.now (Insert subscript n)) (done_of result) (S.Store.words self.new.store) }
        ensures count { length (S.Store.words self.new.store) ≡ length (S.Store.words self.old.store) }
        ensures rest { S.Store.rest self.new.store ≡ S.Store.rest self.old.store }
    {
        insertion::insert(&mut self.store, trace, subscript, n)
    }

    /// The `n` elements from the one that the subscript selects on leave the block at a trace, with the arrays below them; those behind close
    /// up. Not all elements may leave.
    pub fn delete(&mut self, trace: &Trace, subscript: i32, n: u64) -> Result<(), Refusal>
        ensures booked { Books (S.Store.words self.old.store) (on trace.now (Delete subscript n)) (done_of result) (S.Store.words self.new.store) }
        ensures count { length (S.Store.words self.new.store) ≡ length (S.Store.words self.old.store) }
        ensures rest { S.Store.rest self.new.store ≡ S.Store.rest self.old.store }
    {
        deletion::delete(&mut self.store, trace, subscript, n)
    }
}
