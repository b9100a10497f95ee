ghost use Rattle.booking.specs.Bookings.{Free, Take, on};
ghost use Rattle.layout.specs.Booked.{Books};
ghost use Rattle.layout.specs.Results.{done_of};
ghost use Rattle.std.specs.Prelude.{◌≡◌, length};

use crate::keeper::Keeper;
use booking::{Refusal, Shape, Trace};
use store::Store;

impl<S: Store> Keeper<S> {
    /// Takes an array of zeros of a type, or of codewords that label nothing, at a trace. What stood there is freed first.
    pub fn take(&mut self, trace: &Trace, shape: Shape) -> Result<(), Refusal>
        ensures booked { Books (S.Store.words self.old.store) (on trace.now (Take shape.length shape.base shape.codes shape.kind)) (done_of result) (S.Store.words self.new.store) }
        ensures count { length (S.Store.words self.new.store) ≡ length (S.Store.words self.old.store) }
        ensures rest { S.Store.rest self.new.store ≡ S.Store.rest self.old.store }
    {
        arrays::take(&mut self.store, trace, shape)
    }

    /// Frees the array at a trace: each of its blocks is linked into the chain of gaps.
    pub fn free(&mut self, trace: &Trace) -> Result<(), Refusal>
        ensures booked { Books (S.Store.words self.old.store) (on trace.now Free) (done_of result) (S.Store.words self.new.store) }
        ensures count { length (S.Store.words self.new.store) ≡ length (S.Store.words self.old.store) }
        ensures rest { S.Store.rest self.new.store ≡ S.Store.rest self.old.store }
    {
        arrays::free(&mut self.store, trace)
    }
}
