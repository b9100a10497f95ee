ghost use Rattle.booking.specs.Bookings.{Free, on};
ghost use Rattle.layout.specs.Booked.{Books};
ghost use Rattle.layout.specs.Results.{done_of};
ghost use Rattle.std.specs.Prelude.{◌≡◌, length};

use crate::releasing::vacate;
use booking::{Refusal, Trace};
use layout::LEVELS;
use store::{Store, word};
use walk::walk;

/// Frees the array at a trace: each of its blocks is linked into the chain, and its words are 0.
pub fn free<S: Store>(store: &mut S, trace: &Trace) -> Result<(), Refusal>
    ensures booked { Books (S.Store.words store.old) (on trace.now Free) (done_of result) (S.Store.words store.new) }
    ensures count { length (S.Store.words store.new) ≡ length (S.Store.words store.old) }
    ensures rest { S.Store.rest store.new ≡ S.Store.rest store.old }
{
    let at = walk(store, trace)?;
    let depth = trace.depth();
    if word(store, at) == 0 {
        return Err(Refusal::Unlabelled(depth + 1));
    }
    vacate(store, at, LEVELS - depth);
    Ok(())
}
