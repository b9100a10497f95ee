ghost use Rattle.booking.specs.Bookings.{Rebase, on};
ghost use Rattle.layout.specs.Booked.{Books};
ghost use Rattle.layout.specs.Results.{done_of};
ghost use Rattle.std.specs.Prelude.{◌≡◌, length};

use booking::{Refusal, Trace};
use codeword::Codeword;
use store::{Store, put, word};
use walk::walk;

/// Gives the block at a trace another base; nothing else of its codeword changes.
pub fn rebase<S: Store>(store: &mut S, trace: &Trace, base: i64) -> Result<(), Refusal>
    ensures booked { Books (S.Store.words store.old) (on trace.now (Rebase base)) (done_of result) (S.Store.words store.new) }
    ensures count { length (S.Store.words store.new) ≡ length (S.Store.words store.old) }
    ensures rest { S.Store.rest store.new ≡ S.Store.rest store.old }
{
    let at = walk(store, trace)?;
    let code = word(store, at);
    if code == 0 {
        return Err(Refusal::Unlabelled(trace.depth() + 1));
    }
    let Ok(base) = i16::try_from(base) else {
        return Err(Refusal::BadField);
    };
    let mut label = Codeword::unpack(code);
    label.base = base;
    if let Some(code) = label.pack() {
        put(store, at, code);
    }
    Ok(())
}
