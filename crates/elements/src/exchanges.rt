ghost use Rattle.booking.specs.Bookings.{Exchange, on};
ghost use Rattle.layout.specs.Booked.{Books};
ghost use Rattle.layout.specs.Elements.{relabelled};
ghost use Rattle.layout.specs.Results.{done_of};
ghost use Rattle.std.specs.Prelude.{◌≡◌, length};

use booking::{Refusal, Trace};
use codeword::Codeword;
use store::{Store, put, word};
use walk::{go_down, walk};

/// Writes a codeword at an address, and the address into the back-reference of its block. The codeword is at hand, and is not read back,
/// as `placement` does when blocks move.
#[tactic(auto, unfolding(layout::specs::Elements::relabelled))]
fn relabel<S: Store>(store: &mut S, at: u64, code: u64)
    ensures after { S.Store.words store.new ≡ relabelled (S.Store.words store.old) at code }
    ensures count { length (S.Store.words store.new) ≡ length (S.Store.words store.old) }
    ensures rest { S.Store.rest store.new ≡ S.Store.rest store.old }
{
    put(store, at, code);
    let first = Codeword::unpack(code).first;
    if first > 0 {
        put(store, first - 1, at);
    }
}

/// Two elements of a codeword block change places, with the arrays below them.
pub fn exchange<S: Store>(store: &mut S, trace: &Trace, one: i32, other: i32) -> Result<(), Refusal>
    ensures booked { Books (S.Store.words store.old) (on trace.now (Exchange one other)) (done_of result) (S.Store.words store.new) }
    ensures count { length (S.Store.words store.new) ≡ length (S.Store.words store.old) }
    ensures rest { S.Store.rest store.new ≡ S.Store.rest store.old }
{
    let at = walk(store, trace)?;
    let code = word(store, at);
    let step = trace.depth() + 1;
    let here = go_down(code, one, step)?;
    let there = go_down(code, other, step)?;
    let first = word(store, here);
    let second = word(store, there);
    relabel(store, here, second);
    relabel(store, there, first);
    Ok(())
}
