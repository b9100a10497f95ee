ghost use Rattle.booking.specs.Bookings.{Delete, on};
ghost use Rattle.layout.specs.Booked.{Books};
ghost use Rattle.layout.specs.Results.{done_of};
ghost use Rattle.std.specs.Prelude.{◌≡◌, length};

use crate::closing::close_up;
use crate::leaving::first_leaving;
use arrays::vacate_each;
use booking::{Refusal, Trace};
use codeword::Codeword;
use layout::LEVELS;
use placement::link_gap;
use store::{Store, word};
use walk::walk;

/// The `n` elements from the one that the subscript selects on leave the block at a trace, with the arrays below them. Those behind
/// close up, and the block's last `n` words are linked into the chain.
#[tactic(auto, using(crate::proofs::Runs::leaving_fits))]
pub fn delete<S: Store>(store: &mut S, trace: &Trace, subscript: i32, n: u64) -> Result<(), Refusal>
    ensures booked { Books (S.Store.words store.old) (on trace.now (Delete subscript n)) (done_of result) (S.Store.words store.new) }
    ensures count { length (S.Store.words store.new) ≡ length (S.Store.words store.old) }
    ensures rest { S.Store.rest store.new ≡ S.Store.rest store.old }
{
    let at = walk(store, trace)?;
    let depth = trace.depth();
    let code = word(store, at);
    let element = first_leaving(code, subscript, n, depth + 1)?;
    let label = Codeword::unpack(code);
    if label.r {
        let from = label.first + element;
        vacate_each(store, from..from + n, LEVELS - depth - 1);
    }
    close_up(store, at, label, element, n);
    link_gap(store, label.first + label.length - n, n);
    Ok(())
}
