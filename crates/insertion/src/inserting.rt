ghost use Rattle.booking.specs.Bookings.{Insert, on};
ghost use Rattle.insertion.specs.Openings.{opened, opening_in};
ghost use Rattle.layout.specs.Booked.{Books};
ghost use Rattle.layout.specs.Holds.{Holds};
ghost use Rattle.layout.specs.Keeping.{tidied};
ghost use Rattle.layout.specs.Results.{done_of};
ghost use Rattle.std.specs.Prelude.{◌≡◌, length};

use crate::growing::grow;
use crate::raising::{Rise, raise};
use booking::{Refusal, Trace};
use codeword::Codeword;
use placement::{free_words, tidy};
use store::{Store, word};
use walk::{choose, walk};

/// The label that a word is, and the element that a subscript selects in its block, or the one past its last.
#[tactic(auto, unfolding(crate::specs::Openings::opening_in), using(layout::proofs::Gone::chosen_lt))]
fn opening_of(code: u64, subscript: i32, step: u8) -> Result<(Codeword, u64), Refusal>
    ensures { result ≡ opening_in code subscript step }
{
    if code == 0 {
        return Err(Refusal::Unlabelled(step));
    }
    let label = Codeword::unpack(code);
    let wider = Codeword {
        length: label.length + 1,
        ..label
    };
    let element = choose(wider, subscript, step)?;
    Ok((label, element))
}

/// The same at the end of a trace, a pair as in the definition.
#[tactic(auto, unfolding(crate::specs::Openings::opened))]
#[inline(always)]
fn opening<S: Store>(store: &S, trace: &Trace, subscript: i32) -> Result<(Codeword, u64), Refusal>
    ensures { result ≡ opened (S.Store.words store.now) trace.now subscript }
{
    let at = walk(store, trace)?;
    opening_of(word(store, at), subscript, trace.depth() + 1)
}

/// The same once all blocks are closed up, which may move the codeword of the place.
fn opening_closed_up<S: Store>(
    store: &mut S,
    trace: &Trace,
    subscript: i32,
) -> Result<(Codeword, u64), Refusal>
    ensures words { Holds (S.Store.words store.old) → S.Store.words store.new ≡ tidied (S.Store.words store.old) }
    ensures found { result ≡ opened (S.Store.words store.new) trace.now subscript }
    ensures count { length (S.Store.words store.new) ≡ length (S.Store.words store.old) }
    ensures rest { S.Store.rest store.new ≡ S.Store.rest store.old }
{
    tidy(store);
    opening(store, trace, subscript)
}

/// Brings `n` elements in before the one that a subscript selects, or after the last: zeros, or codewords that label nothing. All blocks
/// are closed up first, so the trace is walked again.
pub fn insert<S: Store>(store: &mut S, trace: &Trace, subscript: i32, n: u64) -> Result<(), Refusal>
    ensures booked { Books (S.Store.words store.old) (on trace.now (Insert subscript n)) (done_of result) (S.Store.words store.new) }
    ensures count { length (S.Store.words store.new) ≡ length (S.Store.words store.old) }
    ensures rest { S.Store.rest store.new ≡ S.Store.rest store.old }
{
    let _ = opening(store, trace, subscript)?;
    if n == 0 {
        return Err(Refusal::BadLength);
    }
    if n > free_words(store) {
        return Err(Refusal::NoRoom);
    }
    let (label, element) = opening_closed_up(store, trace, subscript)?;
    let rise = Rise {
        point: label.first + label.length,
        by: n,
    };
    raise(store, rise);
    grow(store, label, element, n);
    Ok(())
}
