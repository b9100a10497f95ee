ghost use Rattle.std.specs.Prelude.{◌≡◌, ◌<◌, length};
ghost use Rattle.booking.specs.Bookings.{Take, on};
ghost use Rattle.layout.specs.Attached.{Attaches, label_taken};
ghost use Rattle.ledger.specs.Doors.{bad_type};
ghost use Rattle.layout.specs.Booked.{Books};
ghost use Rattle.layout.specs.Results.{done_of};

use crate::releasing::vacate;
use crate::weighing::weight;
use booking::{Refusal, Shape, Trace};
use codeword::{Codeword, LAST_TYPE};
use layout::LEVELS;
use placement::{free_words, room};
use store::{Store, put};
use walk::walk;

/// Whether no block at a step can hold data or codewords of a type.
fn is_bad_type(shape: Shape, step: u8) -> bool
    ensures { result ≡ bad_type shape.codes shape.kind step }
{
    shape.kind > u64::from(LAST_TYPE) || shape.codes && (shape.kind != 0 || step == LEVELS)
}

/// The label of a block to be taken at a step, which has no address yet. Which shapes have one hangs on the step, so that this is no
/// `TryFrom`.
#[tactic(auto, using(crate::proofs::Labels::made, crate::proofs::Labels::wrong_base, crate::proofs::Labels::wrong_type, crate::proofs::Labels::wrong_length, layout::proofs::Bases::base_bad, layout::proofs::Bases::base_good))]
fn label_of(shape: Shape, step: u8) -> Result<Codeword, Refusal>
    ensures { result ≡ label_taken shape.length shape.base shape.codes shape.kind step }
{
    let Ok(base) = i16::try_from(shape.base) else {
        return Err(Refusal::BadField);
    };
    if is_bad_type(shape, step) {
        return Err(Refusal::BadField);
    }
    if shape.length == 0 {
        return Err(Refusal::BadLength);
    }
    Ok(Codeword {
        first: 0,
        length: shape.length,
        base,
        p: false,
        q: false,
        r: shape.codes,
        s: false,
        kind: shape.kind as u8,
    })
}

/// Labels the block that begins at `start` by the codeword at `at`. The bound is asked of this one parameter, which so has no type of its own.
fn attach<S: Store>(store: &mut S, at: u64, start: u64, label: Codeword)
    requires { start < 262144 }
    ensures attaches { Attaches (S.Store.words store.old) at start label (S.Store.words store.new) }
    ensures count { length (S.Store.words store.new) ≡ length (S.Store.words store.old) }
    ensures rest { S.Store.rest store.new ≡ S.Store.rest store.old }
{
    let label = Codeword {
        first: start + 1,
        ..label
    };
    if let Some(code) = label.pack() {
        put(store, at, code);
    }
    put(store, start, at);
}

/// Takes an array of zeros, or of codewords that label nothing, at a trace. What stood there is freed first. Finding room may move
/// the codeword of the place, so the trace is walked again.
pub fn take<S: Store>(store: &mut S, trace: &Trace, shape: Shape) -> Result<(), Refusal>
    ensures booked { Books (S.Store.words store.old) (on trace.now (Take shape.length shape.base shape.codes shape.kind)) (done_of result) (S.Store.words store.new) }
    ensures count { length (S.Store.words store.new) ≡ length (S.Store.words store.old) }
    ensures rest { S.Store.rest store.new ≡ S.Store.rest store.old }
{
    let at = walk(store, trace)?;
    let depth = trace.depth();
    let label = label_of(shape, depth + 1)?;
    if shape.length >= free_words(store) + weight(store, at, LEVELS - depth) {
        return Err(Refusal::NoRoom);
    }
    vacate(store, at, LEVELS - depth);
    // Over words that hold together room is always found; over others the block may be labelled at 0.
    let start = room(store, shape.length + 1).unwrap_or(0);
    let place = walk(store, trace)?;
    attach(store, place, start, label);
    Ok(())
}
