ghost use Rattle.std.specs.Prelude.{◌≡◌, ◌-◌, ◌<◌, ◌≤◌};
ghost use Rattle.placement.specs.Moves.{aimed, block_size, renewed, renewed_at, stepped};

use codeword::{Codeword, FIELD};
use std::ops::Range;
use store::{Store, copy_down, put, word};

/// Renews the back-reference of the block that the codeword at `at` labels, if it labels one.
#[inline(always)]
fn renew_one<S: Store>(store: &mut S, at: u64)
    ensures words { S.Store.words store.new ≡ renewed_at at (S.Store.words store.old) }
    ensures rest { S.Store.rest store.new ≡ S.Store.rest store.old }
{
    let first = Codeword::unpack(word(store, at)).first;
    if 0 < first {
        put(store, first - 1, at);
    }
}

/// Renews the back-references of the blocks that the codewords at these addresses label.
#[tactic(auto, using(crate::proofs::Moves::renewed_next, crate::proofs::Moves::renewed_none))]
#[inline(always)]
pub fn renew<S: Store>(store: &mut S, codes: Range<u64>)
    ensures words { S.Store.words store.new ≡ renewed (codes.end - codes.start) codes.start (S.Store.words store.old) }
    ensures rest { S.Store.rest store.new ≡ S.Store.rest store.old }
{
    for at in codes {
        renew_one(store, at);
    }
}

/// The codeword with another first address. It is made from the word and not from the fields, since bits without a name stay as they are.
pub fn aimed(code: u64, first: u64) -> u64
    ensures { result ≡ aimed code first }
{
    code - code % FIELD + first % FIELD
}

/// Moves the block whose back-reference stands at `from` down to `to`, and answers how many words it has. A type for the two, or for
/// addresses below 262144, is no plainer, since `pass` alone would make values of it, for this one call.
#[inline(always)]
pub fn move_block<S: Store>(store: &mut S, from: u64, to: u64) -> u64
    requires { (to ≤ from) × (from < 262144) }
    ensures size { result ≡ block_size (S.Store.words store.old) from }
    ensures words { S.Store.words store.new ≡ stepped from to (S.Store.words store.old) }
    ensures rest { S.Store.rest store.new ≡ S.Store.rest store.old }
{
    let owner = word(store, from);
    let code = word(store, owner);
    let label = Codeword::unpack(code);
    copy_down(store, from, to, label.length + 1);
    put(store, owner, aimed(code, to + 1));
    if label.r {
        renew(store, to + 1..to + 1 + label.length);
    }
    label.length + 1
}
