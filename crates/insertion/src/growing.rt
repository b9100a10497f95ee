ghost use Rattle.insertion.specs.Openings.{grown_words, longer};
ghost use Rattle.codeword.specs.Codeword.{InWidth, packed};
ghost use Rattle.std.specs.Prelude.{◌≡◌, ◌<◌, ◌≤◌, length, slice_set};

use codeword::Codeword;
use placement::renew;
use store::{Store, clear, copy_up, put, word};

/// Writes a label, if its fields fit a word.
fn put_label<S: Store>(store: &mut S, at: u64, label: Codeword)
    ensures words { InWidth label → S.Store.words store.new ≡ slice_set (S.Store.words store.old) at (packed label) }
    ensures count { length (S.Store.words store.new) ≡ length (S.Store.words store.old) }
    ensures rest { S.Store.rest store.new ≡ S.Store.rest store.old }
{
    if let Some(code) = label.pack() {
        put(store, at, code);
    }
}

/// Brings `n` words of 0 in before an element of the block that a codeword labels, with room behind it. The word before the block says
/// where the codeword stands.
#[tactic(auto, using(store::proofs::Moved::length_lifted, placement::proofs::Moves::length_renewed, store::proofs::Zeroed::length_zeroed))]
#[inline(always)]
pub fn grow<S: Store>(store: &mut S, label: Codeword, element: u64, n: u64)
    requires { InWidth label × (element ≤ label.length) × (n < 262144) }
    ensures grows { InWidth (longer n label) → S.Store.words store.new ≡ grown_words label element n (S.Store.words store.old) }
    ensures count { length (S.Store.words store.new) ≡ length (S.Store.words store.old) }
    ensures rest { S.Store.rest store.new ≡ S.Store.rest store.old }
{
    let place = word(store, label.first.saturating_sub(1));
    let from = label.first + element;
    let behind = label.length - element;
    copy_up(store, from, n, behind);
    clear(store, from, n);
    let longer = Codeword {
        length: label.length + n,
        ..label
    };
    put_label(store, place, longer);
    if label.r {
        renew(store, from + n..from + n + behind);
    }
}
