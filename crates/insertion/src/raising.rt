ghost use Rattle.insertion.specs.Raises.{Raises, above, renamed_at};
ghost use Rattle.placement.specs.Moves.{block_size};
ghost use Rattle.std.specs.Prelude.{◌≡◌, ◌+◌, ◌<◌, ◌^◌, length, slice_index};

use codeword::{Codeword, Head};
use layout::FIRST;
use placement::{aimed, leave_gap};
use store::{Store, copy_up, put, word};

/// Which words go up, and by how much: those from `point` on.
#[derive(Clone, Copy)]
pub struct Rise {
    pub point: u64,
    pub by: u64,
    ghost small: { by < 262144 },
}

impl Rise {
    /// Where a word then stands.
    fn lift(self, at: u64) -> u64
        ensures { at + self.by < 2 ^ 64 → result ≡ above self.point self.by at }
    {
        if at < self.point {
            at
        } else {
            at.saturating_add(self.by)
        }
    }
}

/// Has the block whose back-reference stands at `at`, and its codeword, name the addresses where both will stand. Answers how many words
/// the block has.
#[inline(always)]
fn rename<S: Store>(store: &mut S, at: u64, rise: Rise) -> u64
    requires { at < 262144 }
    ensures size { result ≡ block_size (S.Store.words store.old) at }
    ensures words { slice_index (S.Store.words store.old) at < 262144 → S.Store.words store.new ≡ renamed_at rise.point rise.by at (S.Store.words store.old) }
    ensures count { length (S.Store.words store.new) ≡ length (S.Store.words store.old) }
    ensures rest { S.Store.rest store.new ≡ S.Store.rest store.old }
{
    let owner = word(store, at);
    let code = word(store, owner);
    put(store, owner, aimed(code, rise.lift(at) + 1));
    put(store, at, rise.lift(owner));
    Codeword::unpack(code).length + 1
}

/// All blocks from an address on go up, and the one gap behind them gives the words.
#[tactic(auto, using(store::proofs::Moved::length_lifted, placement::proofs::Tail::length_gap_from))]
#[inline(always)]
pub fn raise<S: Store>(store: &mut S, rise: Rise)
    ensures raises { Raises rise.point rise.by (S.Store.words store.old) (S.Store.words store.new) }
    ensures count { length (S.Store.words store.new) ≡ length (S.Store.words store.old) }
    ensures rest { S.Store.rest store.new ≡ S.Store.rest store.old }
{
    let end = Head::unpack(word(store, 0)).next;
    let mut at = FIRST;
    // No range is plainer: each turn goes on by as many words as the block has, and changes the store.
    while at < end {
        at += rename(store, at, rise);
    }
    copy_up(store, rise.point, rise.by, end.saturating_sub(rise.point));
    leave_gap(store, end + rise.by);
}
