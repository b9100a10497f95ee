ghost use Rattle.std.specs.Prelude.{◌≡◌, ◌<◌, ◌≤◌, length, ◌≢◌};
ghost use Rattle.layout.specs.Chains.{next_at};
ghost use Rattle.layout.specs.Holds.{Holds};
ghost use Rattle.layout.specs.Keeping.{tidied};
ghost use Rattle.placement.specs.Gaps.{gap_from};
ghost use Rattle.placement.specs.Moves.{OverBlock, OverGap, closing_from};

use crate::chain::{head_at, put_head};
use crate::mover::move_block;
use codeword::Head;
use store::{Store, clear};

/// Makes the words from `at` on the only gap; if there are none, there is no gap.
#[inline(always)]
pub fn leave_gap<S: Store>(store: &mut S, at: u64)
    ensures words { S.Store.words store.new ≡ gap_from at (S.Store.words store.old) }
    ensures rest { S.Store.rest store.new ≡ S.Store.rest store.old }
{
    let size = store.count().saturating_sub(at);
    if size == 0 {
        put_head(store, 0, Head { size: 0, next: 0 });
        return;
    }
    clear(store, at, size);
    put_head(store, at, Head { size, next: 0 });
    put_head(store, 0, Head { size, next: at });
}

/// Where closing up stands: at what comes next, with the blocks before it moved down to below `to`; the next gap begins at `link`,
/// which is 0 for none, as the words say it. Past the last word, `at` may be 262144 or more; `pass` is not called then.
#[derive(Clone, Copy)]
struct Scan {
    at: u64,
    to: u64,
    link: u64,
    ghost below: { to ≤ at },
}

impl Scan {
    /// At the first gap, or past the last word where there is none: nothing moves below.
    fn from_start<S: Store>(store: &S) -> Scan
        ensures at { result.at ≡ closing_from (S.Store.words store.now) }
        ensures to { result.to ≡ closing_from (S.Store.words store.now) }
        ensures link { result.link ≡ next_at (S.Store.words store.now) 0 }
    {
        let link = head_at(store, 0).next;
        let start = if link == 0 { store.count() } else { link };
        Scan {
            at: start,
            to: start,
            link,
        }
    }
}

/// Passes over a gap, or moves a block down.
#[inline(always)]
fn pass<S: Store>(store: &mut S, scan: Scan) -> Scan
    requires { scan.at < 262144 }
    ensures gap { scan.at ≡ scan.link → OverGap scan.at scan.to scan.link (S.Store.words store.old) result.at result.to result.link (S.Store.words store.new) }
    ensures block { (scan.at ≢ scan.link) → OverBlock scan.at scan.to scan.link (S.Store.words store.old) result.at result.to result.link (S.Store.words store.new) }
    ensures rest { S.Store.rest store.new ≡ S.Store.rest store.old }
{
    if scan.at == scan.link {
        let gap = head_at(store, scan.at);
        return Scan {
            at: scan.at + gap.size.max(1),
            to: scan.to,
            link: gap.next,
        };
    }
    let size = move_block(store, scan.at, scan.to);
    Scan {
        at: scan.at + size,
        to: scan.to + size,
        link: scan.link,
    }
}

/// Closes the blocks up from the first gap, in the order of their addresses, with one gap behind them.
#[tactic(auto, using(crate::proofs::Tail::length_gap_from))]
#[inline(always)]
pub fn tidy<S: Store>(store: &mut S)
    ensures words { Holds (S.Store.words store.old) → S.Store.words store.new ≡ tidied (S.Store.words store.old) }
    ensures count { length (S.Store.words store.new) ≡ length (S.Store.words store.old) }
    ensures rest { S.Store.rest store.new ≡ S.Store.rest store.old }
{
    let count = store.count();
    let mut scan = Scan::from_start(store);
    // No range or iterator is plainer: each turn goes on by as many words as the gap or the block has, and changes the store.
    while scan.at < count {
        scan = pass(store, scan);
    }
    leave_gap(store, scan.to);
}
