ghost use Rattle.std.specs.Prelude.{◌≡◌, ◌-◌, length};
ghost use Rattle.layout.specs.Released.{ClearsWithin, ReleasesWithin, Releases, Clears};

use codeword::Codeword;
use placement::link_gap_after;
use std::ops::Range;
use store::{Store, put, word};

/// What a release carries along: how many words it may still give to the chain, and the gap that it linked last. That is 0 where none
/// was linked yet, the address of the header, from which a search then begins. The levels that are left are no part of it, since each
/// call has its own.
#[derive(Clone, Copy)]
struct Progress {
    left: u64,
    last: u64,
}

impl Progress {
    /// At the start as many words as the store has, and no gap.
    fn from_start<S: Store>(store: &S) -> Progress
        ensures left { result.left ≡ length (S.Store.words store.now) }
        ensures last { result.last ≡ 0 }
    {
        Progress {
            left: store.count(),
            last: 0,
        }
    }
}

/// Links the blocks of the array at `at`, of at most `levels` blocks deep, into the chain, and zeros its codeword.
#[inline(always)]
pub fn vacate<S: Store>(store: &mut S, at: u64, levels: u8)
    ensures vacates { Releases levels (S.Store.words store.old) at (S.Store.words store.new) }
    ensures count { length (S.Store.words store.new) ≡ length (S.Store.words store.old) }
    ensures rest { S.Store.rest store.new ≡ S.Store.rest store.old }
{
    let progress = Progress::from_start(store);
    let _ = release(store, at, levels, progress);
}

/// Does so with the arrays below the codewords at these addresses.
pub fn vacate_each<S: Store>(store: &mut S, codes: Range<u64>, levels: u8)
    ensures vacates { Clears levels (S.Store.words store.old) codes.start (codes.end - codes.start) (S.Store.words store.new) }
    ensures count { length (S.Store.words store.new) ≡ length (S.Store.words store.old) }
    ensures rest { S.Store.rest store.new ≡ S.Store.rest store.old }
{
    let progress = Progress::from_start(store);
    let _ = release_each(store, codes, levels, progress);
}

/// The blocks of the array at `at` become gaps, those below first. It is inlined into the loop below, so that a row costs no call.
#[cycle(release_release_each)]
#[inline(always)]
fn release<S: Store>(store: &mut S, at: u64, levels: u8, progress: Progress) -> Progress
    ensures releases { ReleasesWithin levels (S.Store.words store.old) at progress.left progress.last (S.Store.words store.new) result.left result.last }
    ensures count { length (S.Store.words store.new) ≡ length (S.Store.words store.old) }
    ensures rest { S.Store.rest store.new ≡ S.Store.rest store.old }
{
    let code = word(store, at);
    if levels == 0 || code == 0 {
        return progress;
    }
    let label = Codeword::unpack(code);
    let size = label.length + 1;
    let Some(left) = progress.left.checked_sub(size) else {
        return progress;
    };
    let start = label.first.saturating_sub(1);
    let mut reached = Progress { left, ..progress };
    if label.r {
        let below = label.first..label.first + label.length;
        reached = release_each(store, below, levels - 1, reached);
    }
    link_gap_after(store, reached.last, start, size);
    put(store, at, 0);
    Progress {
        last: start,
        ..reached
    }
}

/// The same for the arrays below the codewords at these addresses, the first first.
#[cycle(release_release_each)]
fn release_each<S: Store>(
    store: &mut S,
    codes: Range<u64>,
    levels: u8,
    progress: Progress,
) -> Progress
    ensures clears { ClearsWithin levels (S.Store.words store.old) codes.start (codes.end - codes.start) progress.left progress.last (S.Store.words store.new) result.left result.last }
    ensures count { length (S.Store.words store.new) ≡ length (S.Store.words store.old) }
    ensures rest { S.Store.rest store.new ≡ S.Store.rest store.old }
{
    let mut reached = progress;
    for at in codes {
        reached = release(store, at, levels, reached);
    }
    reached
}
