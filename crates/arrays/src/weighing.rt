ghost use Rattle.std.specs.Prelude.{◌-◌, ◌≤◌, length};
ghost use Rattle.layout.specs.Weights.{Weighs, WeighsEach};

use codeword::Codeword;
use std::ops::Range;
use store::{Store, word};

/// The words that the array at `at` takes up, of at most `levels` blocks deep.
pub fn weight<S: Store>(store: &S, at: u64, levels: u8) -> u64
    ensures weighs { Weighs levels (S.Store.words store.now) at (length (S.Store.words store.now)) result }
    ensures within { result ≤ length (S.Store.words store.now) }
{
    weigh(store, at, levels, store.count())
}

/// The same, up to a limit. It is inlined into the loop below, so that a row costs no call.
#[cycle(weigh_weigh_each)]
#[inline(always)]
fn weigh<S: Store>(store: &S, at: u64, levels: u8, limit: u64) -> u64
    ensures weighs { Weighs levels (S.Store.words store.now) at limit result }
    ensures within { result ≤ limit }
{
    let code = word(store, at);
    if levels == 0 || code == 0 {
        return 0;
    }
    let label = Codeword::unpack(code);
    let own = label.length + 1;
    if limit < own {
        return limit;
    }
    if !label.r {
        return own;
    }
    let below = label.first..label.first + label.length;
    own + weigh_each(store, below, levels - 1, limit - own)
}

/// The words that the arrays below the codewords at these addresses take up, up to a limit.
#[cycle(weigh_weigh_each)]
fn weigh_each<S: Store>(store: &S, codes: Range<u64>, levels: u8, limit: u64) -> u64
    ensures weighs { WeighsEach levels (S.Store.words store.now) codes.start (codes.end - codes.start) limit result }
    ensures within { result ≤ limit }
{
    let mut sum = 0;
    for at in codes {
        sum += weigh(store, at, levels, limit - sum);
    }
    sum
}
