ghost use Rattle.std.specs.Prelude.{◌≡◌, ◌<◌, length, IfSome, unwrap_or};
ghost use Rattle.layout.specs.Room.{NoRoom, Room};

use crate::closing::tidy;
use crate::gaps::{combine, first_fit};
use store::Store;

/// Finds `need` words in a row, which leave the chain: in the first gap large enough, else once adjacent gaps are combined,
/// else once all blocks are closed up. Answers where they begin, or nothing if the gaps have fewer words in all.
pub fn room<S: Store>(store: &mut S, need: u64) -> Option<u64>
    ensures found { Room need (S.Store.words store.old) (unwrap_or result 0) (S.Store.words store.new) }
    ensures none { NoRoom need (S.Store.words store.old) (unwrap_or result 0) (S.Store.words store.new) }
    ensures small { IfSome result (λ at. (0 < at) × (at < 262144)) }
    ensures count { length (S.Store.words store.new) ≡ length (S.Store.words store.old) }
    ensures rest { S.Store.rest store.new ≡ S.Store.rest store.old }
{
    // In a chain of `or_else` the contract of a closure that is not called would leave open what becomes of the store that it borrows.
    let first = first_fit(store, need);
    if first.is_some() {
        return first;
    }
    combine(store);
    let second = first_fit(store, need);
    if second.is_some() {
        return second;
    }
    tidy(store);
    first_fit(store, need)
}
