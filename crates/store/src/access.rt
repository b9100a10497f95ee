// A store read and written without refusals: an address past the end reads 0, and nothing is written there.
ghost use Rattle.std.specs.Prelude.{◌≡◌, slice_index, slice_set};

use crate::store::Store;

/// The word at an address, 0 past the end.
pub fn word<S: Store>(store: &S, at: u64) -> u64
    ensures { result ≡ slice_index (S.Store.words store.now) at }
{
    store.get(at).unwrap_or(0)
}

/// Replaces the word at an address, and does nothing past the end.
pub fn put<S: Store>(store: &mut S, at: u64, word: u64)
    ensures after { S.Store.words store.new ≡ slice_set (S.Store.words store.old) at word }
    ensures rest { S.Store.rest store.new ≡ S.Store.rest store.old }
{
    let _ = store.set(at, word);
}
