ghost use Rattle.codeword.specs.Heads.{head_word};
ghost use Rattle.layout.specs.Chains.{next_at, size_at};
ghost use Rattle.std.specs.Prelude.{◌≡◌, ◌<◌, slice_set};

use codeword::Head;
use store::{Store, put, word};

/// Two places that come one after another in the chain: the address of a gap's first word, or of the header, and of the gap that it
/// links to; 0 where it links to none, as the words themselves say it, since no gap lies at the header.
#[derive(Clone, Copy)]
pub struct Link {
    pub before: u64,
    pub next: u64,
    pub ghost next_small: { next < 262144 },
}

/// Reads the first word of a gap, or the header.
pub fn head_at<S: Store>(store: &S, at: u64) -> Head
    ensures size { result.size ≡ size_at (S.Store.words store.now) at }
    ensures next { result.next ≡ next_at (S.Store.words store.now) at }
{
    Head::unpack(word(store, at))
}

/// Writes the first word of a gap, or the header.
pub fn put_head<S: Store>(store: &mut S, at: u64, head: Head)
    ensures words { S.Store.words store.new ≡ slice_set (S.Store.words store.old) at (head_word head.size head.next) }
    ensures rest { S.Store.rest store.new ≡ S.Store.rest store.old }
{
    put(store, at, head.word());
}

/// T: the words in all gaps, as the header has them.
pub fn free_words<S: Store>(store: &S) -> u64
    ensures { result ≡ size_at (S.Store.words store.now) 0 }
{
    head_at(store, 0).size
}
