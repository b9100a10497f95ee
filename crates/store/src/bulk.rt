// Many words at once, as far as there are words.
ghost use Rattle.std.specs.Prelude.{◌≡◌, ◌-◌, ◌≤◌, drop, length, map};
ghost use Rattle.store.specs.Edits.{copied, lifted, overlaid, overlaid_from, zeroed};

use crate::store::Store;
use booking::{Kind, Words};

/// How many words there are from an address on.
fn left<S: Store>(store: &S, from: u64) -> u64
    ensures { result ≡ length (S.Store.words store.now) - from }
{
    store.count().saturating_sub(from)
}

/// The n words from an address on become 0.
#[tactic(auto, using(crate::proofs::Copies::zero_none, crate::proofs::Copies::zero_all))]
pub fn clear<S: Store>(store: &mut S, from: u64, n: u64)
    ensures after { S.Store.words store.new ≡ zeroed (S.Store.words store.old) from n }
    ensures rest { S.Store.rest store.new ≡ S.Store.rest store.old }
{
    let n = n.min(left(store, from));
    if n > 0 {
        store.zero_words(from, n);
    }
}

/// Copies the n words from an address on to those from a lower one on, the first first. Past the last word 0 is read, and nothing written.
pub fn copy_down<S: Store>(store: &mut S, from: u64, to: u64, n: u64)
    requires { to ≤ from }
    ensures after { S.Store.words store.new ≡ copied n from to (S.Store.words store.old) }
    ensures rest { S.Store.rest store.new ≡ S.Store.rest store.old }
{
    let there = n.min(left(store, from));
    store.copy_words(from, to, there);
    if there < n {
        clear(store, to + there, n - there);
    }
}

/// Copies the n words from an address on up by so many addresses, the last first. Past the last word nothing is written.
pub fn copy_up<S: Store>(store: &mut S, from: u64, by: u64, n: u64)
    ensures after { S.Store.words store.new ≡ lifted n from by (S.Store.words store.old) }
    ensures rest { S.Store.rest store.new ≡ S.Store.rest store.old }
{
    let there = n.min(left(store, from.saturating_add(by)));
    store.lift_words(from, by, there);
}

/// Copies the words from an address on into a list, each as an item of the kind, as far as both go.
pub fn read_from<S: Store, K: Kind>(store: &S, from: u64, items: &mut [K::Item])
    ensures { map K.Kind.word items.new ≡ overlaid (drop from (S.Store.words store.now)) (map K.Kind.word items.old) }
{
    let n = left(store, from).min(items.len() as u64) as usize;
    if n > 0 {
        store.read_items::<K>(from, &mut items[..n]);
    }
}

/// Replaces the words from an address on by those of a list of items, as far as both go.
#[tactic(auto, using(crate::proofs::Copies::copied_in, crate::proofs::Copies::copied_none))]
pub fn write_from<S: Store, K: Kind>(store: &mut S, from: u64, items: &[K::Item])
    ensures after { S.Store.words store.new ≡ overlaid_from (map K.Kind.word items.now) from (S.Store.words store.old) }
    ensures rest { S.Store.rest store.new ≡ S.Store.rest store.old }
{
    let n = left(store, from).min(items.len() as u64) as usize;
    if n > 0 {
        store.write_items::<K>(from, &items[..n]);
    }
}

/// Copies the words to the front of a list, as many as both have.
pub fn copy_out<S: Store>(store: &S, list: &mut [u64])
    ensures { list.new ≡ overlaid (S.Store.words store.now) list.old }
{
    read_from::<S, Words>(store, 0, list);
}

/// Copies a list to the front of the words, as many as both have.
pub fn copy_in<S: Store>(store: &mut S, list: &[u64])
    ensures after { S.Store.words store.new ≡ overlaid list.now (S.Store.words store.old) }
    ensures rest { S.Store.rest store.new ≡ S.Store.rest store.old }
{
    write_from::<S, Words>(store, 0, list);
}
