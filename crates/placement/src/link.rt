ghost use Rattle.layout.specs.Arrangement.{Piece};
ghost use Rattle.layout.specs.Chains.{Chained, InChain, Loose, Relinked};
ghost use Rattle.layout.specs.Gaps.{link};
ghost use Rattle.layout.specs.Released.{LinksAfter};
ghost use Rattle.placement.specs.Links.{Sought, spliced};
ghost use Rattle.std.specs.Prelude.{◌≡◌, List, ◌∷◌, length};

use crate::chain::{Link, head_at, put_head};
use crate::following::links_from;
use codeword::Head;
use store::{Store, clear};

/// Where a piece from `at` on belongs in the chain: the link that it breaks. The search begins at the gap at `from` if that lies below,
/// else at the header.
fn seek_from<S: Store>(store: &S, from: u64, at: u64) -> Link
    ensures { (gs : List Piece) → Chained (S.Store.words store.now) gs → InChain from gs → Sought at gs result.before result.next }
{
    let mut links = links_from(store, if from < at { from } else { 0 });
    links.find(|link| at < link.next).unwrap_or(links.end())
}

/// Writes a gap of `size` words at `at` between two others, and adds it to the total.
fn splice<S: Store>(store: &mut S, link: Link, at: u64, size: u64)
    ensures words { S.Store.words store.new ≡ spliced link.before link.next at size (S.Store.words store.old) }
    ensures rest { S.Store.rest store.new ≡ S.Store.rest store.old }
{
    let next = link.next;
    put_head(store, at, Head { size, next });
    let gap = head_at(store, link.before);
    put_head(store, link.before, Head { next: at, ..gap });
    let header = head_at(store, 0);
    let size = header.size.saturating_add(size);
    put_head(store, 0, Head { size, ..header });
}

/// Zeros the `size` words from `at` on and links them into the chain, which is searched from the gap at `from` on. They combine
/// with none.
#[tactic(auto, using(crate::proofs::Links::spliced_long, store::proofs::Zeroed::length_zeroed))]
#[inline(always)]
pub fn link_gap_after<S: Store>(store: &mut S, from: u64, at: u64, size: u64)
    ensures links { LinksAfter (S.Store.words store.old) from at size (S.Store.words store.new) }
    ensures count { length (S.Store.words store.new) ≡ length (S.Store.words store.old) }
    ensures rest { S.Store.rest store.new ≡ S.Store.rest store.old }
{
    clear(store, at, size);
    let link = seek_from(store, from, at);
    splice(store, link, at, size);
}

/// Zeros the `size` words from `at` on and links them into the chain. They combine with none.
pub fn link_gap<S: Store>(store: &mut S, at: u64, size: u64)
    ensures links { (p : Piece) (gs : List Piece) → p.start ≡ at → p.size ≡ size → Chained (S.Store.words store.old) gs → Loose p gs (length (S.Store.words store.old)) → Relinked (S.Store.words store.old) (S.Store.words store.new) (p ∷ gs) (link p gs) }
    ensures count { length (S.Store.words store.new) ≡ length (S.Store.words store.old) }
    ensures rest { S.Store.rest store.new ≡ S.Store.rest store.old }
{
    link_gap_after(store, 0, at, size);
}
