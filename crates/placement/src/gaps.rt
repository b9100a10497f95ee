ghost use Rattle.std.specs.Prelude.{◌≡◌, ℕ, ◌<◌, ◌≤◌, List, length, if◌then◌else◌, MatchOption, IfSome, unwrap_or};
ghost use Rattle.layout.specs.Arrangement.{Piece};
ghost use Rattle.layout.specs.Chains.{Chained, Relinked, next_at};
ghost use Rattle.layout.specs.Gaps.{combined, first_fit_of};
ghost use Rattle.placement.specs.Gaps.{Finds, PlacedIn, Spotted, cut, joined, touch};

use crate::chain::{Link, head_at, put_head};
use crate::following::{link_at, links_from};
use codeword::Head;
use store::{Store, put};

/// The link to the first gap of `need` words, if there is one.
fn spot<S: Store>(store: &S, need: u64) -> Option<Link>
    ensures some { IfSome result (λ link. 0 < link.next) }
    ensures first { (gs : List Piece) → Chained (S.Store.words store.now) gs → MatchOption result ((at : ℕ) × Spotted need gs at 0) (λ link. Spotted need gs link.before link.next) }
{
    links_from(store, 0).find(|link| need <= head_at(store, link.next).size)
}

/// Takes the front of the gap that is linked to out of the chain.
fn cut_front<S: Store>(store: &mut S, link: Link, need: u64)
    ensures words { S.Store.words store.new ≡ cut link.before link.next need (S.Store.words store.old) }
    ensures rest { S.Store.rest store.new ≡ S.Store.rest store.old }
{
    let at = link.next;
    let gap = head_at(store, at);
    let mut next = gap.next;
    if need < gap.size {
        let size = gap.size - need;
        put_head(store, at + need, Head { size, next });
        next = at + need;
    }
    let before = head_at(store, link.before);
    put_head(store, link.before, Head { next, ..before });
    let header = head_at(store, 0);
    let size = header.size.saturating_sub(need);
    put_head(store, 0, Head { size, ..header });
}

/// The first gap of `need` words gives its front. Answers where that begins, if there is such a gap.
#[tactic(auto, using(crate::proofs::Search::fit_done))]
#[inline(always)]
pub fn first_fit<S: Store>(store: &mut S, need: u64) -> Option<u64>
    ensures finds { (gs : List Piece) → Chained (S.Store.words store.old) gs → Finds need gs (unwrap_or result 0) }
    ensures leaves { (gs : List Piece) → Chained (S.Store.words store.old) gs → 1 ≤ need → PlacedIn need (S.Store.words store.old) gs (unwrap_or result 0) (S.Store.words store.new) (first_fit_of need gs) }
    ensures small { IfSome result (λ at. (0 < at) × (at < 262144)) }
    ensures count { length (S.Store.words store.new) ≡ length (S.Store.words store.old) }
    ensures rest { S.Store.rest store.new ≡ S.Store.rest store.old }
{
    let link = spot(store, need)?;
    cut_front(store, link, need);
    Some(link.next)
}

/// Joins the gap that is linked to to the one before it where they touch. Answers the link from the one that then comes last. A
/// `Link` in general may begin at any address, where a search does, so the bound on it is asked for here.
fn join_next<S: Store>(store: &mut S, link: Link) -> Link
    requires { link.before < 262144 }
    ensures last { result.before ≡ (if touch link.before link.next (S.Store.words store.old) then link.before else link.next) }
    ensures next { result.next ≡ next_at (S.Store.words store.old) link.next }
    ensures words { S.Store.words store.new ≡ (if touch link.before link.next (S.Store.words store.old) then joined link.before link.next (S.Store.words store.old) else S.Store.words store.old) }
    ensures rest { S.Store.rest store.new ≡ S.Store.rest store.old }
{
    let gap = head_at(store, link.before);
    if link.before + gap.size != link.next {
        return link_at(store, link.next);
    }
    let after = head_at(store, link.next);
    let size = gap.size + after.size;
    put_head(store, link.before, Head { size, ..after });
    put(store, link.next, 0);
    Link {
        before: link.before,
        next: after.next,
    }
}

/// Adjacent gaps combine.
#[tactic(auto, using(crate::proofs::Merges::merge_start, crate::proofs::Merges::turn, crate::proofs::Merges::turn_ends, crate::proofs::Merges::merge_end, crate::proofs::Merges::last_small, crate::proofs::Merges::turned_long))]
pub fn combine<S: Store>(store: &mut S)
    ensures combines { (gs : List Piece) → Chained (S.Store.words store.old) gs → Relinked (S.Store.words store.old) (S.Store.words store.new) gs (combined gs) }
    ensures count { length (S.Store.words store.new) ≡ length (S.Store.words store.old) }
    ensures rest { S.Store.rest store.new ≡ S.Store.rest store.old }
{
    // The loop changes the chain that it follows, which `links_from` would borrow.
    let mut link = link_at(store, head_at(store, 0).next);
    while link.before < link.next {
        let reached = link.next;
        link = join_next(store, link);
        if link.next <= reached {
            return;
        }
    }
}
