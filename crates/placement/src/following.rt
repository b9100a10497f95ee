ghost use Rattle.layout.specs.Chains.{next_at};
ghost use Rattle.placement.specs.Follows.{Follows};
ghost use Rattle.std.specs.Iterator.{at_most};
ghost use Rattle.std.specs.Prelude.{◌≡◌, ◌-◌};

use crate::chain::{Link, head_at};
use store::Store;

/// The link that the word at an address holds, that of a gap or the header.
pub fn link_at<S: Store>(store: &S, at: u64) -> Link
    ensures before { result.before ≡ at }
    ensures next { result.next ≡ next_at (S.Store.words store.now) at }
{
    Link {
        before: at,
        next: head_at(store, at).next,
    }
}

/// The links of the chain, one after another. Over any words each begins past the one before it, so they end.
#[derive(Drop)]
pub struct Links<'a, S> {
    store: &'a S,
    link: Link,
}

/// The links from the gap at an address on, or from the header on.
pub fn links_from<S: Store>(store: &S, at: u64) -> Links<'_, S>
    ensures words { S.Store.words result.store.now ≡ S.Store.words store.now }
    ensures before { result.link.before ≡ at }
    ensures next { result.link.next ≡ next_at (S.Store.words store.now) at }
{
    Links {
        store,
        link: link_at(store, at),
    }
}

impl<S: Store> Links<'_, S> {
    /// Where the chain ends, once every link has been given: the last gap links to none.
    pub fn end(&self) -> Link
        ensures before { result.before ≡ self.now.link.before }
        ensures next { result.next ≡ 0 }
    {
        Link {
            before: self.link.before,
            next: 0,
        }
    }
}

impl<'a, S: Store> Iterator for Links<'a, S> {
    type Item = Link;

    ghost next_gives = { λ s found t. (S.Store.words t.store.now ≡ S.Store.words s.store.now) × Follows (S.Store.words s.store.now) s.link found t.link };

    ghost remaining = { λ s. at_most (262144 - s.link.before) };

    fn next(&mut self) -> Option<Link> {
        let link = self.link;
        if link.next <= link.before {
            return None;
        }
        self.link = link_at(self.store, link.next);
        Some(link)
    }
}
