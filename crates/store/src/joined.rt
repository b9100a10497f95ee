ghost use Rattle.store.specs.Members.{row_counted, row_fit};
ghost use Rattle.store.specs.Parts.{Lies};
ghost use Rattle.store.specs.Rests.{joined_rest};
ghost use Rattle.store.specs.Words.{joined_beyond, joined_words};

use crate::store::{MOST, Store};
use booking::Refusal;

/// Two stores, of which the second continues the first.
#[derive(Drop)]
pub struct Joined<A, B> {
    pub first: A,
    pub second: B,
}

/// In which of two stores in a row an address lies, and its address there.
#[derive(Drop)]
enum Place {
    InFirst(u64),
    InSecond(u64),
}

impl<A: Store, B: Store> Joined<A, B> {
    /// Where an address lies. Each count is asked once, and the first store's words come first: so the compiler goes straight to a store,
    /// and makes no number of the answer, to be taken apart again.
    #[tactic(auto, using(crate::specs::Members::length_row))]
    fn place(&self, at: u64) -> Result<Place, Refusal>
        ensures { Lies (A.Store.words self.now.first) (B.Store.words self.now.second) at result }
    {
        let n = self.first.count();
        let m = self.second.count();
        if at < n {
            return Ok(Place::InFirst(at));
        }
        let i = at - n;
        if at < MOST && i < m {
            Ok(Place::InSecond(i))
        } else {
            Err(Refusal::OutsideStore(at))
        }
    }
}

impl<A: Store, B: Store> Store for Joined<A, B> {
    ghost words = { λ s. joined_words (A.Store.words s.first) (B.Store.words s.second) };

    ghost counted = { λ s. row_counted (A.Store.words s.first) (B.Store.words s.second) };

    ghost fits = { λ s. row_fit (A.Store.words s.first) (B.Store.words s.second) (A.Store.fits s.first) (B.Store.fits s.second) };

    ghost rest = { λ s. joined_rest (joined_beyond (A.Store.words s.first) (B.Store.words s.second)) (A.Store.rest s.first) (B.Store.rest s.second) };

    #[tactic(auto, using(crate::specs::Members::length_row))]
    fn count(&self) -> u64 {
        (self.first.count() + self.second.count()).min(MOST)
    }

    fn get(&self, at: u64) -> Result<u64, Refusal> {
        match self.place(at)? {
            Place::InFirst(i) => self.first.get(i),
            Place::InSecond(i) => self.second.get(i),
        }
    }

    fn set(&mut self, at: u64, word: u64) -> Result<(), Refusal> {
        match self.place(at)? {
            Place::InFirst(i) => self.first.set(i, word),
            Place::InSecond(i) => self.second.set(i, word),
        }
    }
}
