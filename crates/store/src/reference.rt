ghost use Rattle.std.specs.Prelude.{◌∷◌};

use crate::store::Store;
use booking::{Kind, Refusal};

/// A reference to a store is a store, so that a caller can lend it to a keeper, and still learns after each call what it then holds.
impl<'b, S: Store> Store for &'b mut S {
    ghost words = { λ s. S.words s.now };

    ghost counted = { λ s. S.counted s.now };

    ghost fits = { λ s. S.fits s.now };

    ghost rest = { λ s. record { past = (S.rest s.now).past; lenders = s.ghost_name ∷ (S.rest s.now).lenders } };

    fn count(&self) -> u64 {
        let store = &**self;
        store.count()
    }

    fn get(&self, at: u64) -> Result<u64, Refusal> {
        let store = &**self;
        store.get(at)
    }

    fn set(&mut self, at: u64, word: u64) -> Result<(), Refusal> {
        let store = &mut **self;
        store.set(at, word)
    }

    fn copy_words(&mut self, from: u64, to: u64, n: u64) {
        let store = &mut **self;
        store.copy_words(from, to, n);
    }

    fn lift_words(&mut self, from: u64, by: u64, n: u64) {
        let store = &mut **self;
        store.lift_words(from, by, n);
    }

    fn zero_words(&mut self, from: u64, n: u64) {
        let store = &mut **self;
        store.zero_words(from, n);
    }

    fn read_items<K: Kind>(&self, from: u64, items: &mut [K::Item]) {
        let store = &**self;
        store.read_items::<K>(from, items);
    }

    fn write_items<K: Kind>(&mut self, from: u64, items: &[K::Item]) {
        let store = &mut **self;
        store.write_items::<K>(from, items);
    }
}
