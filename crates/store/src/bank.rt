ghost use Rattle.std.specs.Prelude.{◌≡◌, ℕ, ◌+◌, ◌-◌, ◌<◌, ◌≤◌, List, length, map, nat_lt, slice_index, slice_set};
ghost use Rattle.store.specs.Edits.{copied, laid, lifted, part, zeros};
ghost use Rattle.store.specs.Rests.{lent_rest};
ghost use Rattle.store.specs.Words.{Fit, most};

use crate::store::Store;
use booking::{Kind, Refusal};

/// What a list that a caller lends may be made of, and the words that are counted of it.
pub trait Lendable: Copy {
    // The words that are counted of a list.
    ghost words: { List Self → List ℕ };

    // What lies past them.
    ghost past: { List Self → List ℕ };

    // No more than the most are counted: each make shows it.
    ghost counted: { (list : List Self) → length (words list) ≤ most };

    // Every word has 64 bits: each make shows it.
    ghost fits: { (list : List Self) → Fit (words list) };

    /// How many words are counted of a list.
    fn words_in(list: &[Self]) -> u64
        ensures { result ≡ length (words list.now) };

    /// Whether there is a counted word at an address.
    fn has_word(list: &[Self], at: u64) -> bool
        ensures { result ≡ nat_lt at (length (words list.now)) }
    {
        at < Self::words_in(list)
    }

    /// A counted word of a list.
    fn word_of(list: &[Self], at: u64) -> u64
        requires { at < length (words list.now) }
        ensures { result ≡ slice_index (words list.now) at };

    /// Replaces a counted word of a list.
    fn write_word(list: &mut [Self], at: u64, word: u64)
        requires { at < length (words list.old) }
        ensures after { words list.new ≡ slice_set (words list.old) at word }
        ensures rest { past list.new ≡ past list.old };

    /// Copies as many counted words as the list of items has, from an address on, into it, each as an item of the kind.
    fn read_items<K: Kind>(list: &[Self], from: u64, items: &mut [K::Item])
        requires { from + length items.old ≤ length (words list.now) }
        ensures { map K.Kind.word items.new ≡ part from (length items.old) (words list.now) }
    {
        for (k, item) in items.iter_mut().enumerate() {
            *item = K::from_word(Self::word_of(list, from + k as u64));
        }
    }

    /// Replaces as many counted words as the list of items has, from an address on, by the words of its items.
    fn write_items<K: Kind>(list: &mut [Self], from: u64, items: &[K::Item])
        requires { from + length items.now ≤ length (words list.old) }
        ensures after { words list.new ≡ laid (map K.Kind.word items.now) from (words list.old) }
        ensures rest { past list.new ≡ past list.old }
    {
        // By slice and index.
        for (k, item) in items.iter().enumerate() {
            Self::write_word(list, from + k as u64, K::to_word(*item));
        }
    }
}

/// A store in a list that the caller lends. What lies past its counted words is never written.
#[derive(Drop)]
pub struct Bank<'a, E> {
    pub lent: &'a mut [E],
}

/// Copies the n words from an address on to those from a lower one on, the first first. The list is at hand here and not behind a store,
/// so that no turn reads again where it lies and how long it is.
#[tactic(auto, using(crate::proofs::Moved::copied_next, crate::proofs::Moved::copied_none, crate::proofs::Moved::length_copied))]
fn copy_within<E: Lendable>(list: &mut [E], from: u64, to: u64, n: u64)
    requires { (to ≤ from) × (n ≤ length (E.Lendable.words list.old) - from) }
    ensures after { E.Lendable.words list.new ≡ copied n from to (E.Lendable.words list.old) }
    ensures rest { E.Lendable.past list.new ≡ E.Lendable.past list.old }
{
    for i in 0..n {
        let word = E::word_of(list, from + i);
        E::write_word(list, to + i, word);
    }
}

/// Copies the n words from an address on up by so many addresses, the last first.
#[tactic(auto, using(crate::proofs::Moved::lifted_next, crate::proofs::Moved::lifted_none))]
fn lift_within<E: Lendable>(list: &mut [E], from: u64, by: u64, n: u64)
    requires { n ≤ length (E.Lendable.words list.old) - (from + by) }
    ensures after { E.Lendable.words list.new ≡ lifted n from by (E.Lendable.words list.old) }
    ensures rest { E.Lendable.past list.new ≡ E.Lendable.past list.old }
{
    for i in (0..n).rev() {
        let word = E::word_of(list, from + i);
        E::write_word(list, from + i + by, word);
    }
}

/// The n words from an address on become 0.
#[tactic(auto, using(crate::proofs::Copies::zero_none, crate::proofs::Copies::zero_more))]
fn zero_in<E: Lendable>(list: &mut [E], from: u64, n: u64)
    requires { from + n ≤ length (E.Lendable.words list.old) }
    ensures after { E.Lendable.words list.new ≡ zeros (E.Lendable.words list.old) from n }
    ensures rest { E.Lendable.past list.new ≡ E.Lendable.past list.old }
{
    for at in from..from + n {
        E::write_word(list, at, 0);
    }
}

impl<'a, E: Lendable> Bank<'a, E> {
    /// Whether there is a counted word at an address.
    fn has_word(&self, at: u64) -> bool
        ensures { result ≡ nat_lt at (length (E.Lendable.words self.now.lent.now)) }
    {
        E::has_word(self.lent, at)
    }
}

impl<'a, E: Lendable> Store for Bank<'a, E> {
    ghost words = { λ s. E.words s.lent.now };

    ghost counted = { λ s. E.counted s.lent.now };

    ghost fits = { λ s. E.fits s.lent.now };

    ghost rest = { λ s. lent_rest (E.past s.lent.now) s.lent.ghost_name };

    fn count(&self) -> u64 {
        E::words_in(self.lent)
    }

    fn get(&self, at: u64) -> Result<u64, Refusal> {
        if self.has_word(at) {
            Ok(E::word_of(self.lent, at))
        } else {
            Err(Refusal::OutsideStore(at))
        }
    }

    fn set(&mut self, at: u64, word: u64) -> Result<(), Refusal> {
        if Self::has_word(self, at) {
            E::write_word(self.lent, at, word);
            Ok(())
        } else {
            Err(Refusal::OutsideStore(at))
        }
    }

    fn copy_words(&mut self, from: u64, to: u64, n: u64) {
        copy_within(self.lent, from, to, n);
    }

    fn lift_words(&mut self, from: u64, by: u64, n: u64) {
        lift_within(self.lent, from, by, n);
    }

    fn zero_words(&mut self, from: u64, n: u64) {
        zero_in(self.lent, from, n);
    }

    fn read_items<K: Kind>(&self, from: u64, items: &mut [K::Item]) {
        E::read_items::<K>(self.lent, from, items);
    }

    fn write_items<K: Kind>(&mut self, from: u64, items: &[K::Item]) {
        E::write_items::<K>(self.lent, from, items);
    }
}
