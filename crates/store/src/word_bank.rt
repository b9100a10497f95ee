ghost use Rattle.store.specs.Members.{lent_counted, lent_fit};
ghost use Rattle.store.specs.Words.{beyond, lent_words};

use crate::bank::{Bank, Lendable};
use crate::store::MOST;
use booking::Kind;

/// A store in words that the caller lends. Words past the most are not counted and never written.
pub type WordBank<'a> = Bank<'a, u64>;

impl Lendable for u64 {
    ghost words = { lent_words };

    ghost past = { beyond };

    ghost counted = { lent_counted };

    ghost fits = { lent_fit };

    #[tactic(auto, using(crate::specs::Members::length_lent))]
    fn words_in(list: &[u64]) -> u64 {
        (list.len() as u64).min(MOST)
    }

    // Two comparisons, since the lesser of two numbers would be found anew after each word that is written.
    #[tactic(auto, using(crate::specs::Members::length_lent))]
    fn has_word(list: &[u64], at: u64) -> bool {
        at < MOST && at < list.len() as u64
    }

    #[tactic(auto, using(crate::specs::Members::length_lent, crate::proofs::Fronts::lent_word))]
    fn word_of(list: &[u64], at: u64) -> u64 {
        list[at as usize]
    }

    #[tactic(auto, using(crate::specs::Members::length_lent, crate::proofs::Fronts::lent_set, crate::proofs::Fronts::beyond_set))]
    fn write_word(list: &mut [u64], at: u64, word: u64) {
        list[at as usize] = word;
    }

    #[tactic(auto, using(crate::specs::Members::length_lent))]
    fn read_items<K: Kind>(list: &[u64], from: u64, items: &mut [K::Item]) {
        let from = from as usize;
        K::from_words(&list[from..from + items.len()], items);
    }

    #[tactic(auto, using(crate::specs::Members::length_lent))]
    fn write_items<K: Kind>(list: &mut [u64], from: u64, items: &[K::Item]) {
        let from = from as usize;
        K::to_words(items, &mut list[from..from + items.len()]);
    }
}
