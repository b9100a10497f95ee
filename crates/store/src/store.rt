ghost use Rattle.std.specs.Prelude.{◌≡◌, ℕ, ◌+◌, ◌-◌, ◌≤◌, List, length, map, slice_set};
ghost use Rattle.store.specs.Answers.{get_answer, set_answer};
ghost use Rattle.store.specs.Edits.{copied, laid, lifted, part, zeros};
ghost use Rattle.store.specs.Rests.{Rest};
ghost use Rattle.store.specs.Words.{Fit, most};

use booking::{Kind, Refusal};

/// The most words that a store counts, as many as 18 bits number.
pub const MOST: u64 = 262144;

/// A store means a list of words.
pub trait Store {
    // Its words, from address 0 on.
    ghost words: { Self → List ℕ };

    // No store counts more than the most: each make shows it.
    ghost counted: { (s : Self) → length (words s) ≤ most };

    // Every word has 64 bits: each make shows it.
    ghost fits: { (s : Self) → Fit (words s) };

    // What lies past the words, and who lent it: no call changes it. Each says so itself, and that the count stays, since it speaks of the
    // store before and after, and an invariant of one store alone.
    ghost rest: { Self → Rest };

    /// How many words there are.
    fn count(&self) -> u64
        ensures { result ≡ length (words self.now) };

    /// The word at an address.
    fn get(&self, at: u64) -> Result<u64, Refusal>
        ensures { result ≡ get_answer (words self.now) at };

    /// Replaces the word at an address.
    fn set(&mut self, at: u64, word: u64) -> Result<(), Refusal>
        ensures answer { result ≡ set_answer (words self.old) at }
        ensures after { words self.new ≡ slice_set (words self.old) at word }
        ensures rest { rest self.new ≡ rest self.old };

    /// Copies the n words from an address on to those from a lower one on, the first first.
    #[tactic(auto, using(crate::proofs::Moved::copied_next, crate::proofs::Moved::copied_none))]
    fn copy_words(&mut self, from: u64, to: u64, n: u64)
        requires { (to ≤ from) × (n ≤ length (words self.old) - from) }
        ensures after { words self.new ≡ copied n from to (words self.old) }
        ensures rest { rest self.new ≡ rest self.old }
    {
        for i in 0..n {
            let word = self.get(from + i).unwrap_or(0);
            let _ = self.set(to + i, word);
        }
    }

    /// Copies the n words from an address on up by so many addresses, the last first.
    #[tactic(auto, using(crate::proofs::Moved::lifted_next, crate::proofs::Moved::lifted_none))]
    fn lift_words(&mut self, from: u64, by: u64, n: u64)
        requires { n ≤ length (words self.old) - (from + by) }
        ensures after { words self.new ≡ lifted n from by (words self.old) }
        ensures rest { rest self.new ≡ rest self.old }
    {
        for i in (0..n).rev() {
            let word = self.get(from + i).unwrap_or(0);
            let _ = self.set(from + i + by, word);
        }
    }

    /// The n words from an address on become 0.
    #[tactic(auto, using(crate::proofs::Copies::zero_none, crate::proofs::Copies::zero_more))]
    fn zero_words(&mut self, from: u64, n: u64)
        requires { from + n ≤ length (words self.old) }
        ensures after { words self.new ≡ zeros (words self.old) from n }
        ensures rest { rest self.new ≡ rest self.old }
    {
        for at in from..from + n {
            let _ = self.set(at, 0);
        }
    }

    /// Copies as many words as the list has, from an address on, into the list, each as an item of the kind.
    fn read_items<K: Kind>(&self, from: u64, items: &mut [K::Item])
        requires { from + length items.old ≤ length (words self.now) }
        ensures { map K.Kind.word items.new ≡ part from (length items.old) (words self.now) }
    {
        for (k, item) in items.iter_mut().enumerate() {
            *item = K::from_word(self.get(from + k as u64).unwrap_or(0));
        }
    }

    /// Replaces as many words as the list has, from an address on, by the words of its items.
    fn write_items<K: Kind>(&mut self, from: u64, items: &[K::Item])
        requires { from + length items.now ≤ length (words self.old) }
        ensures after { words self.new ≡ laid (map K.Kind.word items.now) from (words self.old) }
        ensures rest { rest self.new ≡ rest self.old }
    {
        // By slice and index.
        for (k, item) in items.iter().enumerate() {
            let _ = self.set(from + k as u64, K::to_word(*item));
        }
    }
}
