ghost use Rattle.std.specs.Prelude.{◌≡◌, ℕ, ◌^◌, ◌<◌, length, map};

/// What the words of a data block mean. A kind has a type number, and turns an item into a word and a word into an item; each
/// turning undoes the other. It is no pair of `From`, since items are also numbers, whose `From` is not ours to write.
pub trait Kind {
    /// What a word of the block means.
    type Item: Copy;

    /// The type number of the blocks that hold such items.
    const TYPE: u64;

    // The same, for contracts.
    ghost TYPE: { ℕ };

    // The word of an item.
    ghost word: { Self.Item → ℕ };

    // The item that a word means.
    ghost item: { ℕ → Self.Item };

    /// The word of an item. It means that item again.
    fn to_word(x: Self::Item) -> u64
        ensures gives { result ≡ word x }
        ensures undone { item (word x) ≡ x };

    /// The item that a word means.
    fn from_word(w: u64) -> Self::Item
        ensures { result ≡ item w };

    /// The words of items, into a list of the same length.
    #[tactic(auto, using(crate::proofs::Turned::turned_all))]
    fn to_words(items: &[Self::Item], words: &mut [u64])
        requires { length items.now ≡ length words.old }
        ensures { words.new ≡ map word items.now }
    {
        // By slice and index.
        for (k, item) in items.iter().enumerate() {
            words[k] = Self::to_word(*item);
        }
    }

    /// The items that words mean, into a list of the same length.
    #[tactic(auto, using(crate::proofs::Turned::turned_all))]
    fn from_words(words: &[u64], items: &mut [Self::Item])
        requires { length words.now ≡ length items.old }
        ensures { items.new ≡ map item words.now }
    {
        for (k, word) in words.iter().enumerate() {
            items[k] = Self::from_word(*word);
        }
    }

    // A word means an item whose word it is.
    ghost back: { (n : ℕ) → n < 2 ^ 64 → word (item n) ≡ n };
}

/// An item of any kind, turned into its word and back: the item that it was.
pub fn item_again<K: Kind>(x: K::Item) -> K::Item
    ensures { result ≡ x }
{
    K::from_word(K::to_word(x))
}

/// A word, turned into the item of any kind and back: the word that it was.
pub fn word_again<K: Kind>(w: u64) -> u64
    ensures { result ≡ w }
{
    K::to_word(K::from_word(w))
}
