// A mark for each address.
ghost use Rattle.std.specs.Prelude.{◌≡◌, ◌<◌, true, false, length, Decides, slice_index_or, slice_set};
ghost use Rattle.judge.specs.Marks.{Down, Zeros, has_bit, flags};

use store::MOST;

/// The words that keep a mark for each address that a store can have.
const WORDS: usize = MOST as usize / 64;

/// Marks at the addresses of a store, one bit each, 64 to a word.
#[derive(Drop)]
pub(crate) struct Marks {
    // A bit for each address, and no list of flags that grows: there is no heap, and memory is fixed.
    pub(crate) bits: [u64; WORDS],
    ghost room: { length bits ≡ 4096 },
}

impl Marks {
    /// Every mark is down.
    pub(crate) fn new() -> Marks
        ensures { Down (flags result.bits) }
    {
        Marks { bits: [0; WORDS] }
    }

    /// Whether the mark at an address is up; past the last mark none is.
    #[tactic(auto, using(crate::proofs::Bits::getD_flags))]
    pub(crate) fn is_up(&self, at: usize) -> bool
        ensures { result ≡ slice_index_or (flags self.now.bits) at false }
    {
        self.bits
            .get(at / 64)
            .is_some_and(|word| bit(*word, at % 64))
    }

    /// Puts the mark at an address up; past the last mark it does nothing.
    #[tactic(auto, using(crate::proofs::Bits::set_past_marks))]
    pub(crate) fn raise(&mut self, at: usize)
        ensures { flags self.new.bits ≡ slice_set (flags self.old.bits) at true }
    {
        if at / 64 < WORDS {
            self.bits[at / 64] |= 1 << (at % 64);
        }
    }

    /// Takes down a mark that is up.
    #[tactic(auto, using(crate::proofs::Bits::up_within))]
    pub(crate) fn lower(&mut self, at: usize)
        requires { slice_index_or (flags self.old.bits) at false ≡ true }
        ensures { flags self.new.bits ≡ slice_set (flags self.old.bits) at false }
    {
        self.bits[at / 64] ^= 1 << (at % 64);
    }

    /// Whether no mark is up.
    pub(crate) fn none_up(&self) -> bool
        ensures { Decides result (Down (flags self.now.bits)) }
    {
        all_zero(&self.bits)
    }
}

/// A bit of a word, the lowest first. The crate codeword has a function like it that is private and stops at bit 62; marks need bit 63.
fn bit(word: u64, at: usize) -> bool
    requires { at < 64 }
    ensures { result ≡ has_bit word at }
{
    (word >> at) % 2 == 1
}

/// Whether every word of a list is 0, and so every mark down that its bits keep.
pub(crate) fn all_zero(words: &[u64]) -> bool
    ensures zeros { Decides result (Zeros words.now) }
    ensures marks { Decides result (Down (flags words.now)) }
{
    words.iter().all(|word| *word == 0)
}
