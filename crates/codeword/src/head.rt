ghost use Rattle.std.specs.Prelude.{◌≡◌};
ghost use Rattle.codeword.specs.Heads.{head_in, head_word};

use crate::FIELD;

/// What the first word of a gap says: how many words the gap has, and the address of the next gap. The header says so of all gaps and
/// the first. That there is none is said by 0, as the word says it: at 0 stands the header.
#[derive(Clone, Copy, PartialEq, Eq, Debug)]
pub struct Head {
    pub size: u64,
    pub next: u64,
}

impl Head {
    /// The two numbers that a word holds, whatever its other bits are.
    pub fn unpack(word: u64) -> Head
        ensures { result ≡ head_in word }
    {
        Head {
            size: word % FIELD,
            next: word / FIELD % FIELD,
        }
    }

    /// The word that holds the two, or of each what 18 bits hold of it.
    pub fn word(self) -> u64
        ensures { result ≡ head_word self.size self.next }
    {
        self.size % FIELD + self.next % FIELD * FIELD
    }
}
