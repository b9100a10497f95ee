// Codewords, the labels of blocks, and the heads of gaps: as fields and as one word.
#![tactic(auto)]

ghost use Rattle.std.specs.Prelude.{◌≡◌, ◌^◌, ◌<◌, Decides};
ghost use Rattle.codeword.specs.Codeword.{InWidth, packed, unpacked, Packs};
ghost use Rattle.codeword.specs.Lawful.{lawful};

mod bits;
mod head;

use bits::{digit, field, signed, unsigned};
pub use head::Head;

/// One more than the largest address or length: a word has 18 bits for either.
pub const FIELD: u64 = 262144;

/// The highest type number of what a block holds.
pub const LAST_TYPE: u8 = 2;

/// The fields of a codeword, which labels a block; the word 0 labels nothing.
#[derive(Clone, Copy, PartialEq, Eq, Debug)]
pub struct Codeword {
    /// The address of the block's first word, below 2 to the 18th.
    pub first: u64,
    /// How many words the block has, below 2 to the 18th.
    pub length: u64,
    /// The subscript of the block's first word.
    pub base: i16,
    /// The digit p.
    pub p: bool,
    /// The digit q.
    pub q: bool,
    /// The digit r: the block holds codewords.
    pub r: bool,
    /// The digit s.
    pub s: bool,
    /// The type number of what the block holds, below 4. It is no enum of the kinds, since every word unpacks, also one of type 3,
    /// which no block has.
    pub kind: u8,
}

// The readings of a word have names and are no `From`, since a word is read as a codeword, a head, an item or an address; so has each
// writing, which of `pack` may answer none.
impl Codeword {
    /// The fields that a word holds.
    pub fn unpack(word: u64) -> Codeword
        ensures gives { result ≡ unpacked word }
        ensures within { InWidth result }
        ensures undone { word < 2 ^ 58 → packed result ≡ word }
    {
        Codeword {
            first: field(word, 0, 18),
            length: field(word, 18, 18),
            base: signed(field(word, 36, 16)),
            p: digit(word, 52),
            q: digit(word, 53),
            r: digit(word, 54),
            s: digit(word, 55),
            kind: field(word, 56, 2) as u8,
        }
    }

    /// The word that holds the fields; none where a field is too large for its bits.
    #[tactic(auto, using(crate::proofs::Packing::unpacked_packed))]
    pub fn pack(self) -> Option<u64>
        ensures { Packs self result }
    {
        if self.fits() { Some(self.word()) } else { None }
    }

    // Whether each field fits its bits.
    fn fits(self) -> bool
        ensures { Decides result (InWidth self) }
    {
        self.first < FIELD && self.length < FIELD && self.kind < 4
    }

    // The word that holds the fields.
    fn word(self) -> u64
        requires { InWidth self }
        ensures { result ≡ packed self }
    {
        self.first
            + (self.length << 18)
            + (unsigned(self.base) << 36)
            + ((self.p as u64) << 52)
            + ((self.q as u64) << 53)
            + ((self.r as u64) << 54)
            + ((self.s as u64) << 55)
            + ((self.kind as u64) << 56)
    }
}

/// Whether a word can stand as a codeword: it is 0; or it has no unnamed bit, its p, q and s are 0, its length is at least 1, and
/// its type is at most 2, or 0 where the block holds codewords.
pub fn is_lawful(word: u64) -> bool
    ensures { result ≡ lawful word }
{
    if word == 0 {
        return true;
    }
    if word >> 58 != 0 {
        return false;
    }
    let c = Codeword::unpack(word);
    !c.p && !c.q && !c.s && c.length >= 1 && c.kind <= LAST_TYPE && (!c.r || c.kind == 0)
}
