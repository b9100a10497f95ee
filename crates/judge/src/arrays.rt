// Arrays and blocks, down from a codeword.
ghost use Rattle.std.specs.Prelude.{◌≡◌, ◌+◌, ◌<◌, ◌≤◌, length};
ghost use Rattle.judge.specs.Arrays.{in_turn, visit};
ghost use Rattle.judge.specs.Marks.{flags};
ghost use Rattle.judge.specs.Tiles.{outcome};

use crate::judged::Judged;
use codeword::{Codeword, is_lawful};
use layout::FIRST;

impl Judged<'_> {
    /// The array whose codeword stands at an address is sound: its block, if any, begins at a mark, names this codeword, and is sound.
    /// The marks of the blocks passed are taken down, so that no block is passed twice.
    // The clause `same_words` speaks of the states before and after, so no invariant of the struct can say it.
    #[cycle(array_is_sound_block_is_sound)]
    #[tactic(auto, using(crate::proofs::Ways::array_ways))]
    fn array_is_sound(&mut self, at: usize, levels: u8) -> bool
        requires { at < length self.old.words.now }
        ensures same_words { self.new.words.now ≡ self.old.words.now }
        ensures verdict { outcome result (flags self.new.marks.bits)
            ≡ visit levels self.old.words.now at (flags self.old.marks.bits) }
    {
        let word = self.words[at];
        if word == 0 {
            return true;
        }
        if levels == 0 || !is_lawful(word) {
            return false;
        }
        let label = Codeword::unpack(word);
        let first = label.first as usize;
        let length = label.length as usize;
        if first <= FIRST as usize || first + length > self.words.len() {
            return false;
        }
        if !self.marks.is_up(first - 1) || self.words[first - 1] != at as u64 {
            return false;
        }
        self.marks.lower(first - 1);
        !label.r || self.block_is_sound(first, length, levels - 1)
    }

    /// A block of codewords is sound when every array labelled in it is.
    #[cycle(array_is_sound_block_is_sound)]
    #[tactic(auto, using(crate::proofs::Ways::block_ways))]
    pub(crate) fn block_is_sound(&mut self, from: usize, n: usize, levels: u8) -> bool
        requires { from + n ≤ length self.old.words.now }
        ensures same_words { self.new.words.now ≡ self.old.words.now }
        ensures verdict { outcome result (flags self.new.marks.bits)
            ≡ in_turn (visit levels self.old.words.now) from n (flags self.old.marks.bits) }
    {
        // With `all` in place of the loop the proof does not close: nothing is known after it of the marks that its closure takes down.
        for at in from..from + n {
            if !self.array_is_sound(at, levels) {
                return false;
            }
        }
        true
    }
}
