// Gaps and blocks, one behind the other, as they fill the space behind the names.
ghost use Rattle.std.specs.Prelude.{◌≡◌, suc, ◌+◌, ◌<◌, ◌&&◌, length, ◌==◌, slice_index};
ghost use Rattle.codeword.specs.Codeword.{field};
ghost use Rattle.judge.specs.Marks.{flags};
ghost use Rattle.judge.specs.Tiles.{gap_head, head_of, outcome, tiled_from};

use crate::judged::Judged;
use crate::marks::all_zero;
use codeword::{Codeword, FIELD, Head};
use layout::FIRST;

/// What the header says of all gaps, or the first word of a gap of that one; none where another bit of the word is set.
pub(crate) fn read_head(word: u64) -> Option<Head>
    ensures { result ≡ head_of word }
{
    if word >= FIELD * FIELD {
        return None;
    }
    Some(Head::unpack(word))
}

impl Judged<'_> {
    /// What the gap at an address says, of at most so many words; none where no such gap lies there.
    #[tactic(auto, using(crate::proofs::Ways::gap_ways))]
    fn gap(&self, at: usize, left: u64) -> Option<Head>
        requires { at < length self.now.words.now }
        ensures { result ≡ gap_head self.now.words.now at left }
    {
        let gap = read_head(self.words[at])?;
        if gap.size < 1 || gap.size > left || gap.size > (self.words.len() - at) as u64 {
            return None;
        }
        if !all_zero(&self.words[at + 1..at + gap.size as usize]) {
            return None;
        }
        Some(gap)
    }

    /// How many words the active block has that begins at an address, if one does: its back-reference, and as many as its codeword
    /// says.
    fn block_size(&self, at: usize) -> usize
        ensures { result ≡ 1 + field 18 18 (slice_index self.now.words.now (slice_index self.now.words.now at)) }
    {
        let back_reference = self.word_at(at as u64);
        1 + Codeword::unpack(self.word_at(back_reference)).length as usize
    }

    /// Goes over gaps and blocks from the first address to the end: gaps are where the chain says, with as many words as the header
    /// says, and between them lie blocks, as long as their codewords say. The address where each block begins is marked.
    // The clause `same_words` speaks of the states before and after, so no invariant of the struct can say it.
    #[tactic(auto, using(crate::proofs::Ways::tile_ways))]
    pub(crate) fn tiled(&mut self, chain: Head) -> bool
        ensures same_words { self.new.words.now ≡ self.old.words.now }
        ensures verdict { outcome result (flags self.new.marks.bits)
            ≡ tiled_from (suc (length self.old.words.now)) self.old.words.now 65 chain.next chain.size (flags self.old.marks.bits) }
    {
        let mut left = chain;
        let mut at = FIRST as usize;
        // No range or iterator is plainer: each turn goes on by as many words as the gap or the block has.
        while at < self.words.len() {
            if at as u64 == left.next {
                let Some(gap) = self.gap(at, left.size) else {
                    return false;
                };
                left = Head {
                    size: left.size - gap.size,
                    next: gap.next,
                };
                at += gap.size as usize;
            } else {
                let size = self.block_size(at);
                if size > self.words.len() - at {
                    return false;
                }
                self.marks.raise(at);
                at += size;
            }
        }
        left.next == 0 && left.size == 0
    }
}
