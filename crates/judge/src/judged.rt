// A list of words that is judged.
ghost use Rattle.std.specs.Prelude.{◌≡◌, ◌^◌, ◌≤◌, length, slice_index};

use crate::marks::Marks;

/// A list that has the words of a store at least and at most, and a mark for each of its addresses. The marks lie in the struct itself,
/// as many as the longest list needs: there is no heap, and memory is fixed.
#[derive(Drop)]
pub(crate) struct Judged<'a> {
    pub(crate) words: &'a [u64],
    pub(crate) marks: Marks,
    ghost least: { 67 ≤ length words.now },
    ghost most: { length words.now ≤ 2 ^ 18 },
}

impl Judged<'_> {
    /// The word at an address, 0 past the end.
    pub(crate) fn word_at(&self, at: u64) -> u64
        ensures { result ≡ slice_index self.now.words.now at }
    {
        self.words.get(at as usize).copied().unwrap_or(0)
    }
}
