// The judge of a saved list: whether a list of words holds together.
#![tactic(auto)]

ghost use Rattle.layout.specs.Holds.{Holds};
ghost use Rattle.std.specs.Prelude.{Decides};

mod arrays;
mod judged;
mod marks;
mod tiles;

use judged::Judged;
use layout::{LEAST, LEVELS, NAMES};
use marks::Marks;
use store::MOST;
use tiles::read_head;

/// Whether a list of words holds together. It goes over the gaps and blocks once, and once over the codewords, whatever the list, with
/// one bit for each address beside it.
#[tactic(auto, using(crate::proofs::Ways::list_ways))]
pub fn holds_together(words: &[u64]) -> bool
    ensures { Decides result (Holds words.now) }
{
    let count = words.len() as u64;
    if count < LEAST || count > MOST {
        return false;
    }
    let Some(chain) = read_head(words[0]) else {
        return false;
    };
    let mut judged = Judged {
        words,
        marks: Marks::new(),
    };
    judged.tiled(chain)
        && judged.block_is_sound(1, NAMES as usize, LEVELS)
        && judged.marks.none_up()
}
