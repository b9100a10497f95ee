ghost use Rattle.elements.specs.Rows.{read_of};
ghost use Rattle.keeper_c.specs.Told.{number_of, step_of, word_in};
ghost use Rattle.layout.specs.Results.{done_of};
ghost use Rattle.std.specs.Prelude.{◌≡◌};

use booking::Refusal;

mod span;

pub use span::{Extent, answer_span};

/// The number of a reply: 0 where it is granted.
pub fn number(done: Result<(), Refusal>) -> u32
    ensures { result ≡ number_of (done_of done) }
{
    match done {
        Ok(()) => 0,
        Err(refusal) => refusal.number() as u32,
    }
}

/// A reply as C is told it: the number is returned, and the step written through the reference.
pub fn answer(done: Result<(), Refusal>, step: &mut u32) -> u32
    ensures number { result ≡ number_of (done_of done) }
    ensures step { step.new ≡ step_of (done_of done) }
{
    match done {
        Ok(()) => {
            *step = 0;
            0
        }
        Err(refusal) => {
            *step = refusal.step().unwrap_or(0) as u32;
            refusal.number() as u32
        }
    }
}

/// The same for a word, which is written where it was read.
pub fn answer_word(read: Result<u64, Refusal>, word: &mut u64, step: &mut u32) -> u32
    ensures number { result ≡ number_of (read_of (λ w. w) read) }
    ensures step { step.new ≡ step_of (read_of (λ w. w) read) }
    ensures slot { word.new ≡ word_in word.old (read_of (λ w. w) read) }
{
    match read {
        Ok(found) => {
            *word = found;
            answer(Ok(()), step)
        }
        Err(refusal) => answer(Err(refusal), step),
    }
}
