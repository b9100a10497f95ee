// What a block is, and its elements.
ghost use Rattle.booking.specs.Bookings.{Read, RowRead, RowWrite, Span, Write};
ghost use Rattle.keeper_c.specs.Calls.{Calls};
ghost use Rattle.keeper_c.specs.Told.{TellsInto, Tells, extent_in, word_in, words_in};
ghost use Rattle.std.specs.Prelude.{◌≡◌, ◌<◌, length};

use crate::reply::{Extent, answer, answer_span, answer_word};
use crate::trace::traced;
use keeper::Keeper;
use store::{Bank, Lendable};

/// What the block at a place is: all 0 where nothing is labelled. Refused, the extent stays as it was.
#[tactic(auto, using(crate::proofs::Replies::off_shown))]
pub fn span<E: Lendable>(
    bank: &mut Bank<E>,
    name: u64,
    subscripts: &[i32],
    extent: &mut Extent,
    step: &mut u32,
) -> u32
    ensures calls { Calls (E.Lendable.words bank.old.lent.now) name subscripts.now Span (TellsInto result step.new (extent_in extent.old) extent.new) }
    ensures same { bank.new.lent.now ≡ bank.old.lent.now }
    ensures lender { bank.new.lent.ghost_name ≡ bank.old.lent.ghost_name }
{
    match traced(name, subscripts) {
        Ok(trace) => answer_span(Keeper { store: bank }.span(&trace), extent, step),
        Err(refusal) => answer(Err(refusal), step),
    }
}

/// One data element of a block of the type. Refused, the word stays as it was.
#[tactic(auto, using(crate::proofs::Replies::off_shown))]
pub fn read<E: Lendable>(
    bank: &mut Bank<E>,
    name: u64,
    subscripts: &[i32],
    kind: u64,
    subscript: i32,
    word: &mut u64,
    step: &mut u32,
) -> u32
    ensures calls { Calls (E.Lendable.words bank.old.lent.now) name subscripts.now (Read kind subscript) (TellsInto result step.new (word_in word.old) word.new) }
    ensures same { bank.new.lent.now ≡ bank.old.lent.now }
    ensures lender { bank.new.lent.ghost_name ≡ bank.old.lent.ghost_name }
{
    match traced(name, subscripts) {
        Ok(trace) => {
            let keeper = Keeper { store: bank };
            answer_word(keeper.read_word(&trace, kind, subscript), word, step)
        }
        Err(refusal) => answer(Err(refusal), step),
    }
}

/// Replaces one data element of a block of the type.
#[tactic(auto, using(crate::proofs::Replies::off))]
pub fn write<E: Lendable>(
    bank: &mut Bank<E>,
    name: u64,
    subscripts: &[i32],
    kind: u64,
    subscript: i32,
    word: u64,
    step: &mut u32,
) -> u32
    ensures calls { Calls (E.Lendable.words bank.old.lent.now) name subscripts.now (Write kind subscript word) (Tells result step.new (E.Lendable.words bank.new.lent.now)) }
    ensures past { E.Lendable.past bank.new.lent.now ≡ E.Lendable.past bank.old.lent.now }
    ensures lender { bank.new.lent.ghost_name ≡ bank.old.lent.ghost_name }
{
    match traced(name, subscripts) {
        Ok(trace) => answer(
            Keeper { store: bank }.write_word(&trace, kind, subscript, word),
            step,
        ),
        Err(refusal) => answer(Err(refusal), step),
    }
}

/// Copies as many data elements of a block of the type as the row has, from the subscript on, into the row. Refused, the row stays as it was.
#[tactic(auto, using(crate::proofs::Replies::off_shown))]
pub fn read_row<E: Lendable>(
    bank: &mut Bank<E>,
    name: u64,
    subscripts: &[i32],
    kind: u64,
    subscript: i32,
    row: &mut [u64],
    step: &mut u32,
) -> u32
    ensures calls { Calls (E.Lendable.words bank.old.lent.now) name subscripts.now (RowRead kind subscript (length row.old)) (TellsInto result step.new (words_in row.old) row.new) }
    ensures refused { 0 < result → row.new ≡ row.old }
    ensures same { bank.new.lent.now ≡ bank.old.lent.now }
    ensures lender { bank.new.lent.ghost_name ≡ bank.old.lent.ghost_name }
{
    match traced(name, subscripts) {
        Ok(trace) => answer(
            Keeper { store: bank }.read_words(&trace, kind, subscript, row),
            step,
        ),
        Err(refusal) => answer(Err(refusal), step),
    }
}

/// Replaces as many data elements of a block of the type as the row has, from the subscript on.
#[tactic(auto, using(crate::proofs::Replies::off))]
pub fn write_row<E: Lendable>(
    bank: &mut Bank<E>,
    name: u64,
    subscripts: &[i32],
    kind: u64,
    subscript: i32,
    row: &[u64],
    step: &mut u32,
) -> u32
    ensures calls { Calls (E.Lendable.words bank.old.lent.now) name subscripts.now (RowWrite kind subscript row.now) (Tells result step.new (E.Lendable.words bank.new.lent.now)) }
    ensures past { E.Lendable.past bank.new.lent.now ≡ E.Lendable.past bank.old.lent.now }
    ensures lender { bank.new.lent.ghost_name ≡ bank.old.lent.ghost_name }
{
    match traced(name, subscripts) {
        Ok(trace) => answer(
            Keeper { store: bank }.write_words(&trace, kind, subscript, row),
            step,
        ),
        Err(refusal) => answer(Err(refusal), step),
    }
}
