ghost use Rattle.layout.specs.Elements.{row_chosen, row_found};
ghost use Rattle.std.specs.Prelude.{◌≡◌};

use booking::{Refusal, Trace};
use codeword::Codeword;
use store::{Store, word};
use walk::{choose, walk};

/// The element that the subscript selects in the block of data that the word labels. What `walk::go_down` asks is asked here of the other
/// sort of block, and what is answered is another thing: so the two are no twins.
/// The kind is a number for the reason that `rows` gives, and what is answered is a pair as in the definition.
#[tactic(auto, unfolding(layout::specs::Elements::row_chosen), using(layout::proofs::Gone::chosen_lt))]
fn row_of(code: u64, kind: u64, subscript: i32, step: u8) -> Result<(u64, u64), Refusal>
    ensures { result ≡ row_chosen code kind subscript step }
{
    if code == 0 {
        return Err(Refusal::Unlabelled(step));
    }
    let label = Codeword::unpack(code);
    if label.r {
        return Err(Refusal::WrongSort(step));
    }
    let k = choose(label, subscript, step)?;
    if label.kind as u64 != kind {
        return Err(Refusal::WrongType);
    }
    Ok((label.first + k, label.length - k))
}

/// The data element at the end of a trace: its address, and how many there are from it on, a pair as in the definition.
#[tactic(auto, unfolding(layout::specs::Elements::row_found))]
#[inline(always)]
pub fn row<S: Store>(
    store: &S,
    trace: &Trace,
    kind: u64,
    subscript: i32,
) -> Result<(u64, u64), Refusal>
    ensures { result ≡ row_found (S.Store.words store.now) trace.now kind subscript }
{
    let at = walk(store, trace)?;
    row_of(word(store, at), kind, subscript, trace.depth() + 1)
}
