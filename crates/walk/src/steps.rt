ghost use Rattle.booking.specs.Traces.{subscripts};
ghost use Rattle.layout.specs.Walks.{chosen, gone_down, walked};
ghost use Rattle.std.specs.Prelude.{◌≡◌};

use booking::{Refusal, Trace};
use codeword::Codeword;
use store::{Store, word};

/// Which element of the block the subscript selects. The step goes beside it for the refusal alone, here and below.
#[tactic(auto, unfolding(layout::specs::Walks::chosen))]
pub fn choose(label: Codeword, subscript: i32, step: u8) -> Result<u64, Refusal>
    ensures { result ≡ chosen label subscript step }
{
    let offset = subscript as i64 - label.base as i64;
    match u64::try_from(offset) {
        Ok(k) if k < label.length => Ok(k),
        _ => Err(Refusal::OutOfBounds(step)),
    }
}

/// The address of the codeword that the subscript selects in the block that the word labels.
#[tactic(auto, unfolding(layout::specs::Walks::gone_down), using(layout::proofs::Gone::chosen_lt))]
pub fn go_down(code: u64, subscript: i32, step: u8) -> Result<u64, Refusal>
    ensures { result ≡ gone_down code subscript step }
{
    if code == 0 {
        return Err(Refusal::Unlabelled(step));
    }
    let label = Codeword::unpack(code);
    if !label.r {
        return Err(Refusal::WrongSort(step));
    }
    let k = choose(label, subscript, step)?;
    Ok(label.first + k)
}

/// The address of the codeword at the end of a trace.
pub fn walk<S: Store>(store: &S, trace: &Trace) -> Result<u64, Refusal>
    ensures { result ≡ walked (S.Store.words store.now) 1 trace.now.name (subscripts trace.now) }
{
    let mut at = u64::from(trace.name());
    for (subscript, step) in trace.subscripts().iter().zip(1..) {
        at = go_down(word(store, at), *subscript, step)?;
    }
    Ok(at)
}
