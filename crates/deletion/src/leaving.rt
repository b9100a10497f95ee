ghost use Rattle.deletion.specs.Leaving.{leaving_found};
ghost use Rattle.std.specs.Prelude.{◌≡◌};

use booking::Refusal;
use codeword::Codeword;
use walk::choose;

/// Which element of the block that the word labels is the first of the `n` that leave. Not all may leave.
#[tactic(auto, unfolding(crate::specs::Leaving::leaving_found), using(layout::proofs::Gone::chosen_lt))]
pub fn first_leaving(code: u64, subscript: i32, n: u64, step: u8) -> Result<u64, Refusal>
    ensures { result ≡ leaving_found code subscript n step }
{
    if code == 0 {
        return Err(Refusal::Unlabelled(step));
    }
    let label = Codeword::unpack(code);
    let element = choose(label, subscript, step)?;
    if n == 0 || n > label.length - element || n == label.length {
        return Err(Refusal::BadLength);
    }
    Ok(element)
}
