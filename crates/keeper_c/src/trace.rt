ghost use Rattle.keeper_c.specs.Traced.{Traced};

use booking::{Refusal, Trace};

/// The trace of a name and subscripts.
pub fn traced(name: u64, subscripts: &[i32]) -> Result<Trace, Refusal>
    ensures { Traced name subscripts.now result }
{
    let mut trace = Trace::new(name)?;
    for subscript in subscripts {
        trace = trace.down(*subscript)?;
    }
    Ok(trace)
}
