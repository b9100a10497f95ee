ghost use Rattle.booking.specs.Traces.{Made, subscripts};
ghost use Rattle.booking.specs.declared.refusal.Refusal.TheVariants.{TooDeep};
ghost use Rattle.std.specs.Prelude.{◌≡◌, [], ◌∷◌, Ok, Err, IsErrOf};

use booking::{Refusal, Trace};

/// The place of one element under a name.
pub fn element_of(name: u64, subscript: i32) -> Result<Trace, Refusal>
    ensures { elim result [ Ok t ↦ (t.name ≡ name) × (subscripts t ≡ subscript ∷ []) | Err e ↦ Made name (Err e) ] }
{
    Ok(Trace::new(name)?.down(subscript)?)
}

/// What comes of going down from name 1 four times.
pub(crate) fn fourth_step() -> Result<Trace, Refusal>
    ensures { IsErrOf result TooDeep }
{
    Ok(Trace::new(1)?.down(1)?.down(2)?.down(3)?.down(4)?)
}
