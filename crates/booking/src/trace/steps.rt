ghost use Rattle.std.specs.Prelude.{◌≡◌, ◌<◌, slice_set};
ghost use Rattle.booking.specs.Traces.{Made, Deeper, subscripts};

use super::{NAMES, Trace};
use crate::refusal::Refusal;

// The subscripts, with one put at a place.
fn placed(mut at: [i32; 3], place: u8, subscript: i32) -> [i32; 3]
    requires { place < 3 }
    ensures { result ≡ slice_set at place subscript }
{
    at[place as usize] = subscript;
    at
}

impl Trace {
    /// The trace of a name, with no subscripts.
    pub fn new(name: u64) -> Result<Trace, Refusal>
        ensures { Made name result }
    {
        if name < 1 || name > NAMES {
            return Err(Refusal::UnknownName);
        }
        Ok(Trace {
            name: name as u8,
            depth: 0,
            at: [0; 3],
        })
    }

    /// One subscript deeper. The trace is used up; refused, it is handed back, in a pair from which `?` takes the refusal.
    pub fn down(self, subscript: i32) -> Result<Trace, (Refusal, Trace)>
        ensures { Deeper self subscript result }
    {
        if self.depth >= 3 {
            return Err((Refusal::TooDeep, self));
        }
        let Trace { name, depth, at } = self;
        Ok(Trace {
            name,
            depth: depth + 1,
            at: placed(at, depth, subscript),
        })
    }

    /// How many subscripts there are.
    pub fn depth(&self) -> u8
        ensures { result ≡ self.now.depth }
    {
        self.depth
    }

    /// The name.
    pub fn name(&self) -> u8
        ensures { result ≡ self.now.name }
    {
        self.name
    }

    /// The subscripts, first to last.
    pub fn subscripts(&self) -> &[i32]
        ensures { result.now ≡ subscripts self.now }
    {
        &self.at[0..self.depth as usize]
    }
}

/// The refusal alone, as `?` takes it; the trace handed back is let go.
impl From<(Refusal, Trace)> for Refusal {
    ghost from_gives = { λ pair r. r ≡ pair.0 };

    fn from(back: (Refusal, Trace)) -> Refusal {
        back.0
    }
}
