ghost use Rattle.booking.specs.Bookings.{Span, on};
ghost use Rattle.layout.specs.Booked.{Answers};
ghost use Rattle.layout.specs.Results.{span_of};

use crate::keeper::Keeper;
use booking::{Refusal, Trace};
use codeword::Codeword;
use store::{Store, word};
use walk::walk;

impl<S: Store> Keeper<S> {
    /// Base, length, whether it holds codewords, and type of the block at a trace, a tuple of plain values; none where nothing is labelled.
    pub fn span(&self, trace: &Trace) -> Result<Option<(i64, u64, bool, u64)>, Refusal>
        ensures { Answers (S.Store.words self.now.store) (on trace.now Span) (span_of result) }
    {
        let at = walk(&self.store, trace)?;
        let code = word(&self.store, at);
        if code == 0 {
            return Ok(None);
        }
        let label = Codeword::unpack(code);
        Ok(Some((label.base as i64, label.length, label.r, label.kind as u64)))
    }
}
