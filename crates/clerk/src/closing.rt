ghost use Rattle.clerk.specs.Closings.{Closes};
ghost use Rattle.std.specs.Prelude.{IfOk};

use agreement::{Settlement, Unsettled, hand_on, settle};
use entries::Entry;
use keeper::Keeper;
use std::alloc::Global;
use store::Store;

/// Behind how many bookings a tidy is handed on.
const TIDY_EVERY: usize = 5;

/// A month that was closed: what was handed on, and what became of both lists.
#[derive(Drop)]
pub(crate) struct Closed<'a> {
    pub(crate) handed_on: Vec<Entry<'a>>,
    pub(crate) settlement: Settlement,
}

/// Plays the list to receivables' keeper to learn what it grants, then makes both keepers anew and plays the list to receivables' and what
/// it grants to treasury's.
pub(crate) fn close<'a, R: Store, Q: Store>(
    alloc: Global,
    receivables: &mut Keeper<R>,
    asked: &[Entry<'a>],
    treasury: &mut Keeper<Q>,
) -> Result<Closed<'a>, Unsettled>
    ensures { IfOk result (λ c. Closes (R.Store.words receivables.old.store) asked.now (R.Store.words receivables.new.store) (Q.Store.words treasury.old.store) (Q.Store.words treasury.new.store) c) }
{
    let heard = settle(alloc, receivables, asked, treasury, &[])?;
    let Ok(handed_on) = hand_on(alloc, asked, &heard.receivables.replies, TIDY_EVERY) else {
        return Err(Unsettled::NoMemory);
    };
    let settlement = settle(alloc, receivables, asked, treasury, &handed_on)?;
    Ok(Closed {
        handed_on,
        settlement,
    })
}
