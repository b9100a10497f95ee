ghost use Rattle.agreement.specs.Outcomes.{SettlesTo};
ghost use Rattle.std.specs.Prelude.{◌≡◌};

use crate::playing::play;
use crate::settlement::{Settlement, Unsettled};
use entries::Entry;
use keeper::{Keeper, LEAST};
use std::alloc::Global;
use store::Store;

/// Makes both keepers, and plays a list to each: to receivables' what is asked of it, to treasury's what is handed on.
pub fn settle<R: Store, Q: Store>(
    alloc: Global,
    receivables: &mut Keeper<R>,
    asked: &[Entry<'_>],
    treasury: &mut Keeper<Q>,
    handed_on: &[Entry<'_>],
) -> Result<Settlement, Unsettled>
    ensures outcome { SettlesTo (R.Store.words receivables.old.store) asked.now (R.Store.words receivables.new.store) (Q.Store.words treasury.old.store) handed_on.now (Q.Store.words treasury.new.store) result }
    ensures receivables_rest { R.Store.rest receivables.new.store ≡ R.Store.rest receivables.old.store }
    ensures treasury_rest { Q.Store.rest treasury.new.store ≡ Q.Store.rest treasury.old.store }
{
    if receivables.store.count() < LEAST || treasury.store.count() < LEAST {
        return Err(Unsettled::TooSmall);
    }
    let Ok(first) = Vec::with_capacity(alloc, asked.len()) else {
        return Err(Unsettled::NoMemory);
    };
    let Ok(second) = Vec::with_capacity(alloc, handed_on.len()) else {
        return Err(Unsettled::NoMemory);
    };
    let _ = receivables.make();
    let _ = treasury.make();
    let settlement = Settlement {
        receivables: play(alloc, receivables, asked, first),
        treasury: play(alloc, treasury, handed_on, second),
    };
    let whole = settlement.receivables.entries == asked.len()
        && settlement.treasury.entries == handed_on.len();
    if whole {
        Ok(settlement)
    } else {
        Err(Unsettled::BrokeOff(settlement))
    }
}
