ghost use Rattle.layout.specs.Holds.{Holds};
ghost use Rattle.std.specs.Prelude.{◌≡◌, length};
ghost use Rattle.teller.specs.Asked.{BooksAsked};

use crate::asked::Asked;
use entries::{Booking, Reply};
use keeper::Keeper;
use posting::post;
use std::alloc::{AllocError, Global};
use store::Store;

/// Has the keeper do what is asked, where a trace leads to the place.
pub(crate) fn book<S: Store>(
    alloc: Global,
    keeper: &mut Keeper<S>,
    asked: &Asked<'_>,
) -> Result<Reply, AllocError>
    ensures booked { BooksAsked (S.Store.words keeper.old.store) asked.now result (S.Store.words keeper.new.store) }
    ensures holds { Holds (S.Store.words keeper.old.store) → Holds (S.Store.words keeper.new.store) }
    ensures count { length (S.Store.words keeper.new.store) ≡ length (S.Store.words keeper.old.store) }
    ensures rest { S.Store.rest keeper.new.store ≡ S.Store.rest keeper.old.store }
{
    match &asked.place {
        Ok(trace) => {
            let deed = asked.deed;
            post(alloc, keeper, &Booking { trace, deed })
        }
        Err(refusal) => Ok(Err(*refusal)),
    }
}
