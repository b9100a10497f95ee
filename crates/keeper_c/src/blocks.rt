// Blocks: arrays taken and freed, blocks that grow and shrink, another base, two elements exchanged.
ghost use Rattle.booking.specs.Bookings.{Delete, Exchange, Free, Insert, Rebase, Take};
ghost use Rattle.keeper_c.specs.Calls.{Calls};
ghost use Rattle.keeper_c.specs.Told.{Tells};
ghost use Rattle.std.specs.Prelude.{◌≡◌};

use crate::reply::answer;
use crate::trace::traced;
use booking::Shape;
use keeper::Keeper;
use store::{Bank, Lendable};

/// Takes an array at a place: zeros of a type, or codewords that label nothing. What stood there is freed first.
#[tactic(auto, using(crate::proofs::Replies::off))]
pub fn take<E: Lendable>(
    bank: &mut Bank<E>,
    name: u64,
    subscripts: &[i32],
    shape: Shape,
    step: &mut u32,
) -> u32
    ensures calls { Calls (E.Lendable.words bank.old.lent.now) name subscripts.now (Take shape.length shape.base shape.codes shape.kind) (Tells result step.new (E.Lendable.words bank.new.lent.now)) }
    ensures past { E.Lendable.past bank.new.lent.now ≡ E.Lendable.past bank.old.lent.now }
    ensures lender { bank.new.lent.ghost_name ≡ bank.old.lent.ghost_name }
{
    match traced(name, subscripts) {
        Ok(trace) => answer(Keeper { store: bank }.take(&trace, shape), step),
        Err(refusal) => answer(Err(refusal), step),
    }
}

/// Frees the array at a place.
#[tactic(auto, using(crate::proofs::Replies::off))]
pub fn free<E: Lendable>(bank: &mut Bank<E>, name: u64, subscripts: &[i32], step: &mut u32) -> u32
    ensures calls { Calls (E.Lendable.words bank.old.lent.now) name subscripts.now Free (Tells result step.new (E.Lendable.words bank.new.lent.now)) }
    ensures past { E.Lendable.past bank.new.lent.now ≡ E.Lendable.past bank.old.lent.now }
    ensures lender { bank.new.lent.ghost_name ≡ bank.old.lent.ghost_name }
{
    match traced(name, subscripts) {
        Ok(trace) => answer(Keeper { store: bank }.free(&trace), step),
        Err(refusal) => answer(Err(refusal), step),
    }
}

/// Brings n elements in before the one that the subscript selects, or after the last.
#[tactic(auto, using(crate::proofs::Replies::off))]
pub fn insert<E: Lendable>(
    bank: &mut Bank<E>,
    name: u64,
    subscripts: &[i32],
    subscript: i32,
    n: u64,
    step: &mut u32,
) -> u32
    ensures calls { Calls (E.Lendable.words bank.old.lent.now) name subscripts.now (Insert subscript n) (Tells result step.new (E.Lendable.words bank.new.lent.now)) }
    ensures past { E.Lendable.past bank.new.lent.now ≡ E.Lendable.past bank.old.lent.now }
    ensures lender { bank.new.lent.ghost_name ≡ bank.old.lent.ghost_name }
{
    match traced(name, subscripts) {
        Ok(trace) => answer(Keeper { store: bank }.insert(&trace, subscript, n), step),
        Err(refusal) => answer(Err(refusal), step),
    }
}

/// The n elements from the one that the subscript selects on leave the block, with the arrays below them.
#[tactic(auto, using(crate::proofs::Replies::off))]
pub fn delete<E: Lendable>(
    bank: &mut Bank<E>,
    name: u64,
    subscripts: &[i32],
    subscript: i32,
    n: u64,
    step: &mut u32,
) -> u32
    ensures calls { Calls (E.Lendable.words bank.old.lent.now) name subscripts.now (Delete subscript n) (Tells result step.new (E.Lendable.words bank.new.lent.now)) }
    ensures past { E.Lendable.past bank.new.lent.now ≡ E.Lendable.past bank.old.lent.now }
    ensures lender { bank.new.lent.ghost_name ≡ bank.old.lent.ghost_name }
{
    match traced(name, subscripts) {
        Ok(trace) => answer(Keeper { store: bank }.delete(&trace, subscript, n), step),
        Err(refusal) => answer(Err(refusal), step),
    }
}

/// Gives the block at a place another base.
#[tactic(auto, using(crate::proofs::Replies::off))]
pub fn rebase<E: Lendable>(
    bank: &mut Bank<E>,
    name: u64,
    subscripts: &[i32],
    base: i64,
    step: &mut u32,
) -> u32
    ensures calls { Calls (E.Lendable.words bank.old.lent.now) name subscripts.now (Rebase base) (Tells result step.new (E.Lendable.words bank.new.lent.now)) }
    ensures past { E.Lendable.past bank.new.lent.now ≡ E.Lendable.past bank.old.lent.now }
    ensures lender { bank.new.lent.ghost_name ≡ bank.old.lent.ghost_name }
{
    match traced(name, subscripts) {
        Ok(trace) => answer(Keeper { store: bank }.rebase(&trace, base), step),
        Err(refusal) => answer(Err(refusal), step),
    }
}

/// Two elements of a block of codewords change places, with the arrays below them.
#[tactic(auto, using(crate::proofs::Replies::off))]
pub fn exchange<E: Lendable>(
    bank: &mut Bank<E>,
    name: u64,
    subscripts: &[i32],
    one: i32,
    other: i32,
    step: &mut u32,
) -> u32
    ensures calls { Calls (E.Lendable.words bank.old.lent.now) name subscripts.now (Exchange one other) (Tells result step.new (E.Lendable.words bank.new.lent.now)) }
    ensures past { E.Lendable.past bank.new.lent.now ≡ E.Lendable.past bank.old.lent.now }
    ensures lender { bank.new.lent.ghost_name ≡ bank.old.lent.ghost_name }
{
    match traced(name, subscripts) {
        Ok(trace) => answer(Keeper { store: bank }.exchange(&trace, one, other), step),
        Err(refusal) => answer(Err(refusal), step),
    }
}
