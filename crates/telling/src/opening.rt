// The beginning of a day at the keeper.
ghost use Rattle.layout.specs.Keeping.{made};
ghost use Rattle.layout.specs.Rearranged.{as_made};
ghost use Rattle.layout.specs.Words.{words_of};
ghost use Rattle.std.specs.Prelude.{◌≡◌, IfOk};

use crate::answers::{answer, tell};
use crate::places::{element_of, fourth_step};
use booking::{NAMES, Trace};
use keeper::Keeper;
use std::io;
use store::{ByteBank, Joined, Store, WordBank};

/// The words of the store that is joined from two banks.
pub const COUNT: usize = 75;

/// Joins a store from two banks, makes a keeper over it, asks it what it holds and what no keeper can answer, and saves its words.
pub fn begin(rt: &impl Print) -> io::Result<[u64; COUNT]>
    ensures { IfOk result (λ saved. saved ≡ words_of (as_made 75)) }
{
    too_small(rt)?;
    let mut words = [0xffff_ffffu64; 40];
    let mut bytes = [0xffu8; 283];
    let mut keeper = Keeper {
        store: Joined {
            first: WordBank { lent: &mut words },
            second: ByteBank { lent: &mut bytes },
        },
    };
    println!(rt; "Two banks are joined to one store: 40 words, and 283 bytes that make 35 words.")?;
    open(rt, &mut keeper)?;
    ask(rt, &keeper)?;
    println!(rt; "Saved into a list of 74 words:")?;
    answer(rt, keeper.save(&mut [0; 74]))?;
    println!(rt; "Saved into a list of {COUNT} words:")?;
    let mut saved = [0; COUNT];
    keeper.save(&mut saved).unwrap();
    println!(rt; "  Done.")?;
    Ok(saved)
}

// Tries a store one word too small.
fn too_small(rt: &impl Print) -> io::Result<()> {
    let mut words = [0u64; 66];
    let mut keeper = Keeper {
        store: WordBank { lent: &mut words },
    };
    println!(rt; "A keeper over a store of 66 words:")?;
    answer(rt, keeper.make())
}

/// Makes the keeper, and says how much room it has.
pub fn open<S: Store>(rt: &impl Print, keeper: &mut Keeper<S>) -> io::Result<()>
    ensures words { S.Store.words keeper.new.store ≡ (made (S.Store.words keeper.old.store)).1 }
    ensures rest { S.Store.rest keeper.new.store ≡ S.Store.rest keeper.old.store }
{
    let count = keeper.store.count();
    match keeper.make() {
        Ok(()) => println!(rt; "A keeper is made over its {count} words.")?,
        Err(refusal) => tell(rt, refusal)?,
    }
    let total = keeper.total();
    println!(rt; "  One word is the header and {NAMES} are for the names; {total} are free.")
}

// Asks for the span of every name, and what no keeper can answer.
fn ask<S: Store>(rt: &impl Print, keeper: &Keeper<S>) -> io::Result<()> {
    ask_names(rt, keeper)?;
    ask_wrongly(rt, keeper)
}

// Asks for the span of every name.
fn ask_names<S: Store>(rt: &impl Print, keeper: &Keeper<S>) -> io::Result<()> {
    let mut empty = 0u64;
    for name in 1..=NAMES {
        match keeper.span(&Trace::new(name).unwrap()) {
            Ok(None) => empty += 1,
            Ok(Some((base, length, _, _))) => println!(rt;
                "  Name {name}: {length} elements from {base} on."
            )?,
            Err(refusal) => tell(rt, refusal)?,
        }
    }
    println!(rt; "  Names with nothing booked under them: {empty} of {NAMES}.")
}

// Asks what no keeper can answer.
fn ask_wrongly<S: Store>(rt: &impl Print, keeper: &Keeper<S>) -> io::Result<()> {
    println!(rt; "Name 65:")?;
    tell(rt, Trace::new(65).unwrap_err())?;
    println!(rt; "Name 1, then element 1, element 2, element 3, and element 4 of that:")?;
    tell(rt, fourth_step().unwrap_err())?;
    println!(rt; "What is booked under name 1, element 7:")?;
    say_span(rt, keeper, &element_of(1, 7).unwrap())
}

// Says what a keeper knows of a place.
fn say_span<S: Store>(rt: &impl Print, keeper: &Keeper<S>, trace: &Trace) -> io::Result<()> {
    match keeper.span(trace) {
        Ok(None) => println!(rt; "  nothing."),
        Ok(Some((base, length, _, _))) => println!(rt; "  {length} elements from {base} on."),
        Err(refusal) => tell(rt, refusal),
    }
}
