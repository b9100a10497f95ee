ghost use Rattle.layout.specs.Holds.{Holds};
ghost use Rattle.std.specs.Prelude.{◌≡◌, length};

use crate::asked::Line;
use crate::booked::book;
use crate::fault::Fault;
use crate::told::tell;
use crate::written::written;
use keeper::Keeper;
use std::alloc::Global;
use std::io::{self, BufRead, Lines, Write};
use store::Store;

/// Books the lines of a list behind its first, and says of each what came of it.
pub(crate) fn play<B: BufRead + Drop, W: Write, S: Store>(
    alloc: Global,
    out: &mut W,
    keeper: &mut Keeper<S>,
    lines: Lines<B>,
) -> io::Result<()>
    ensures holds { Holds (S.Store.words keeper.old.store) → Holds (S.Store.words keeper.new.store) }
    ensures count { length (S.Store.words keeper.new.store) ≡ length (S.Store.words keeper.old.store) }
    ensures rest { S.Store.rest keeper.new.store ≡ S.Store.rest keeper.old.store }
{
    for (number, line) in (2u64..).zip(lines) {
        answer(alloc, out, keeper, number, &line?)?;
    }
    Ok(())
}

// Books one line, and says what came of it.
#[tactic(auto, using(crate::proofs::Kept::tidied_kept))]
fn answer<W: Write, S: Store>(
    alloc: Global,
    out: &mut W,
    keeper: &mut Keeper<S>,
    number: u64,
    line: &str,
) -> io::Result<()>
    ensures holds { Holds (S.Store.words keeper.old.store) → Holds (S.Store.words keeper.new.store) }
    ensures count { length (S.Store.words keeper.new.store) ≡ length (S.Store.words keeper.old.store) }
    ensures rest { S.Store.rest keeper.new.store ≡ S.Store.rest keeper.old.store }
{
    let words = match written(alloc, line) {
        Ok(words) => words,
        Err(Fault::NoMemory(error)) => return Err(error.into()),
        Err(fault) => return writeln!(out, "line {number}: {fault}"),
    };
    match Line::read(line, &words) {
        Ok(Line::Count(_)) => writeln!(out, "line {number}: {}", Fault::CountedAgain),
        Ok(Line::Tidy) => {
            keeper.tidy();
            writeln!(out, "tidied")
        }
        Ok(Line::Book(asked)) => {
            let reply = book(alloc, keeper, &asked)?;
            tell(out, &reply)
        }
        Err(fault) => writeln!(out, "line {number}: {fault}"),
    }
}
