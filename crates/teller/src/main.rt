// Books the lines of a list over a keeper, in a store that is joined from bytes and words.
#![tactic(auto)]

ghost use Rattle.std.specs.Prelude.{◌≡◌, ◌+◌, min};

mod asked;
mod booked;
mod fault;
mod fields;
mod played;
mod shown;
mod told;
mod written;

use asked::Line;
use fault::Fault;
use keeper::Keeper;
use played::play;
use shown::show_names;
use std::io::{self, BufRead, BufReader, BufWriter, Write};
use store::{ByteBank, Joined, MOST, WordBank};
use told::tell_refusal;

fn main(rt: HostRuntime) -> io::Result<()> {
    let alloc = rt.alloc();
    let mut out = BufWriter::new(alloc, io::writer(&rt))?;
    let mut lines = BufReader::new(alloc, rt.reader())?.lines(alloc);
    let first = match lines.next() {
        Some(line) => line?,
        None => String::new(alloc),
    };
    let Ok(Line::Count(count)) = Line::read(&first, &[]) else {
        writeln!(out, "line 1: {}", Fault::NoCount)?;
        return out.flush();
    };
    let (in_bytes, in_words) = shares(count);
    let mut bytes = vec![in alloc; 0xffu8; 8 * in_bytes]?;
    let mut words = vec![in alloc; u64::MAX; in_words]?;
    let mut keeper = Keeper {
        store: Joined {
            first: ByteBank { lent: &mut bytes },
            second: WordBank { lent: &mut words },
        },
    };
    if let Err(refusal) = keeper.make() {
        tell_refusal(&mut out, refusal)?;
        return out.flush();
    }
    writeln!(out, "made")?;
    play(alloc, &mut out, &mut keeper, lines)?;
    show_names(alloc, &mut out, &keeper)?;
    out.flush()
}

// How many words lie in bytes and how many in words, of as many as a store counts: a third, and the others.
fn shares(count: u64) -> (usize, usize)
    ensures { result.0 + result.1 ≡ min count 262144 }
{
    let count = count.min(MOST) as usize;
    let in_bytes = count / 3;
    (in_bytes, count - in_bytes)
}
