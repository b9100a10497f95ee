// The clerk of open items: a morning, a ragged table whose rows move, a month that is carried over to another house, and a month that
// receivables and treasury close together.
#![tactic(auto)]

mod closing;
mod items;
mod month;
mod ragged;
mod rows;
mod saved;

use std::io;
use telling::{begin, show};

fn main(rt: HostRuntime) -> io::Result<()> {
    println!(rt; "THE KEEPER OF OPEN ITEMS")?;
    println!(rt; "")?;
    show(&rt, &begin(&rt)?)?;
    ragged::run(&rt)?;
    saved::run(&rt)?;
    month::run(&rt, rt.alloc())
}
