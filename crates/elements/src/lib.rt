// Elements of blocks in place: read, written, a whole row of them, exchanged; and the base of a block changed.
#![tactic(auto)]

mod exchanges;
mod labels;
mod rows;
mod selection;

pub use exchanges::exchange;
pub use labels::rebase;
pub use rows::{read, read_row, run, write, write_row};
