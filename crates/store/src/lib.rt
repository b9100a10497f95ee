// Stores of 64-bit words: what a store is, three makes of it, and access to one without refusals.
#![tactic(auto)]

mod access;
mod bank;
mod bulk;
mod byte_bank;
mod joined;
mod reference;
mod store;
mod word_bank;

pub use access::{put, word};
pub use bank::{Bank, Lendable};
pub use bulk::{clear, copy_down, copy_in, copy_out, copy_up, read_from, write_from};
pub use byte_bank::ByteBank;
pub use joined::Joined;
pub use store::{MOST, Store};
pub use word_bank::WordBank;
