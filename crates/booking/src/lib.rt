// What is said to a keeper, and what it says back: refusals, traces, kinds.
#![tactic(auto)]

mod kind;
mod kinds;
mod refusal;
mod shape;
mod trace;

pub use kind::{Kind, item_again, word_again};
pub use kinds::{Amounts, Voucher, Vouchers, Words};
pub use refusal::Refusal;
pub use shape::Shape;
pub use trace::{NAMES, Trace};
