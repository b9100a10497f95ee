// Moving words in a store: closing blocks up, the chain of gaps, finding room.
#![tactic(auto)]

mod chain;
mod closing;
mod finding;
mod following;
mod gaps;
mod link;
mod mover;

pub use chain::free_words;
pub use closing::{leave_gap, tidy};
pub use finding::room;
pub use link::{link_gap, link_gap_after};
pub use mover::{aimed, renew};
