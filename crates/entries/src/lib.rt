// Bookings as values, so that they can stand in a list, and what a keeper answers to one.
#![tactic(auto)]

mod answer;
mod entry;
mod texts;

pub use answer::{Answer, Reply};
pub use entry::{Booking, Deed, Entry};
