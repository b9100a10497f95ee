// Whole arrays: the words that one takes up, freeing one, and taking one.
#![tactic(auto)]

mod freeing;
mod releasing;
mod taking;
mod weighing;

pub use freeing::free;
pub use releasing::{vacate, vacate_each};
pub use taking::take;
pub use weighing::weight;
