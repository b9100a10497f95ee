// What a program tells of a keeper. The handle for printing goes beside the keeper, and is no part of it, as everywhere.
#![tactic(auto)]

mod answers;
mod lists;
mod opening;
mod places;
mod saved;

pub use answers::{answer, tell};
pub use lists::tell_list;
pub use opening::{COUNT, begin, open};
pub use places::element_of;
pub use saved::show;
