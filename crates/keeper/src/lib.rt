// The keeper: 64 named arrays of arrays in one store of words.
#![tactic(auto)]

mod arrays_at;
mod items;
mod keeper;
mod load;
mod make;
mod plain;
mod save;
mod sizes;
mod span;
mod tidy;

pub use keeper::Keeper;
pub use layout::LEAST;
pub use load::{loads_come_out_alike, saved_is_carried_over};
