// Elements inserted: the blocks above make room, and the block grows.
#![tactic(auto)]

mod growing;
mod inserting;
mod raising;

pub use inserting::insert;
