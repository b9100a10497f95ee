// One booking as a value, done by a keeper.
#![tactic(auto)]

mod deeds;
mod looks;

pub use deeds::post;
