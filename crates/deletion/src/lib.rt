// Elements that leave a block, with the arrays below them.
#![tactic(auto)]

mod closing;
mod deleting;
mod leaving;

pub use deleting::delete;
