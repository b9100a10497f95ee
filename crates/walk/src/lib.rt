// The walk of a trace on the words of a store.
#![tactic(auto)]

mod steps;

pub use steps::{choose, go_down, walk};
