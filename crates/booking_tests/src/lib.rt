// How traces are used, and tests of traces, refusals and kinds.
#![tactic(auto)]

#[cfg(test)]
mod tests;
mod traces;
