// The keeper at work on examples, over the stores of a test's own.
#![tactic(auto)]

#[cfg(test)]
mod laid;
#[cfg(test)]
mod made;
#[cfg(test)]
mod refused;
