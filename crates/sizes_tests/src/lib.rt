// Blocks that grow and shrink, on examples, with the words that each call leaves.
#![tactic(auto)]

#[cfg(test)]
mod deletions;
#[cfg(test)]
mod insertions;
#[cfg(test)]
mod laid;
