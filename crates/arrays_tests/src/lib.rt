// Taking, freeing and tidying on examples, with the words that each leaves.
#![tactic(auto)]

#[cfg(test)]
mod doors;
#[cfg(test)]
mod laid;
#[cfg(test)]
mod rows;
#[cfg(test)]
mod work;
