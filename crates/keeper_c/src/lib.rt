// The keeper, offered to C: its calls over words and bytes that C lends.
#![tactic(auto)]

mod blocks;
mod byte_calls;
mod items;
mod reply;
mod trace;
mod word_calls;
