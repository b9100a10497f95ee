use codeword::Head;
use std::io;

/// Shows the words that a keeper saved: its gaps, and the words that are not 0.
pub fn show(rt: &impl Print, words: &[u64]) -> io::Result<()> {
    show_gaps(rt, words)?;
    show_words(rt, words)
}

// Follows the chain of gaps from the header on.
fn show_gaps(rt: &impl Print, words: &[u64]) -> io::Result<()> {
    let Some(header) = words.first() else {
        return Ok(());
    };
    let mut at = Head::unpack(*header).next;
    // As many times as there are words: in a damaged list the chain may go in a circle.
    for _ in words {
        if at == 0 {
            return Ok(());
        }
        let Some(word) = words.get(at as usize) else {
            return println!(rt; "  The chain leads outside the store, to address {at}.");
        };
        let Head { size, next } = Head::unpack(*word);
        println!(rt; "  {size} free words from address {at} on.")?;
        at = next;
    }
    println!(rt; "  The chain does not end.")
}

// Prints the words that are not 0, with their addresses.
fn show_words(rt: &impl Print, words: &[u64]) -> io::Result<()> {
    for (at, word) in words.iter().enumerate().filter(|(_, word)| **word != 0) {
        println!(rt; "  {at:>6}  {word:016x}")?;
    }
    let zeros = words.iter().filter(|word| **word == 0).count();
    println!(rt; "  All other words, {zeros} of them, are 0.")
}
