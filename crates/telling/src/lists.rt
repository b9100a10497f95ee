use crate::answers::tell;
use entries::{Answer, Entry, Reply};
use std::io;

/// Tells each entry of a list that was played to a keeper, and what the keeper replied to each booking in it.
pub fn tell_list(rt: &impl Print, list: &[Entry<'_>], replies: &[Reply]) -> io::Result<()> {
    let mut replies = replies.iter();
    for (number, entry) in (1u64..).zip(list) {
        println!(rt; "{number:>4}. {entry}.")?;
        let Entry::Book(_) = entry else {
            continue;
        };
        if let Some(reply) = replies.next() {
            tell_reply(rt, reply)?;
        }
    }
    Ok(())
}

// Tells a reply; words are told as amounts.
fn tell_reply(rt: &impl Print, reply: &Reply) -> io::Result<()> {
    match reply {
        Ok(Answer::Done) => println!(rt; "  Done."),
        Ok(Answer::Word(word)) => {
            let amount = word.cast_signed();
            println!(rt; "  It is {amount}.")
        }
        Ok(Answer::Words(words)) => tell_words(rt, words),
        Ok(Answer::Span(extent)) => tell_extent(rt, *extent),
        Err(refusal) => tell(rt, *refusal),
    }
}

fn tell_words(rt: &impl Print, words: &[u64]) -> io::Result<()> {
    print!(rt; "  They are")?;
    for word in words {
        let amount = word.cast_signed();
        print!(rt; " {amount}")?;
    }
    println!(rt; ".")
}

fn tell_extent(rt: &impl Print, extent: Option<(i64, u64, bool, u64)>) -> io::Result<()> {
    match extent {
        None => println!(rt; "  Nothing is there."),
        Some((base, length, true, _)) => {
            println!(rt; "  It is a table of {length} from {base} on.")
        }
        Some((base, length, false, kind)) => {
            println!(rt; "  It is a row of {length} from {base} on, of type {kind}.")
        }
    }
}
