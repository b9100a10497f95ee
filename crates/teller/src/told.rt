// Answers, a line each.
use booking::Refusal;
use entries::{Answer, Reply};
use std::io::{self, Write};

/// Tells what a booking is answered.
pub(crate) fn tell<W: Write>(out: &mut W, reply: &Reply) -> io::Result<()> {
    match reply {
        Ok(Answer::Done) => writeln!(out, "done"),
        Ok(Answer::Word(word)) => writeln!(out, "word {word}"),
        Ok(Answer::Words(words)) => {
            write!(out, "words")?;
            tell_words(out, words)?;
            writeln!(out, "")
        }
        Ok(Answer::Span(None)) => writeln!(out, "nothing"),
        Ok(Answer::Span(Some((base, length, true, kind)))) => {
            writeln!(out, "extent {base} {length} codes {kind}")
        }
        Ok(Answer::Span(Some((base, length, false, kind)))) => {
            writeln!(out, "extent {base} {length} data {kind}")
        }
        Err(refusal) => tell_refusal(out, *refusal),
    }
}

/// Tells a refusal by its number, and by its step on the walk.
pub(crate) fn tell_refusal<W: Write>(out: &mut W, refusal: Refusal) -> io::Result<()> {
    match refusal.told() {
        (number, None) => writeln!(out, "refused {number}"),
        (number, Some(step)) => writeln!(out, "refused {number} step {step}"),
    }
}

/// Tells words, each behind a space.
pub(crate) fn tell_words<W: Write>(out: &mut W, words: &[u64]) -> io::Result<()> {
    for word in words {
        write!(out, " {word}")?;
    }
    Ok(())
}
