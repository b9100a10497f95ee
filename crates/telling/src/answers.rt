use booking::Refusal;
use std::io;

/// Tells a refusal in plain words, with its number.
pub fn tell(rt: &impl Print, refusal: Refusal) -> io::Result<()> {
    let number = refusal.number();
    match refusal.step() {
        Some(step) => println!(rt; "  Refused, number {number}, at step {step}: {refusal}."),
        None => println!(rt; "  Refused, number {number}: {refusal}."),
    }
}

/// Says that a call was granted, or why it was not.
pub fn answer(rt: &impl Print, outcome: Result<(), Refusal>) -> io::Result<()> {
    match outcome {
        Ok(()) => println!(rt; "  Done."),
        Err(refusal) => tell(rt, refusal),
    }
}
