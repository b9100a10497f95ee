use booking::Refusal;

/// What a keeper answers to a booking that it grants. A span has the base, the length, whether the block holds codewords, and the type.
#[derive(Drop)]
pub enum Answer {
    Done,
    Word(u64),
    Words(Vec<u64>),
    Span(Option<(i64, u64, bool, u64)>),
}

/// The answer to a booking that was granted, or why it was refused.
pub type Reply = Result<Answer, Refusal>;
