use booking::{Shape, Trace};

/// What is to be done at a place. A kind stands as its type number, what is written as its words, a row to be read as its length.
#[derive(Clone, Copy)]
pub enum Deed<'a> {
    Take(Shape),
    Free,
    Read {
        kind: u64,
        subscript: i32,
    },
    Write {
        kind: u64,
        subscript: i32,
        word: u64,
    },
    ReadRow {
        kind: u64,
        subscript: i32,
        length: u64,
    },
    WriteRow {
        kind: u64,
        subscript: i32,
        words: &'a [u64],
    },
    Span,
    Insert {
        subscript: i32,
        n: u64,
    },
    Delete {
        subscript: i32,
        n: u64,
    },
    Rebase(i64),
    Exchange(i32, i32),
}

/// A deed and the trace of its place. Both are borrowed, so that one booking can stand in several lists.
#[derive(Clone, Copy)]
pub struct Booking<'a> {
    pub trace: &'a Trace,
    pub deed: Deed<'a>,
}

/// What stands in a list that is played to a keeper.
#[derive(Clone, Copy)]
pub enum Entry<'a> {
    Book(Booking<'a>),
    Tidy,
}
