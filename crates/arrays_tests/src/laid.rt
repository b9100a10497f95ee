// Two rows laid out, and words looked at.
use booking::{Amounts, Refusal, Shape, Trace};
use keeper::Keeper;
use std::process::Abort;
use store::{Store, word};

// Codewords, headers and gaps are made by hand here and below, so that no test leans on the packing that it tests.

// The codeword of a row of amounts from subscript 1 on.
pub(crate) fn row(first: u64, n: u64) -> u64 {
    first | n << 18 | 1 << 36 | 1 << 56
}

// The header, or the first word of a gap: a size and the next address.
pub(crate) fn gap(size: u64, next: u64) -> u64 {
    size | next << 18
}

// Each word of the list stands at the address beside it.
pub(crate) fn stands<S: Store>(rt: &impl Abort, keeper: &Keeper<S>, words: &[(u64, u64)]) {
    for (at, expected) in words {
        assert_eq!(rt; word(&keeper.store, *at), *expected);
    }
}

// Takes a row of n amounts from subscript 1 on.
pub(crate) fn take_row<S: Store>(
    keeper: &mut Keeper<S>,
    trace: &Trace,
    n: u64,
) -> Result<(), Refusal> {
    keeper.take(trace, Shape::row::<Amounts>(1, n))
}

// Three amounts under name 1 and two under name 2.
pub(crate) fn two_rows<S: Store>(keeper: &mut Keeper<S>) -> Result<(), Refusal> {
    keeper.make()?;
    take_row(keeper, &Trace::new(1)?, 3)?;
    take_row(keeper, &Trace::new(2)?, 2)
}
