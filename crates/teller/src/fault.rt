use std::alloc::AllocError;
use thiserror::Error;

/// Why a line cannot be read.
#[derive(Debug, Drop, Error)]
pub(crate) enum Fault {
    #[error("the first line counts the words, as in: count 75")]
    NoCount,
    #[error("only the first line counts the words")]
    CountedAgain,
    #[error("there is no such booking with so many fields")]
    NoSuchBooking,
    #[error("a field is no number, or none that fits")]
    NoNumber,
    #[error("an array is of data or of codes")]
    NoSort,
    #[error("{0}")]
    NoMemory(#[from] AllocError),
}
