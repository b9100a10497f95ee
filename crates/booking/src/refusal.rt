mod told;

use thiserror::Error;

/// Why a call was turned away. On the walk the step is told: the trace's first subscript is step 1. It is printed as the reason alone, in
/// words for somebody who keeps accounts.
#[derive(Clone, Copy, PartialEq, Eq, Debug, Error)]
pub enum Refusal {
    /// The address is not below the store's count.
    #[error("there is no such word in the store")]
    OutsideStore(u64),
    /// The store has too few words, or a list is not as long as the store.
    #[error("a keeper needs 67 words, and a saved list as many as the store")]
    WrongCount,
    /// Names are 1 to 64.
    #[error("names are 1 to 64")]
    UnknownName,
    /// A trace has at most three subscripts.
    #[error("a table goes no deeper than three subscripts")]
    TooDeep,
    /// The codeword at this step labels nothing.
    #[error("nothing is booked there")]
    Unlabelled(u8),
    /// A data block where codewords are wanted, or the other way round.
    #[error("there is a row where a table is wanted, or a table where a row is")]
    WrongSort(u8),
    /// The subscript is outside the block.
    #[error("there is no such element")]
    OutOfBounds(u8),
    /// The block's type is not the kind's.
    #[error("the row holds items of another kind")]
    WrongType,
    /// A base, a type or a sort that no block can have here.
    #[error("no row or table can have that base, type or depth")]
    BadField,
    /// A length of 0, or one that runs past the end.
    #[error("the length is 0 or runs past the end")]
    BadLength,
    /// There are too few free words.
    #[error("there are not enough free words")]
    NoRoom,
    /// The list of words does not hold together.
    #[error("the saved words do not hold together")]
    Inconsistent,
}
