ghost use Rattle.booking.specs.Kinds.{amount_word, amount_item, voucher_word, voucher_item};
ghost use Rattle.std.proofs.Common.{rules};

use crate::kind::Kind;

/// Type 0: the item is the word itself.
pub struct Words;

/// Type 1: an amount in minor units, signed.
pub struct Amounts;

/// Type 2: a voucher.
pub struct Vouchers;

/// The voucher of a booking.
#[derive(Clone, Copy, PartialEq, Eq, Debug)]
pub struct Voucher {
    /// Days since 1 January 1900.
    pub days: u32,
    /// The number that the voucher has on that day.
    pub number: u32,
}

impl Kind for Words {
    type Item = u64;

    const TYPE: u64 = 0;

    ghost TYPE = { 0 };

    ghost word = { λ n. n };

    ghost item = { λ n. n };

    ghost back = { Prim.search rules };

    fn to_word(x: u64) -> u64 {
        x
    }

    fn from_word(w: u64) -> u64 {
        w
    }

    // A word is its item, so that all are copied at once.
    fn to_words(items: &[u64], words: &mut [u64]) {
        words.copy_from_slice(items);
    }

    fn from_words(words: &[u64], items: &mut [u64]) {
        items.copy_from_slice(words);
    }
}

impl Kind for Amounts {
    type Item = i64;

    const TYPE: u64 = 1;

    ghost TYPE = { 1 };

    ghost word = { amount_word };

    ghost item = { amount_item };

    ghost back = { Prim.search rules };

    fn to_word(x: i64) -> u64 {
        x.cast_unsigned()
    }

    fn from_word(w: u64) -> i64 {
        w.cast_signed()
    }
}

impl Kind for Vouchers {
    type Item = Voucher;

    const TYPE: u64 = 2;

    ghost TYPE = { 2 };

    ghost word = { voucher_word };

    ghost item = { voucher_item };

    ghost back = { Prim.search rules };

    fn to_word(x: Voucher) -> u64 {
        ((x.days as u64) << 32) + x.number as u64
    }

    fn from_word(w: u64) -> Voucher {
        Voucher {
            days: (w >> 32) as u32,
            number: (w % (1 << 32)) as u32,
        }
    }
}
