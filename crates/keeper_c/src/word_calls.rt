// The calls over words that C lends.
ghost use Rattle.booking.specs.Bookings.{Delete, Exchange, Free, Insert, Read, Rebase, RowRead, RowWrite, Span, Take, Write};
ghost use Rattle.codeword.specs.Codeword.{field};
ghost use Rattle.keeper.specs.Saved.{save_reply, saved};
ghost use Rattle.keeper_c.specs.Calls.{Calls};
ghost use Rattle.keeper_c.specs.Told.{TellsInto, Takes, Tells, extent_in, number_of, word_in, words_in};
ghost use Rattle.layout.specs.Held.{held_trees};
ghost use Rattle.layout.specs.Holds.{Holds};
ghost use Rattle.layout.specs.Keeping.{made, tidied};
ghost use Rattle.layout.specs.Results.{done_of};
ghost use Rattle.ledger.specs.Trees.{free};
ghost use Rattle.std.specs.Prelude.{◌≡◌, ◌<◌, length, slice_index};
ghost use Rattle.store.specs.Words.{beyond, lent_words};

use crate::reply::{Extent, number};
use crate::{blocks, items};
use booking::Shape;
use keeper::Keeper;
use store::WordBank;

/// Makes the keeper anew: every name labels nothing, and one gap takes up all the words behind the names.
#[unsafe(no_mangle)]
pub extern "C" fn keeper_make(words: &mut [u64]) -> u32
    ensures number { result ≡ number_of (made (lent_words words.old)).0 }
    ensures words { lent_words words.new ≡ (made (lent_words words.old)).1 }
    ensures over { beyond words.new ≡ beyond words.old }
{
    let mut bank = WordBank { lent: words };
    number(Keeper { store: &mut bank }.make())
}

/// The total of inactive words, as the header has it.
#[unsafe(no_mangle)]
pub extern "C" fn keeper_total(words: &mut [u64]) -> u64
    ensures header { result ≡ field 0 18 (slice_index (lent_words words.old) 0) }
    ensures free { Holds (lent_words words.old) → result ≡ free (length (lent_words words.old)) (held_trees (lent_words words.old)) }
    ensures same { words.new ≡ words.old }
{
    let mut bank = WordBank { lent: words };
    Keeper { store: &mut bank }.total()
}

/// Closes all blocks up, with one gap behind them. No tree changes.
#[unsafe(no_mangle)]
pub extern "C" fn keeper_tidy(words: &mut [u64])
    ensures words { Holds (lent_words words.old) → lent_words words.new ≡ tidied (lent_words words.old) }
    ensures over { beyond words.new ≡ beyond words.old }
{
    let mut bank = WordBank { lent: words };
    Keeper { store: &mut bank }.tidy();
}

/// Copies all words of the store into a list of just that length.
#[unsafe(no_mangle)]
pub extern "C" fn keeper_save(words: &mut [u64], list: &mut [u64]) -> u32
    ensures number { result ≡ number_of (done_of (save_reply (lent_words words.old) list.old)) }
    ensures list { list.new ≡ saved (lent_words words.old) list.old }
    ensures same { words.new ≡ words.old }
{
    let mut bank = WordBank { lent: words };
    number(Keeper { store: &mut bank }.save(list))
}

/// Takes a list, of just the store's length and holding together, as the store's words. Any other is refused, and the store stays as it was.
#[unsafe(no_mangle)]
pub extern "C" fn keeper_load(words: &mut [u64], list: &[u64]) -> u32
    ensures takes { Takes (lent_words words.old) list.now result (lent_words words.new) }
    ensures over { beyond words.new ≡ beyond words.old }
{
    let mut bank = WordBank { lent: words };
    number(Keeper { store: &mut bank }.load(list))
}

/// Takes an array at a place: zeros of a type, or codewords that label nothing. What stood there is freed first.
#[unsafe(no_mangle)]
pub extern "C" fn keeper_take(
    words: &mut [u64],
    name: u64,
    subscripts: &[i32],
    n: u64,
    base: i64,
    codes: bool,
    kind: u64,
    step: &mut u32,
) -> u32
    ensures calls { Calls (lent_words words.old) name subscripts.now (Take n base codes kind) (Tells result step.new (lent_words words.new)) }
    ensures over { beyond words.new ≡ beyond words.old }
{
    let mut bank = WordBank { lent: words };
    let shape = Shape {
        base,
        length: n,
        codes,
        kind,
    };
    blocks::take(&mut bank, name, subscripts, shape, step)
}

/// Frees the array at a place.
#[unsafe(no_mangle)]
pub extern "C" fn keeper_free(
    words: &mut [u64],
    name: u64,
    subscripts: &[i32],
    step: &mut u32,
) -> u32
    ensures calls { Calls (lent_words words.old) name subscripts.now Free (Tells result step.new (lent_words words.new)) }
    ensures over { beyond words.new ≡ beyond words.old }
{
    let mut bank = WordBank { lent: words };
    blocks::free(&mut bank, name, subscripts, step)
}

/// Brings n elements in before the one that the subscript selects, or after the last.
#[unsafe(no_mangle)]
pub extern "C" fn keeper_insert(
    words: &mut [u64],
    name: u64,
    subscripts: &[i32],
    subscript: i32,
    n: u64,
    step: &mut u32,
) -> u32
    ensures calls { Calls (lent_words words.old) name subscripts.now (Insert subscript n) (Tells result step.new (lent_words words.new)) }
    ensures over { beyond words.new ≡ beyond words.old }
{
    let mut bank = WordBank { lent: words };
    blocks::insert(&mut bank, name, subscripts, subscript, n, step)
}

/// The n elements from the one that the subscript selects on leave the block, with the arrays below them.
#[unsafe(no_mangle)]
pub extern "C" fn keeper_delete(
    words: &mut [u64],
    name: u64,
    subscripts: &[i32],
    subscript: i32,
    n: u64,
    step: &mut u32,
) -> u32
    ensures calls { Calls (lent_words words.old) name subscripts.now (Delete subscript n) (Tells result step.new (lent_words words.new)) }
    ensures over { beyond words.new ≡ beyond words.old }
{
    let mut bank = WordBank { lent: words };
    blocks::delete(&mut bank, name, subscripts, subscript, n, step)
}

/// Gives the block at a place another base.
#[unsafe(no_mangle)]
pub extern "C" fn keeper_rebase(
    words: &mut [u64],
    name: u64,
    subscripts: &[i32],
    base: i64,
    step: &mut u32,
) -> u32
    ensures calls { Calls (lent_words words.old) name subscripts.now (Rebase base) (Tells result step.new (lent_words words.new)) }
    ensures over { beyond words.new ≡ beyond words.old }
{
    let mut bank = WordBank { lent: words };
    blocks::rebase(&mut bank, name, subscripts, base, step)
}

/// Two elements of a block of codewords change places, with the arrays below them.
#[unsafe(no_mangle)]
pub extern "C" fn keeper_exchange(
    words: &mut [u64],
    name: u64,
    subscripts: &[i32],
    one: i32,
    other: i32,
    step: &mut u32,
) -> u32
    ensures calls { Calls (lent_words words.old) name subscripts.now (Exchange one other) (Tells result step.new (lent_words words.new)) }
    ensures over { beyond words.new ≡ beyond words.old }
{
    let mut bank = WordBank { lent: words };
    blocks::exchange(&mut bank, name, subscripts, one, other, step)
}

/// What the block at a place is: all 0 where nothing is labelled. Refused, the extent stays as it was.
#[unsafe(no_mangle)]
pub extern "C" fn keeper_span(
    words: &mut [u64],
    name: u64,
    subscripts: &[i32],
    extent: &mut Extent,
    step: &mut u32,
) -> u32
    ensures calls { Calls (lent_words words.old) name subscripts.now Span (TellsInto result step.new (extent_in extent.old) extent.new) }
    ensures same { words.new ≡ words.old }
{
    let mut bank = WordBank { lent: words };
    items::span(&mut bank, name, subscripts, extent, step)
}

/// One data element of a block of the type. Refused, the word stays as it was.
#[unsafe(no_mangle)]
pub extern "C" fn keeper_read(
    words: &mut [u64],
    name: u64,
    subscripts: &[i32],
    kind: u64,
    subscript: i32,
    word: &mut u64,
    step: &mut u32,
) -> u32
    ensures calls { Calls (lent_words words.old) name subscripts.now (Read kind subscript) (TellsInto result step.new (word_in word.old) word.new) }
    ensures same { words.new ≡ words.old }
{
    let mut bank = WordBank { lent: words };
    items::read(&mut bank, name, subscripts, kind, subscript, word, step)
}

/// Replaces one data element of a block of the type.
#[unsafe(no_mangle)]
pub extern "C" fn keeper_write(
    words: &mut [u64],
    name: u64,
    subscripts: &[i32],
    kind: u64,
    subscript: i32,
    word: u64,
    step: &mut u32,
) -> u32
    ensures calls { Calls (lent_words words.old) name subscripts.now (Write kind subscript word) (Tells result step.new (lent_words words.new)) }
    ensures over { beyond words.new ≡ beyond words.old }
{
    let mut bank = WordBank { lent: words };
    items::write(&mut bank, name, subscripts, kind, subscript, word, step)
}

/// Copies as many data elements of a block of the type as the row has, from the subscript on, into the row. Refused, the row stays as it was.
#[unsafe(no_mangle)]
pub extern "C" fn keeper_read_row(
    words: &mut [u64],
    name: u64,
    subscripts: &[i32],
    kind: u64,
    subscript: i32,
    row: &mut [u64],
    step: &mut u32,
) -> u32
    ensures calls { Calls (lent_words words.old) name subscripts.now (RowRead kind subscript (length row.old)) (TellsInto result step.new (words_in row.old) row.new) }
    ensures refused { 0 < result → row.new ≡ row.old }
    ensures same { words.new ≡ words.old }
{
    let mut bank = WordBank { lent: words };
    items::read_row(&mut bank, name, subscripts, kind, subscript, row, step)
}

/// Replaces as many data elements of a block of the type as the row has, from the subscript on.
#[unsafe(no_mangle)]
pub extern "C" fn keeper_write_row(
    words: &mut [u64],
    name: u64,
    subscripts: &[i32],
    kind: u64,
    subscript: i32,
    row: &[u64],
    step: &mut u32,
) -> u32
    ensures calls { Calls (lent_words words.old) name subscripts.now (RowWrite kind subscript row.now) (Tells result step.new (lent_words words.new)) }
    ensures over { beyond words.new ≡ beyond words.old }
{
    let mut bank = WordBank { lent: words };
    items::write_row(&mut bank, name, subscripts, kind, subscript, row, step)
}
