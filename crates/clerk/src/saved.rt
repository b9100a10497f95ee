// A month is saved, and goes on in another house's store.
use crate::rows::{SHOWN, read_row};
use booking::{Amounts, Refusal, Shape, Trace};
use keeper::Keeper;
use std::io;
use store::{ByteBank, Store, WordBank};
use telling::{answer, element_of, tell};

/// The words of either house's store.
const COUNT: usize = 80;

/// The names under which a row and a table are booked.
const BANK_LINES: u64 = 1;

const CUSTOMERS: u64 = 2;

/// Saves one house's words, loads them into the other's store, reads the same there, and tries damaged copies.
pub(crate) fn run(rt: &impl Print) -> io::Result<()> {
    println!(rt; "")?;
    println!(rt; "A MONTH IS CARRIED OVER")?;
    println!(rt; "")?;
    let mut saved = [0u64; COUNT];
    first_house(rt, &mut saved)?;
    second_house(rt, saved)
}

// The first house books its month and saves it.
fn first_house(rt: &impl Print, list: &mut [u64]) -> io::Result<()> {
    let mut words = [0u64; COUNT];
    let mut keeper = Keeper {
        store: WordBank { lent: &mut words },
    };
    println!(rt; "The first house books four bank lines, and the invoices of two customers:")?;
    answer(rt, book_month(&mut keeper))?;
    say_month(rt, &keeper)?;
    println!(rt; "It saves its {COUNT} words:")?;
    answer(rt, keeper.save(list))
}

// A row of bank lines under one name, and a table of two rows under another.
fn book_month<S: Store>(keeper: &mut Keeper<S>) -> Result<(), Refusal> {
    keeper.make()?;
    book_row(
        keeper,
        &Trace::new(BANK_LINES)?,
        -1,
        &[700_00, -80_00, 9_00, 10],
    )?;
    keeper.take(&Trace::new(CUSTOMERS)?, Shape::table(1, 2))?;
    book_row(keeper, &element_of(CUSTOMERS, 1)?, 1, &[12_00, 3_50])?;
    book_row(keeper, &element_of(CUSTOMERS, 2)?, 1, &[-4_00])
}

// A row of amounts, taken and written.
fn book_row<S: Store>(
    keeper: &mut Keeper<S>,
    trace: &Trace,
    base: i32,
    amounts: &[i64],
) -> Result<(), Refusal> {
    keeper.take(
        trace,
        Shape::row::<Amounts>(i64::from(base), amounts.len() as u64),
    )?;
    keeper.write_row::<Amounts>(trace, base, amounts)
}

// Says what is booked.
fn say_month<S: Store>(rt: &impl Print, keeper: &Keeper<S>) -> io::Result<()> {
    say_row(
        rt,
        keeper,
        "Bank lines",
        &Trace::new(BANK_LINES).unwrap(),
        -1,
    )?;
    say_row(
        rt,
        keeper,
        "Customer 1",
        &element_of(CUSTOMERS, 1).unwrap(),
        1,
    )?;
    say_row(
        rt,
        keeper,
        "Customer 2",
        &element_of(CUSTOMERS, 2).unwrap(),
        1,
    )
}

// Says what a row holds.
fn say_row<S: Store>(
    rt: &impl Print,
    keeper: &Keeper<S>,
    title: &str,
    trace: &Trace,
    first: i32,
) -> io::Result<()> {
    let mut amounts = [0; SHOWN];
    match read_row(keeper, trace, first, &mut amounts) {
        Ok(read) => println!(rt; "  {title}, in cents: {read:?}"),
        Err(refusal) => tell(rt, refusal),
    }
}

// The second house loads what was saved, reads the same, and refuses damaged copies.
fn second_house(rt: &impl Print, mut saved: [u64; COUNT]) -> io::Result<()> {
    let mut bytes = [0u8; 8 * COUNT];
    let mut keeper = Keeper {
        store: ByteBank { lent: &mut bytes },
    };
    println!(rt; "The second house, whose store lies in bytes, loads them:")?;
    answer(rt, keeper.load(&saved))?;
    say_month(rt, &keeper)?;
    println!(rt; "A copy with one word missing:")?;
    answer(rt, keeper.load(&saved[0..COUNT - 1]))?;
    println!(rt; "A copy in which a label points one word further, into the middle of its block:")?;
    saved[1] = saved[1].wrapping_add(1);
    answer(rt, keeper.load(&saved))?;
    println!(rt; "The second house still has what it loaded:")?;
    say_month(rt, &keeper)
}
