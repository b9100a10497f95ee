// Open invoices of three customers in a ragged table: rows come and vanish, and the keeper moves the others.
use crate::rows::{SHOWN, read_row};
use booking::{Amounts, Refusal, Shape, Trace, Voucher, Vouchers};
use codeword::Codeword;
use keeper::Keeper;
use std::io;
use store::{ByteBank, Joined, Store, WordBank, word};
use telling::{answer, element_of, open, tell};

/// The name under which the invoices are booked, and that of the vouchers.
const INVOICES: u64 = 1;

const VOUCHERS: u64 = 2;

/// Books the table, and shows how its rows move, are read, and change places.
pub(crate) fn run(rt: &impl Print) -> io::Result<()> {
    let mut words = [0u64; 60];
    let mut bytes = [0u8; 291];
    let mut keeper = Keeper {
        store: Joined {
            first: WordBank { lent: &mut words },
            second: ByteBank { lent: &mut bytes },
        },
    };
    println!(rt; "")?;
    println!(rt; "OPEN INVOICES OF THREE CUSTOMERS")?;
    println!(rt; "")?;
    open(rt, &mut keeper)?;
    book_table(rt, &mut keeper)?;
    where_rows_lie(rt, &keeper)?;
    grow_second_row(rt, &mut keeper)?;
    where_rows_lie(rt, &keeper)?;
    show_row(rt, &keeper, 3)?;
    swap_rows(rt, &mut keeper)?;
    book_voucher(rt, &mut keeper)
}

// A table of three rows, of 4, 2 and 6 invoices.
fn book_table<S: Store>(rt: &impl Print, keeper: &mut Keeper<S>) -> io::Result<()> {
    println!(rt; "A table for three customers is taken under name {INVOICES}:")?;
    answer(
        rt,
        keeper.take(&Trace::new(INVOICES).unwrap(), Shape::table(1, 3)),
    )?;
    book_row(rt, keeper, 1, &[119_00, 59_50, -20_00, 8_75])?;
    book_row(rt, keeper, 2, &[250_00, 17_30])?;
    book_row(rt, keeper, 3, &[1_00, 2_00, 3_00, 4_00, -5_00, 6_00])
}

// A row of amounts, taken and written.
fn book_row<S: Store>(
    rt: &impl Print,
    keeper: &mut Keeper<S>,
    customer: i32,
    amounts: &[i64],
) -> io::Result<()> {
    let n = amounts.len();
    match take_and_write(keeper, customer, amounts) {
        Ok(()) => println!(rt; "  Customer {customer}: {n} invoices are booked."),
        Err(refusal) => tell(rt, refusal),
    }
}

// The booking of a row: room for it, then its amounts.
fn take_and_write<S: Store>(
    keeper: &mut Keeper<S>,
    customer: i32,
    amounts: &[i64],
) -> Result<(), Refusal> {
    let row = element_of(INVOICES, customer)?;
    keeper.take(&row, Shape::row::<Amounts>(1, amounts.len() as u64))?;
    keeper.write_row::<Amounts>(&row, 1, amounts)
}

// Where each row of the table lies, found by following the labels.
fn where_rows_lie<S: Store>(rt: &impl Print, keeper: &Keeper<S>) -> io::Result<()> {
    let table = Codeword::unpack(word(&keeper.store, INVOICES));
    for (number, at) in (1..).zip(table.first..table.first + table.length) {
        where_row_lies(rt, keeper, number, at)?;
    }
    let total = keeper.total();
    println!(rt; "  {total} words are free.")
}

// Where the row lies whose label stands at an address.
fn where_row_lies<S: Store>(
    rt: &impl Print,
    keeper: &Keeper<S>,
    number: u64,
    at: u64,
) -> io::Result<()> {
    let Codeword { first, length, .. } = Codeword::unpack(word(&keeper.store, at));
    if first == 0 {
        return println!(rt; "  Row {number} is empty.");
    }
    let last = first + length.saturating_sub(1);
    let label = word(&keeper.store, first - 1);
    println!(rt;
        "  Row {number} lies from address {first} to {last}; its label stands at {at}, and the word before it says {label}."
    )
}

// The second customer's row is freed, and taken again so large that the others must make room.
fn grow_second_row<S: Store>(rt: &impl Print, keeper: &mut Keeper<S>) -> io::Result<()> {
    let row = element_of(INVOICES, 2).unwrap();
    println!(rt; "The second row is freed:")?;
    answer(rt, keeper.free(&row))?;
    where_rows_lie(rt, keeper)?;
    println!(rt; "It is taken again, of 40 amounts:")?;
    answer(rt, keeper.take(&row, Shape::row::<Amounts>(1, 40)))?;
    println!(rt;
        "And of 12 amounts. The words are there, but no gap alone has as many, so the rows close up:"
    )?;
    answer(rt, keeper.take(&row, Shape::row::<Amounts>(1, 12)))
}

// The amounts of a row, read back as one row.
fn show_row<S: Store>(rt: &impl Print, keeper: &Keeper<S>, customer: i32) -> io::Result<()> {
    let mut amounts = [0; SHOWN];
    match read_row(
        keeper,
        &element_of(INVOICES, customer).unwrap(),
        1,
        &mut amounts,
    ) {
        Ok(read) => println!(rt; "  Row {customer} holds, in cents: {read:?}"),
        Err(refusal) => tell(rt, refusal),
    }
}

// The first and the third customer change places.
fn swap_rows<S: Store>(rt: &impl Print, keeper: &mut Keeper<S>) -> io::Result<()> {
    println!(rt; "Rows 1 and 3 change places; no word of either moves:")?;
    answer(rt, keeper.exchange(&Trace::new(INVOICES).unwrap(), 1, 3))?;
    where_rows_lie(rt, keeper)?;
    show_row(rt, keeper, 1)?;
    show_row(rt, keeper, 3)
}

// A voucher is booked, read back, and asked for as an amount.
fn book_voucher<S: Store>(rt: &impl Print, keeper: &mut Keeper<S>) -> io::Result<()> {
    println!(rt; "Room for a voucher is taken under name {VOUCHERS}, and the voucher is written:")?;
    let trace = Trace::new(VOUCHERS).unwrap();
    let voucher = Voucher {
        days: 46_342,
        number: 17,
    };
    answer(rt, keeper.take(&trace, Shape::row::<Vouchers>(0, 1)))?;
    answer(rt, keeper.write::<Vouchers>(&trace, 0, voucher))?;
    match keeper.read::<Vouchers>(&trace, 0) {
        Ok(found) => println!(rt; "  Read back: {found:?}.")?,
        Err(refusal) => tell(rt, refusal)?,
    }
    println!(rt; "Read as an amount:")?;
    match keeper.read::<Amounts>(&trace, 0) {
        Ok(amount) => println!(rt; "  {amount}."),
        Err(refusal) => tell(rt, refusal),
    }
}
