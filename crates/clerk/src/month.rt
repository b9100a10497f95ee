// One month in two houses: receivables' keeper gets the bookings as they come, treasury's those that were granted.
use crate::closing::{Closed, close};
use crate::items::compare;
use agreement::{Settlement, Unsettled};
use booking::{Amounts, Kind, Refusal, Shape, Trace, Voucher, Vouchers};
use entries::{Booking, Deed, Entry};
use keeper::Keeper;
use std::alloc::Global;
use std::io;
use store::{ByteBank, Joined, Store, WordBank};
use telling::{element_of, tell, tell_list};

/// The places of the month: a table of three customers' invoices, its rows, and the vouchers.
#[derive(Drop)]
struct Places {
    invoices: Trace,
    first: Trace,
    second: Trace,
    third: Trace,
    vouchers: Trace,
}

impl Places {
    fn new() -> Result<Places, Refusal> {
        Ok(Places {
            invoices: Trace::new(1)?,
            first: element_of(1, 1)?,
            second: element_of(1, 2)?,
            third: element_of(1, 3)?,
            vouchers: Trace::new(2)?,
        })
    }
}

/// The amounts of the month, in cents, as their words.
#[derive(Drop)]
struct Invoices {
    first: [u64; 4],
    second: [u64; 2],
    later: [u64; 3],
}

impl Invoices {
    fn new() -> Invoices {
        Invoices {
            first: [119_00, 59_50, -20_00, 8_75].map(Amounts::to_word),
            second: [250_00, 17_30].map(Amounts::to_word),
            later: [5_00, -5_00, 61_20].map(Amounts::to_word),
        }
    }
}

fn book<'a>(trace: &'a Trace, deed: Deed<'a>) -> Entry<'a> {
    Entry::Book(Booking { trace, deed })
}

fn write_row<'a>(trace: &'a Trace, subscript: i32, words: &'a [u64]) -> Entry<'a> {
    let kind = Amounts::TYPE;
    book(
        trace,
        Deed::WriteRow {
            kind,
            subscript,
            words,
        },
    )
}

fn write_voucher<'a>(trace: &'a Trace, subscript: i32, number: u32) -> Entry<'a> {
    let days = 46_342;
    book(
        trace,
        Deed::Write {
            kind: Vouchers::TYPE,
            subscript,
            word: Vouchers::to_word(Voucher { days, number }),
        },
    )
}

// The table is taken, and the first two customers' invoices are booked; for the third there are not enough free words.
fn first_half<'a>(at: &'a Places, invoices: &'a Invoices) -> [Entry<'a>; 9] {
    [
        book(&at.invoices, Deed::Take(Shape::table(1, 3))),
        book(&at.first, Deed::Take(Shape::row::<Amounts>(1, 4))),
        write_row(&at.first, 1, &invoices.first),
        book(&at.second, Deed::Take(Shape::row::<Amounts>(1, 2))),
        write_row(&at.second, 1, &invoices.second),
        Entry::Tidy,
        book(&at.third, Deed::Take(Shape::row::<Amounts>(1, 40))),
        book(&at.third, Deed::Take(Shape::row::<Amounts>(1, 3))),
        write_row(&at.third, 1, &invoices.later),
    ]
}

// Paid invoices leave, new ones come, vouchers are booked, and some bookings are wrong.
fn second_half<'a>(at: &'a Places, invoices: &'a Invoices) -> [Entry<'a>; 13] {
    let kind = Amounts::TYPE;
    [
        book(&at.first, Deed::Delete { subscript: 2, n: 1 }),
        book(&at.second, Deed::Insert { subscript: 3, n: 3 }),
        write_row(&at.second, 3, &invoices.later),
        book(&at.second, Deed::Insert { subscript: 9, n: 1 }),
        book(&at.vouchers, Deed::Read { kind, subscript: 1 }),
        book(&at.vouchers, Deed::Take(Shape::row::<Vouchers>(0, 2))),
        write_voucher(&at.vouchers, 0, 17),
        book(&at.vouchers, Deed::Read { kind, subscript: 0 }),
        Entry::Tidy,
        book(&at.invoices, Deed::Exchange(1, 3)),
        book(&at.third, Deed::Rebase(0)),
        book(
            &at.third,
            Deed::ReadRow {
                kind,
                subscript: 0,
                length: 3,
            },
        ),
        book(&at.invoices, Deed::Span),
    ]
}

/// Books the month in both houses, and tells both lists, the replies, and what is open in either house afterwards.
pub(crate) fn run(rt: &impl Print, alloc: Global) -> io::Result<()> {
    println!(rt; "")?;
    println!(rt; "RECEIVABLES AND TREASURY CLOSE THE MONTH")?;
    println!(rt; "")?;
    let mut words = [0u64; 100];
    let mut bytes = [0u8; 8 * 70];
    let mut more = [0u64; 50];
    let mut receivables = Keeper {
        store: WordBank { lent: &mut words },
    };
    let mut treasury = Keeper {
        store: Joined {
            first: ByteBank { lent: &mut bytes },
            second: WordBank { lent: &mut more },
        },
    };
    println!(rt;
        "Receivables' keeper has a store of 100 words; treasury's has 120, the first 70 of them in bytes."
    )?;
    let places = match Places::new() {
        Ok(places) => places,
        Err(refusal) => return tell(rt, refusal),
    };
    let invoices = Invoices::new();
    let mut asked = Vec::new(alloc);
    asked.extend_from_slice(&first_half(&places, &invoices))?;
    asked.extend_from_slice(&second_half(&places, &invoices))?;
    match close(alloc, &mut receivables, &asked, &mut treasury) {
        Ok(closed) => tell_month(rt, &asked, &closed)?,
        Err(unsettled) => return tell_unsettled(rt, &unsettled),
    }
    compare(rt, &receivables, &treasury)
}

// Tells both lists, each with the replies to it.
fn tell_month(rt: &impl Print, asked: &[Entry<'_>], closed: &Closed<'_>) -> io::Result<()> {
    let Settlement {
        receivables,
        treasury,
    } = &closed.settlement;
    println!(rt; "Receivables books:")?;
    tell_list(rt, asked, &receivables.replies)?;
    println!(rt;
        "What receivables granted is handed on, and treasury books it, with a tidy behind each fifth booking:"
    )?;
    tell_list(rt, &closed.handed_on, &treasury.replies)
}

fn tell_unsettled(rt: &impl Print, unsettled: &Unsettled) -> io::Result<()> {
    match unsettled {
        Unsettled::TooSmall => println!(rt; "  One of the stores is too small for a keeper."),
        Unsettled::NoMemory => println!(rt; "  There is no memory for the replies."),
        Unsettled::BrokeOff(_) => println!(rt; "  There is no memory for a row that was read."),
    }
}
