use crate::traces::{book_row, rows};
use booking::{Amounts, Kind, Refusal, Trace, Voucher, Vouchers, Words, item_again, word_again};
use std::test::Fail;

#[test]
fn names(rt: HostRuntime) {
    assert_eq!(rt; book_row(1, 7), Ok((1, 1)));
    assert_eq!(rt; book_row(64, 7), Ok((64, 1)));
    assert_eq!(rt; book_row(0, 7), Err(Refusal::UnknownName));
    assert_eq!(rt; book_row(65, 7), Err(Refusal::UnknownName));
    assert_eq!(rt; book_row(u64::MAX, 7), Err(Refusal::UnknownName));
}

fn third(name: u64) -> Result<Trace, Refusal> {
    Ok(Trace::new(name)?.down(-5)?.down(0)?.down(i32::MAX)?)
}

#[test]
fn subscripts(rt: HostRuntime) -> Result<(), Fail> {
    let three = third(64)?;
    assert_eq!(rt; three.subscripts(), [-5, 0, i32::MAX].as_slice());
    let Err((refusal, trace)) = three.down(1) else {
        return Err(Fail::new("a fourth subscript"));
    };
    assert_eq!(rt; refusal, Refusal::TooDeep);
    assert_eq!(rt; (trace.name(), trace.depth()), (64, 3));
    assert_eq!(rt; trace.subscripts(), [-5, 0, i32::MAX].as_slice());
    Ok(())
}

#[test]
fn two_rows(rt: HostRuntime) -> Result<(), Fail> {
    let (one, other) = rows(3, 7, -7)?;
    assert_eq!(rt; one.subscripts(), [7].as_slice());
    assert_eq!(rt; other.subscripts(), [-7].as_slice());
    Ok(())
}

#[test]
fn numbers(rt: HostRuntime) {
    let table = [
        (Refusal::OutsideStore(9), 1, None),
        (Refusal::WrongCount, 2, None),
        (Refusal::UnknownName, 3, None),
        (Refusal::TooDeep, 4, None),
        (Refusal::Unlabelled(1), 5, Some(1)),
        (Refusal::WrongSort(2), 6, Some(2)),
        (Refusal::OutOfBounds(4), 7, Some(4)),
        (Refusal::WrongType, 8, None),
        (Refusal::BadField, 9, None),
        (Refusal::BadLength, 10, None),
        (Refusal::NoRoom, 11, None),
        (Refusal::Inconsistent, 12, None),
    ];
    for (refusal, number, step) in table {
        assert_eq!(rt; (refusal.number(), refusal.step()), (number, step));
    }
}

#[test]
fn types(rt: HostRuntime) {
    assert_eq!(rt; (Words::TYPE, Amounts::TYPE, Vouchers::TYPE), (0, 1, 2));
}

#[test]
fn words(rt: HostRuntime) {
    assert_eq!(rt;
        (Words::to_word(u64::MAX), Words::from_word(7)),
        (u64::MAX, 7)
    );
    assert_eq!(rt;
        (
            Amounts::to_word(-1),
            Amounts::from_word(0xffff_ffff_ffff_ff9c),
        ),
        (u64::MAX, -100)
    );
    let voucher = Voucher {
        days: 45_000,
        number: 12,
    };
    assert_eq!(rt; Vouchers::to_word(voucher), 0x0000_afc8_0000_000c);
    assert_eq!(rt; Vouchers::from_word(0x0000_afc8_0000_000c), voucher);
}

#[test]
fn round_trips(rt: HostRuntime) {
    for x in [i64::MIN, -1, 0, 1, i64::MAX] {
        assert_eq!(rt; item_again::<Amounts>(x), x);
    }
    assert_eq!(rt;
        (
            word_again::<Words>(u64::MAX),
            word_again::<Vouchers>(u64::MAX),
        ),
        (u64::MAX, u64::MAX)
    );
}
