// Inserting elements on examples, with the words that each leaves.
use crate::laid::{four_rows, gap, row, stands, table, take_row, two_rows};
use booking::{Amounts, Refusal, Trace};
use keeper::Keeper;
use std::test::Fail;
use store::WordBank;

#[test]
fn two_into_a_row(rt: HostRuntime) -> Result<(), Fail> {
    let mut words = [9u64; 75];
    let mut keeper = Keeper {
        store: WordBank { lent: &mut words },
    };
    assert_eq!(rt; two_rows(&mut keeper), Ok(()));
    assert_eq!(rt; keeper.insert(&Trace::new(1)?, 2, 2), Ok(()));
    stands(
        &rt,
        &keeper,
        &[
            (0, gap(1, 74)),
            (1, row(66, 5)),
            (2, row(72, 2)),
            (65, 1),
            (66, 5),
            (67, 0),
            (68, 0),
            (69, 6),
            (70, 7),
            (71, 2),
            (74, gap(1, 0)),
        ],
    );
    Ok(())
}

#[test]
fn the_last_free_word(rt: HostRuntime) -> Result<(), Fail> {
    let mut words = [9u64; 75];
    let mut keeper = Keeper {
        store: WordBank { lent: &mut words },
    };
    assert_eq!(rt; two_rows(&mut keeper), Ok(()));
    assert_eq!(rt; keeper.insert(&Trace::new(1)?, 2, 2), Ok(()));
    // Behind the last element.
    assert_eq!(rt; keeper.insert(&Trace::new(1)?, 6, 1), Ok(()));
    stands(
        &rt,
        &keeper,
        &[
            (0, 0),
            (1, row(66, 6)),
            (2, row(73, 2)),
            (70, 7),
            (71, 0),
            (72, 2),
        ],
    );
    assert_eq!(rt; keeper.insert(&Trace::new(2)?, 1, 1), Err(Refusal::NoRoom));
    Ok(())
}

#[test]
fn two_into_a_table(rt: HostRuntime) -> Result<(), Fail> {
    let mut words = [9u64; 90];
    let mut keeper = Keeper {
        store: WordBank { lent: &mut words },
    };
    assert_eq!(rt; four_rows(&mut keeper), Ok(()));
    assert_eq!(rt; keeper.insert(&Trace::new(3)?, 2, 2), Ok(()));
    stands(
        &rt,
        &keeper,
        &[
            (3, table(66, 6)),
            (65, 3),
            (66, row(73, 1)),
            (67, 0),
            (68, 0),
            (69, row(75, 2)),
            (70, row(78, 3)),
            (71, row(82, 4)),
            (72, 66),
            (74, 69),
            (77, 70),
            (81, 71),
            (82, 44),
            (0, gap(4, 86)),
            (86, gap(4, 0)),
        ],
    );
    assert_eq!(rt; keeper.read::<Amounts>(&Trace::new(3)?.down(4)?, 1), Ok(22));
    Ok(())
}

#[test]
fn all_close_up_first(rt: HostRuntime) -> Result<(), Fail> {
    let mut words = [9u64; 75];
    let mut keeper = Keeper {
        store: WordBank { lent: &mut words },
    };
    assert_eq!(rt; keeper.make(), Ok(()));
    assert_eq!(rt; take_row(&mut keeper, &Trace::new(1)?, 2), Ok(()));
    assert_eq!(rt; take_row(&mut keeper, &Trace::new(2)?, 1), Ok(()));
    assert_eq!(rt; keeper.write::<Amounts>(&Trace::new(2)?, 1, 8), Ok(()));
    assert_eq!(rt; keeper.free(&Trace::new(1)?), Ok(()));
    assert_eq!(rt; keeper.insert(&Trace::new(2)?, 1, 1), Ok(()));
    stands(
        &rt,
        &keeper,
        &[
            (0, gap(7, 68)),
            (1, 0),
            (2, row(66, 2)),
            (65, 2),
            (66, 0),
            (67, 8),
            (68, gap(7, 0)),
        ],
    );
    Ok(())
}

#[test]
fn refused_at_each_door(rt: HostRuntime) -> Result<(), Fail> {
    let mut words = [9u64; 75];
    let mut keeper = Keeper {
        store: WordBank { lent: &mut words },
    };
    assert_eq!(rt; two_rows(&mut keeper), Ok(()));
    let one = Trace::new(1)?;
    assert_eq!(rt;
        keeper.insert(&Trace::new(3)?, 1, 0),
        Err(Refusal::Unlabelled(1))
    );
    for subscript in [0, 5, i32::MIN, i32::MAX] {
        assert_eq!(rt;
            keeper.insert(&one, subscript, 0),
            Err(Refusal::OutOfBounds(1))
        );
    }
    for subscript in [1, 4] {
        assert_eq!(rt; keeper.insert(&one, subscript, 0), Err(Refusal::BadLength));
        for n in [4, 1 << 18, u64::MAX] {
            assert_eq!(rt; keeper.insert(&one, subscript, n), Err(Refusal::NoRoom));
        }
    }
    assert_eq!(rt;
        keeper.insert(&one.down(1)?, 1, 1),
        Err(Refusal::WrongSort(1))
    );
    stands(
        &rt,
        &keeper,
        &[(0, gap(3, 72)), (1, row(66, 3)), (2, row(70, 2)), (66, 5)],
    );
    Ok(())
}
