// Deleting elements on examples, with the words that each leaves.
use crate::laid::{four_rows, gap, row, stands, table, take_row, two_rows};
use booking::{Amounts, Refusal, Shape, Trace};
use keeper::Keeper;
use std::process::Abort;
use std::test::Fail;
use store::{Store, WordBank};

#[test]
fn one_of_a_row(rt: HostRuntime) -> Result<(), Fail> {
    let mut words = [9u64; 75];
    let mut keeper = Keeper {
        store: WordBank { lent: &mut words },
    };
    assert_eq!(rt; two_rows(&mut keeper), Ok(()));
    assert_eq!(rt; keeper.delete(&Trace::new(1)?, 1, 1), Ok(()));
    stands(
        &rt,
        &keeper,
        &[
            (0, gap(4, 68)),
            (1, row(66, 2)),
            (2, row(70, 2)),
            (65, 1),
            (66, 6),
            (67, 7),
            (68, gap(1, 72)),
            (69, 2),
            (72, gap(3, 0)),
            (73, 0),
        ],
    );
    assert_eq!(rt; keeper.delete(&Trace::new(1)?, 2, 1), Ok(()));
    stands(
        &rt,
        &keeper,
        &[
            (0, gap(5, 67)),
            (1, row(66, 1)),
            (66, 6),
            (67, gap(1, 68)),
            (68, gap(1, 72)),
        ],
    );
    Ok(())
}

// The words of a table of four rows before any of them leaves.
fn stands_before<S: Store>(rt: &impl Abort, keeper: &Keeper<S>) {
    stands(
        rt,
        keeper,
        &[
            (3, table(66, 4)),
            (65, 3),
            (66, row(71, 1)),
            (67, row(73, 2)),
            (68, row(76, 3)),
            (69, row(80, 4)),
            (70, 66),
            (72, 67),
            (75, 68),
            (79, 69),
            (0, gap(6, 84)),
        ],
    );
}

#[test]
fn two_rows_of_a_table(rt: HostRuntime) -> Result<(), Fail> {
    let mut words = [9u64; 90];
    let mut keeper = Keeper {
        store: WordBank { lent: &mut words },
    };
    assert_eq!(rt; four_rows(&mut keeper), Ok(()));
    stands_before(&rt, &keeper);
    assert_eq!(rt; keeper.delete(&Trace::new(3)?, 2, 2), Ok(()));
    stands(
        &rt,
        &keeper,
        &[
            (3, table(66, 2)),
            (65, 3),
            (66, row(71, 1)),
            (67, row(80, 4)),
            (70, 66),
            (71, 11),
            (79, 67),
            (80, 44),
            (0, gap(15, 68)),
            (68, gap(2, 72)),
            (69, 0),
            (72, gap(3, 75)),
            (73, 0),
            (75, gap(4, 84)),
            (76, 0),
            (78, 0),
            (84, gap(6, 0)),
        ],
    );
    Ok(())
}

#[test]
fn a_row_behind_those_that_leave_is_found(rt: HostRuntime) -> Result<(), Fail> {
    let mut words = [9u64; 90];
    let mut keeper = Keeper {
        store: WordBank { lent: &mut words },
    };
    assert_eq!(rt; four_rows(&mut keeper), Ok(()));
    assert_eq!(rt; keeper.delete(&Trace::new(3)?, 2, 2), Ok(()));
    assert_eq!(rt; keeper.read::<Amounts>(&Trace::new(3)?.down(2)?, 1), Ok(44));
    assert_eq!(rt;
        keeper.read::<Amounts>(&Trace::new(3)?.down(3)?, 1),
        Err(Refusal::OutOfBounds(1))
    );
    Ok(())
}

// Tables of two under name 64, three one below the other, each in the first element of the one above, and a row of two amounts below the
// last. Answers where the row is.
fn nested<S: Store>(keeper: &mut Keeper<S>) -> Result<Trace, Refusal> {
    keeper.make()?;
    let mut trace = Trace::new(64)?;
    for _ in 0..3 {
        keeper.take(&trace, Shape::table(1, 2))?;
        trace = trace.down(1)?;
    }
    take_row(keeper, &trace, 2)?;
    Ok(trace)
}

#[test]
fn a_table_in_a_table(rt: HostRuntime) -> Result<(), Fail> {
    let mut words = [9u64; 90];
    let mut keeper = Keeper {
        store: WordBank { lent: &mut words },
    };
    let trace = nested(&mut keeper)?;
    assert_eq!(rt; keeper.delete(&trace, 1, 1), Ok(()));
    stands(
        &rt,
        &keeper,
        &[
            (66, table(69, 2)),
            (69, table(72, 2)),
            (72, row(75, 1)),
            (0, gap(14, 76)),
            (76, gap(1, 77)),
        ],
    );
    assert_eq!(rt; keeper.delete(&Trace::new(64)?, 1, 1), Ok(()));
    stands(
        &rt,
        &keeper,
        &[
            (64, table(66, 1)),
            (65, 64),
            (66, 0),
            (67, gap(1, 68)),
            (68, gap(3, 71)),
            (71, gap(3, 74)),
            (74, gap(2, 76)),
            (76, gap(1, 77)),
            (77, gap(13, 0)),
            (0, gap(23, 67)),
        ],
    );
    Ok(())
}

#[test]
fn refused_at_each_door(rt: HostRuntime) -> Result<(), Fail> {
    let mut words = [9u64; 75];
    let mut keeper = Keeper {
        store: WordBank { lent: &mut words },
    };
    assert_eq!(rt; two_rows(&mut keeper), Ok(()));
    let one = Trace::new(1)?;
    let three = Trace::new(3)?;
    assert_eq!(rt; keeper.delete(&three, 1, 0), Err(Refusal::Unlabelled(1)));
    assert_eq!(rt; keeper.delete(&one, 0, 0), Err(Refusal::OutOfBounds(1)));
    assert_eq!(rt; keeper.delete(&one, 4, 1), Err(Refusal::OutOfBounds(1)));
    assert_eq!(rt;
        keeper.delete(&one, i32::MIN, 1),
        Err(Refusal::OutOfBounds(1))
    );
    for (subscript, n) in [(1, 0), (1, 3), (2, 3), (3, 2), (1, u64::MAX), (3, u64::MAX)] {
        assert_eq!(rt; keeper.delete(&one, subscript, n), Err(Refusal::BadLength));
    }
    assert_eq!(rt;
        keeper.delete(&one.down(1)?, 1, 1),
        Err(Refusal::WrongSort(1))
    );
    stands(
        &rt,
        &keeper,
        &[(0, gap(3, 72)), (1, row(66, 3)), (2, row(70, 2)), (66, 5)],
    );
    Ok(())
}
