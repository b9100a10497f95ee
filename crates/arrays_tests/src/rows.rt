// Rows taken, freed and taken again, with the words that each call leaves.
use crate::laid::{gap, row, stands, take_row, two_rows};
use booking::{Amounts, Refusal, Shape, Trace};
use keeper::Keeper;
use std::process::Abort;
use std::test::Fail;
use store::{Store, WordBank};

#[test]
fn taken_one_after_another(rt: HostRuntime) -> Result<(), Fail> {
    let mut words = [9u64; 75];
    let mut keeper = Keeper {
        store: WordBank { lent: &mut words },
    };
    assert_eq!(rt; two_rows(&mut keeper), Ok(()));
    stands(
        &rt,
        &keeper,
        &[
            (0, gap(3, 72)),
            (1, row(66, 3)),
            (2, row(70, 2)),
            (3, 0),
            (65, 1),
            (66, 0),
            (69, 2),
            (72, gap(3, 0)),
            (73, 0),
        ],
    );
    Ok(())
}

// Two rows, the first freed again, and then what taking n amounts under name 3 answers.
fn third_of<S: Store>(rt: &impl Abort, keeper: &mut Keeper<S>, n: u64) -> Result<(), Refusal> {
    assert_eq!(rt; two_rows(keeper), Ok(()));
    assert_eq!(rt; keeper.free(&Trace::new(1)?), Ok(()));
    take_row(keeper, &Trace::new(3)?, n)
}

#[test]
fn closed_up_for_a_larger_row(rt: HostRuntime) -> Result<(), Fail> {
    let mut words = [9u64; 75];
    let mut keeper = Keeper {
        store: WordBank { lent: &mut words },
    };
    assert_eq!(rt; third_of(&rt, &mut keeper, 5), Ok(()));
    stands(
        &rt,
        &keeper,
        &[
            (0, gap(1, 74)),
            (1, 0),
            (2, row(66, 2)),
            (3, row(69, 5)),
            (65, 2),
            (68, 3),
            (74, gap(1, 0)),
        ],
    );
    assert_eq!(rt; third_of(&rt, &mut keeper, 6), Ok(()));
    stands(&rt, &keeper, &[(0, 0), (3, row(69, 6))]);
    assert_eq!(rt; keeper.total(), 0);
    assert_eq!(rt; third_of(&rt, &mut keeper, 7), Err(Refusal::NoRoom));
    stands(&rt, &keeper, &[(0, gap(7, 65)), (65, gap(4, 72)), (3, 0)]);
    Ok(())
}

#[test]
fn taken_again(rt: HostRuntime) -> Result<(), Fail> {
    let mut words = [9u64; 75];
    let mut keeper = Keeper {
        store: WordBank { lent: &mut words },
    };
    assert_eq!(rt; two_rows(&mut keeper), Ok(()));
    let one = Trace::new(1)?;
    assert_eq!(rt; keeper.write_row::<Amounts>(&one, 1, &[5, 6, 7]), Ok(()));
    assert_eq!(rt; take_row(&mut keeper, &one, 7), Err(Refusal::NoRoom));
    assert_eq!(rt; take_row(&mut keeper, &one, u64::MAX), Err(Refusal::NoRoom));
    stands(
        &rt,
        &keeper,
        &[(1, row(66, 3)), (66, 5), (67, 6), (68, 7), (0, gap(3, 72))],
    );
    assert_eq!(rt; take_row(&mut keeper, &one, 6), Ok(()));
    stands(
        &rt,
        &keeper,
        &[(2, row(66, 2)), (1, row(69, 6)), (68, 1), (69, 0), (0, 0)],
    );
    Ok(())
}

#[test]
fn gaps_combined(rt: HostRuntime) -> Result<(), Fail> {
    let mut words = [9u64; 75];
    let mut keeper = Keeper {
        store: WordBank { lent: &mut words },
    };
    assert_eq!(rt; two_rows(&mut keeper), Ok(()));
    assert_eq!(rt; keeper.free(&Trace::new(1)?), Ok(()));
    assert_eq!(rt; keeper.free(&Trace::new(2)?), Ok(()));
    stands(
        &rt,
        &keeper,
        &[
            (0, gap(10, 65)),
            (65, gap(4, 69)),
            (69, gap(3, 72)),
            (72, gap(3, 0)),
        ],
    );
    assert_eq!(rt; take_row(&mut keeper, &Trace::new(3)?, 4), Ok(()));
    stands(
        &rt,
        &keeper,
        &[(3, row(66, 4)), (0, gap(5, 70)), (70, gap(5, 0)), (72, 0)],
    );
    Ok(())
}

// Closing up moves the very codeword that is to be written.
#[test]
fn a_moved_place(rt: HostRuntime) -> Result<(), Fail> {
    let mut words = [9u64; 75];
    let mut keeper = Keeper {
        store: WordBank { lent: &mut words },
    };
    assert_eq!(rt; keeper.make(), Ok(()));
    assert_eq!(rt; take_row(&mut keeper, &Trace::new(2)?, 1), Ok(()));
    assert_eq!(rt; keeper.take(&Trace::new(1)?, Shape::table(1, 2)), Ok(()));
    let older = Trace::new(1)?.down(2)?;
    let newer = Trace::new(1)?.down(1)?;
    assert_eq!(rt; take_row(&mut keeper, &older, 1), Ok(()));
    assert_eq!(rt; keeper.free(&Trace::new(2)?), Ok(()));
    assert_eq!(rt; take_row(&mut keeper, &newer, 3), Ok(()));
    stands(
        &rt,
        &keeper,
        &[
            (1, 66 | 2 << 18 | 1 << 36 | 1 << 54),
            (65, 1),
            (66, row(71, 3)),
            (67, row(69, 1)),
            (68, 67),
            (70, 66),
            (74, gap(1, 0)),
            (0, gap(1, 74)),
        ],
    );
    Ok(())
}
