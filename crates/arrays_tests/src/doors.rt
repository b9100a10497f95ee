// What taking and freeing refuse, and tables in tables down to the last level.
use crate::laid::{gap, row, stands, two_rows};
use booking::{Refusal, Shape, Trace, Vouchers, Words};
use keeper::Keeper;
use std::test::Fail;
use store::{Store, WordBank};

// No elements from 0 on, of a type.
fn none_of(codes: bool, kind: u64) -> Shape {
    Shape {
        base: 0,
        length: 0,
        codes,
        kind,
    }
}

#[test]
fn refused_at_each_door(rt: HostRuntime) -> Result<(), Fail> {
    let mut words = [9u64; 75];
    let mut keeper = Keeper {
        store: WordBank { lent: &mut words },
    };
    assert_eq!(rt; two_rows(&mut keeper), Ok(()));
    let one = Trace::new(1)?;
    let three = Trace::new(3)?;
    assert_eq!(rt; keeper.free(&three), Err(Refusal::Unlabelled(1)));
    let below_none = three.down(1)?;
    assert_eq!(rt; keeper.free(&below_none), Err(Refusal::Unlabelled(1)));
    assert_eq!(rt;
        keeper.take(&below_none, none_of(true, 1)),
        Err(Refusal::Unlabelled(1))
    );
    let doors = [
        (Shape::row::<Words>(-32_769, 0), Refusal::BadField),
        (Shape::row::<Words>(32_768, 0), Refusal::BadField),
        (none_of(false, 3), Refusal::BadField),
        (none_of(true, 1), Refusal::BadField),
        (none_of(true, u64::MAX), Refusal::BadField),
        (Shape::row::<Vouchers>(32_767, 0), Refusal::BadLength),
    ];
    for (shape, refusal) in doors {
        assert_eq!(rt; keeper.take(&one, shape), Err(refusal));
    }
    assert_eq!(rt;
        keeper.take(&one.down(1)?, none_of(true, 1)),
        Err(Refusal::WrongSort(1))
    );
    stands(
        &rt,
        &keeper,
        &[(0, gap(3, 72)), (1, row(66, 3)), (2, row(70, 2))],
    );
    Ok(())
}

// Tables of one element from -5 on under name 64, three one below the other. Answers the place below the last.
fn three_tables<S: Store>(keeper: &mut Keeper<S>) -> Result<Trace, Refusal> {
    keeper.make()?;
    let mut trace = Trace::new(64)?;
    for _ in 0..3 {
        keeper.take(&trace, Shape::table(-5, 1))?;
        trace = trace.down(-5)?;
    }
    Ok(trace)
}

#[test]
fn no_table_below_the_third(rt: HostRuntime) -> Result<(), Fail> {
    let mut words = [9u64; 80];
    let mut keeper = Keeper {
        store: WordBank { lent: &mut words },
    };
    let trace = three_tables(&mut keeper)?;
    assert_eq!(rt;
        keeper.take(&trace, Shape::table(-5, 1)),
        Err(Refusal::BadField)
    );
    assert_eq!(rt; keeper.free(&trace), Err(Refusal::Unlabelled(4)));
    assert_eq!(rt;
        keeper.take(&Trace::new(64)?.down(-4)?, none_of(true, 1)),
        Err(Refusal::OutOfBounds(1))
    );
    assert_eq!(rt; keeper.take(&trace, Shape::row::<Vouchers>(-5, 1)), Ok(()));
    Ok(())
}

#[test]
fn tables_in_tables(rt: HostRuntime) -> Result<(), Fail> {
    let mut words = [9u64; 80];
    let mut keeper = Keeper {
        store: WordBank { lent: &mut words },
    };
    let trace = three_tables(&mut keeper)?;
    assert_eq!(rt; keeper.take(&trace, Shape::row::<Vouchers>(-5, 1)), Ok(()));
    assert_eq!(rt; keeper.free(&Trace::new(64)?), Ok(()));
    stands(
        &rt,
        &keeper,
        &[
            (0, gap(15, 65)),
            (64, 0),
            (65, gap(2, 67)),
            (66, 0),
            (67, gap(2, 69)),
            (69, gap(2, 71)),
            (71, gap(2, 73)),
            (73, gap(7, 0)),
        ],
    );
    keeper.tidy();
    stands(
        &rt,
        &keeper,
        &[(0, gap(15, 65)), (65, gap(15, 0)), (67, 0), (73, 0)],
    );
    Ok(())
}
