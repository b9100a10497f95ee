// Refusals: which they are, and at which step.
use booking::{Amounts, Refusal, Shape, Trace, Words};
use keeper::Keeper;
use std::test::Fail;
use store::{Store, WordBank};

// Under name 1 a table of two from 0 on, whose row 0 has two amounts from -1 on; under name 2 a row of three plain words.
fn table_and_row<S: Store>(keeper: &mut Keeper<S>) -> Result<(), Refusal> {
    keeper.make()?;
    keeper.take(&Trace::new(1)?, Shape::table(0, 2))?;
    keeper.take(&Trace::new(1)?.down(0)?, Shape::row::<Amounts>(-1, 2))?;
    keeper.take(&Trace::new(2)?, Shape::row::<Words>(0, 3))
}

// The refusals of a trace that all bookings share, here of span: which they are, and at which step of the walk.
#[test]
fn refused_on_the_walk(rt: HostRuntime) -> Result<(), Fail> {
    let mut words = [0u64; 80];
    let mut keeper = Keeper {
        store: WordBank { lent: &mut words },
    };
    assert_eq!(rt; table_and_row(&mut keeper), Ok(()));
    assert_eq!(rt;
        keeper.span(&Trace::new(3)?.down(0)?),
        Err(Refusal::Unlabelled(1))
    );
    assert_eq!(rt;
        keeper.span(&Trace::new(2)?.down(0)?),
        Err(Refusal::WrongSort(1))
    );
    assert_eq!(rt;
        keeper.span(&Trace::new(1)?.down(2)?),
        Err(Refusal::OutOfBounds(1))
    );
    assert_eq!(rt;
        keeper.span(&Trace::new(1)?.down(-1)?),
        Err(Refusal::OutOfBounds(1))
    );
    assert_eq!(rt;
        keeper.span(&Trace::new(1)?.down(1)?.down(0)?),
        Err(Refusal::Unlabelled(2))
    );
    assert_eq!(rt;
        keeper.span(&Trace::new(1)?.down(0)?.down(0)?),
        Err(Refusal::WrongSort(2))
    );
    assert_eq!(rt; keeper.span(&Trace::new(1)?.down(1)?), Ok(None));
    Ok(())
}

// Each refusal of an element and of a row of two, read and written by a type number: the trace, the number, the subscript, and what
// all four answer. A refused list stays as it was.
#[test]
fn elements_refused(rt: HostRuntime) -> Result<(), Fail> {
    let mut words = [0u64; 80];
    let mut keeper = Keeper {
        store: WordBank { lent: &mut words },
    };
    assert_eq!(rt; table_and_row(&mut keeper), Ok(()));
    let none = Trace::new(3)?;
    let table = Trace::new(1)?;
    let row = Trace::new(1)?.down(0)?;
    let refused = [
        (&none, 0, 0, Refusal::Unlabelled(1)),
        (&table, 0, 0, Refusal::WrongSort(1)),
        (&row, 1, 1, Refusal::OutOfBounds(2)),
        (&row, 1, -2, Refusal::OutOfBounds(2)),
        (&row, 0, 1, Refusal::OutOfBounds(2)), // the subscript before the type
        (&row, 0, 0, Refusal::WrongType),
        (&row, 2, 0, Refusal::WrongType), // the type before the length
        (&row, 3, 0, Refusal::WrongType),
        (&row, u64::MAX, -1, Refusal::WrongType),
    ];
    for (trace, kind, subscript, refusal) in refused {
        let mut list = [9u64; 2];
        assert_eq!(rt; keeper.read_word(trace, kind, subscript), Err(refusal));
        assert_eq!(rt; keeper.write_word(trace, kind, subscript, 9), Err(refusal));
        let read = keeper.read_words(trace, kind, subscript, &mut list);
        assert_eq!(rt; read, Err(refusal));
        assert_eq!(rt; list, [9, 9]);
        let written = keeper.write_words(trace, kind, subscript, &list);
        assert_eq!(rt; written, Err(refusal));
    }
    Ok(())
}

// The same of the calls with a kind: the trace, the subscript, and what all four answer at plain words.
#[test]
fn items_refused(rt: HostRuntime) -> Result<(), Fail> {
    let mut words = [0u64; 80];
    let mut keeper = Keeper {
        store: WordBank { lent: &mut words },
    };
    assert_eq!(rt; table_and_row(&mut keeper), Ok(()));
    let none = Trace::new(3)?;
    let table = Trace::new(1)?;
    let row = Trace::new(1)?.down(0)?;
    let refused = [
        (&none, 0, Refusal::Unlabelled(1)),
        (&table, 0, Refusal::WrongSort(1)),
        (&row, 1, Refusal::OutOfBounds(2)),
        (&row, 0, Refusal::WrongType),
    ];
    for (trace, subscript, refusal) in refused {
        let mut list = [9u64; 2];
        assert_eq!(rt; keeper.read::<Words>(trace, subscript), Err(refusal));
        assert_eq!(rt; keeper.write::<Words>(trace, subscript, 9), Err(refusal));
        let read = keeper.read_row::<Words>(trace, subscript, &mut list);
        assert_eq!(rt; read, Err(refusal));
        assert_eq!(rt; list, [9, 9]);
        let written = keeper.write_row::<Words>(trace, subscript, &list);
        assert_eq!(rt; written, Err(refusal));
    }
    Ok(())
}

// A row of two amounts from -1 on, read and written where it is too short or the list is empty.
#[test]
fn lengths_refused(rt: HostRuntime) -> Result<(), Fail> {
    let mut words = [0u64; 80];
    let mut keeper = Keeper {
        store: WordBank { lent: &mut words },
    };
    assert_eq!(rt; table_and_row(&mut keeper), Ok(()));
    let row = Trace::new(1)?.down(0)?;
    let mut list = [9u64; 3];
    for (subscript, length) in [(-1, 0), (-1, 3), (0, 0), (0, 2)] {
        let read = keeper.read_words(&row, 1, subscript, &mut list[0..length]);
        assert_eq!(rt; read, Err(Refusal::BadLength));
        assert_eq!(rt; list, [9, 9, 9]);
        let written = keeper.write_words(&row, 1, subscript, &list[0..length]);
        assert_eq!(rt; written, Err(Refusal::BadLength));
    }
    assert_eq!(rt; keeper.write_words(&row, 1, -1, &list[0..2]), Ok(()));
    assert_eq!(rt; keeper.read_words(&row, 1, -1, &mut list[1..3]), Ok(()));
    assert_eq!(rt; keeper.write::<Amounts>(&row, -1, i64::MIN), Ok(()));
    assert_eq!(rt; keeper.read::<Amounts>(&row, -1), Ok(i64::MIN));
    assert_eq!(rt; keeper.read_word(&row, 1, -1), Ok(1 << 63));
    Ok(())
}

// Each refusal of rebasing.
#[test]
fn rebase_refused(rt: HostRuntime) -> Result<(), Fail> {
    let mut words = [0u64; 80];
    let mut keeper = Keeper {
        store: WordBank { lent: &mut words },
    };
    assert_eq!(rt; table_and_row(&mut keeper), Ok(()));
    let table = Trace::new(1)?;
    let none = Trace::new(3)?;
    assert_eq!(rt; keeper.rebase(&none, 40_000), Err(Refusal::Unlabelled(1)));
    assert_eq!(rt;
        keeper.rebase(&Trace::new(2)?.down(0)?, 40_000),
        Err(Refusal::WrongSort(1))
    );
    assert_eq!(rt;
        keeper.rebase(&Trace::new(1)?.down(2)?, 40_000),
        Err(Refusal::OutOfBounds(1))
    );
    assert_eq!(rt; keeper.rebase(&table, 32_768), Err(Refusal::BadField));
    assert_eq!(rt; keeper.rebase(&table, i64::MIN), Err(Refusal::BadField));
    assert_eq!(rt; keeper.rebase(&table, -32_768), Ok(()));
    assert_eq!(rt;
        keeper.span(&table.down(-32_768)?),
        Ok(Some((-1, 2, false, 1)))
    );
    Ok(())
}

// Each refusal of exchanging.
#[test]
fn exchange_refused(rt: HostRuntime) -> Result<(), Fail> {
    let mut words = [0u64; 80];
    let mut keeper = Keeper {
        store: WordBank { lent: &mut words },
    };
    assert_eq!(rt; table_and_row(&mut keeper), Ok(()));
    let table = Trace::new(1)?;
    let none = Trace::new(3)?;
    assert_eq!(rt; keeper.exchange(&none, 0, 1), Err(Refusal::Unlabelled(1)));
    assert_eq!(rt;
        keeper.exchange(&Trace::new(2)?, 0, 9),
        Err(Refusal::WrongSort(1))
    );
    assert_eq!(rt; keeper.exchange(&table, 2, 0), Err(Refusal::OutOfBounds(1)));
    assert_eq!(rt;
        keeper.exchange(&table, 0, -1),
        Err(Refusal::OutOfBounds(1))
    );
    assert_eq!(rt; keeper.exchange(&table, 0, 1), Ok(()));
    assert_eq!(rt;
        keeper.span(&Trace::new(1)?.down(1)?),
        Ok(Some((-1, 2, false, 1)))
    );
    Ok(())
}
