// Elements, rows, bases and exchanges, over words that are laid down by hand and looked at by hand, so that no test leans on the
// packing that it tests.
use booking::{Amounts, Refusal, Trace, Words};
use keeper::Keeper;
use std::test::Fail;
use store::WordBank;

// A store of 75 words with 3 amounts under name 1, 2 amounts under name 2, and a gap of 3 words from 72 on.
fn two_rows() -> [u64; 75] {
    let mut words = [0u64; 75];
    words[0] = 3 + 72 * 0x4_0000;
    words[1] = 0x0100_0010_000C_0042;
    words[2] = 0x0100_0010_0008_0046;
    words[65] = 1;
    words[69] = 2;
    words[72] = 3;
    words
}

// A store of 75 words with a table of 2 from -1 on under name 1, whose first row has one amount, and a gap of 5 from 70 on.
fn a_table() -> [u64; 75] {
    let mut words = [0u64; 75];
    words[0] = 5 + 70 * 0x4_0000;
    words[1] = 0x004F_FFF0_0008_0042;
    words[65] = 1;
    words[66] = 0x0100_0010_0004_0045;
    words[68] = 66;
    words[69] = 7;
    words[70] = 5;
    words
}

#[test]
fn elements_of_a_row(rt: HostRuntime) -> Result<(), Fail> {
    let mut words = two_rows();
    let mut keeper = Keeper {
        store: WordBank { lent: &mut words },
    };
    let one = Trace::new(1)?;
    assert_eq!(rt; keeper.read::<Amounts>(&one, 1), Ok(0));
    assert_eq!(rt; keeper.write::<Amounts>(&one, 3, -450), Ok(()));
    assert_eq!(rt; keeper.read::<Amounts>(&one, 3), Ok(-450));
    assert_eq!(rt;
        keeper.read::<Amounts>(&one, 0),
        Err(Refusal::OutOfBounds(1))
    );
    assert_eq!(rt;
        keeper.read::<Amounts>(&one, 4),
        Err(Refusal::OutOfBounds(1))
    );
    assert_eq!(rt; keeper.write::<Words>(&one, 1, 8), Err(Refusal::WrongType));
    assert_eq!(rt; keeper.span(&one), Ok(Some((1, 3, false, 1))));
    assert_eq!(rt; keeper.span(&Trace::new(3)?), Ok(None));
    assert_eq!(rt; words[68], 0xffff_ffff_ffff_fe3e);
    Ok(())
}

#[test]
fn rows_of_elements(rt: HostRuntime) -> Result<(), Fail> {
    let mut words = two_rows();
    let mut keeper = Keeper {
        store: WordBank { lent: &mut words },
    };
    let two = Trace::new(2)?;
    assert_eq!(rt; keeper.write_row::<Amounts>(&two, 1, &[5, -6]), Ok(()));
    let mut items = [0i64; 2];
    assert_eq!(rt; keeper.read_row::<Amounts>(&two, 1, &mut items), Ok(()));
    assert_eq!(rt; items, [5, -6]);
    assert_eq!(rt;
        keeper.write_row::<Amounts>(&two, 2, &[5, -6]),
        Err(Refusal::BadLength)
    );
    assert_eq!(rt;
        keeper.write_row::<Amounts>(&two, 1, &[]),
        Err(Refusal::BadLength)
    );
    assert_eq!(rt;
        keeper.write_row::<Amounts>(&two, 3, &[]),
        Err(Refusal::OutOfBounds(1))
    );
    assert_eq!(rt;
        keeper.read_row::<Amounts>(&two, 2, &mut items),
        Err(Refusal::BadLength)
    );
    assert_eq!(rt; items, [5, -6]);
    let mut plain = [4u64; 1];
    assert_eq!(rt;
        keeper.read_row::<Words>(&two, 1, &mut plain),
        Err(Refusal::WrongType)
    );
    assert_eq!(rt; plain, [4]);
    assert_eq!(rt; words[70], 5);
    assert_eq!(rt; words[72], 3);
    Ok(())
}

#[test]
fn bases_at_both_ends(rt: HostRuntime) -> Result<(), Fail> {
    let mut words = two_rows();
    let mut keeper = Keeper {
        store: WordBank { lent: &mut words },
    };
    let one = Trace::new(1)?;
    assert_eq!(rt; keeper.rebase(&one, -32_768), Ok(()));
    assert_eq!(rt; keeper.read::<Amounts>(&one, -32_768), Ok(0));
    assert_eq!(rt;
        keeper.read::<Amounts>(&one, -32_765),
        Err(Refusal::OutOfBounds(1))
    );
    assert_eq!(rt; keeper.rebase(&one, -32_769), Err(Refusal::BadField));
    assert_eq!(rt; keeper.rebase(&one, 32_768), Err(Refusal::BadField));
    assert_eq!(rt; keeper.rebase(&one, 32_767), Ok(()));
    assert_eq!(rt; keeper.read::<Amounts>(&one, 32_769), Ok(0));
    assert_eq!(rt;
        keeper.rebase(&Trace::new(9)?, 40_000),
        Err(Refusal::Unlabelled(1))
    );
    Ok(())
}

#[test]
fn exchanged_rows(rt: HostRuntime) -> Result<(), Fail> {
    let mut words = a_table();
    let mut keeper = Keeper {
        store: WordBank { lent: &mut words },
    };
    let table = Trace::new(1)?;
    assert_eq!(rt; keeper.exchange(&table, -1, 0), Ok(()));
    assert_eq!(rt; keeper.exchange(&table, 0, 0), Ok(()));
    assert_eq!(rt;
        keeper.exchange(&table, -1, 1),
        Err(Refusal::OutOfBounds(1))
    );
    assert_eq!(rt;
        keeper.exchange(&table, -2, 0),
        Err(Refusal::OutOfBounds(1))
    );
    assert_eq!(rt;
        keeper.read::<Amounts>(&table, 0),
        Err(Refusal::WrongSort(1))
    );
    let row = table.down(0)?;
    assert_eq!(rt; keeper.read::<Amounts>(&row, 1), Ok(7));
    assert_eq!(rt; keeper.exchange(&row, 1, 1), Err(Refusal::WrongSort(2)));
    assert_eq!(rt; keeper.span(&row.down(1)?), Err(Refusal::WrongSort(2)));
    assert_eq!(rt;
        keeper.span(&Trace::new(1)?.down(-1)?.down(1)?),
        Err(Refusal::Unlabelled(2))
    );
    assert_eq!(rt; words[66], 0);
    assert_eq!(rt; words[67], 0x0100_0010_0004_0045);
    assert_eq!(rt; words[68], 67);
    Ok(())
}
