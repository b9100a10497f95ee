// Keepers made and saved.
use booking::Refusal;
use keeper::Keeper;
use store::{ByteBank, Joined, Store, WordBank};

#[test]
fn made_over_joined_banks(rt: HostRuntime) {
    let mut words = [5u64; 40];
    let mut bytes = [5u8; 283];
    {
        let mut keeper = Keeper {
            store: Joined {
                first: WordBank { lent: &mut words },
                second: ByteBank { lent: &mut bytes },
            },
        };
        assert_eq!(rt; keeper.make(), Ok(()));
        assert_eq!(rt; keeper.store.count(), 75);
        assert_eq!(rt; keeper.total(), 10);
        assert_eq!(rt; keeper.store.get(0), Ok(10 + 65 * 0x4_0000));
        assert_eq!(rt; keeper.store.get(64), Ok(0));
        assert_eq!(rt; keeper.store.get(65), Ok(10));
    }
    assert_eq!(rt; bytes[279], 0);
    assert_eq!(rt; bytes[280], 5);
}

#[test]
fn made_over_the_fewest_words(rt: HostRuntime) {
    let mut least = [9u64; 67];
    let mut fewer = [9u64; 66];
    assert_eq!(rt;
        Keeper {
            store: WordBank { lent: &mut least },
        }
        .make(),
        Ok(())
    );
    assert_eq!(rt;
        Keeper {
            store: WordBank { lent: &mut fewer },
        }
        .make(),
        Err(Refusal::WrongCount)
    );
    assert_eq!(rt; least[66], 0);
    assert_eq!(rt; fewer[0], 9);
}

#[test]
fn saved_into_a_list(rt: HostRuntime) {
    let mut words = [1u64; 70];
    let mut keeper = Keeper {
        store: WordBank { lent: &mut words },
    };
    let mut short = [3u64; 69];
    assert_eq!(rt; keeper.save(&mut short), Err(Refusal::WrongCount));
    assert_eq!(rt; short[0], 3);
    let mut list = [3u64; 70];
    assert_eq!(rt; keeper.save(&mut list), Ok(()));
    assert_eq!(rt; list[69], 1);
    assert_eq!(rt; keeper.make(), Ok(()));
    assert_eq!(rt; keeper.save(&mut list), Ok(()));
    assert_eq!(rt; list[65], 5);
}
