// Stores at work: a lender learns what its list holds, and examples are run.
#![tactic(auto)]

ghost use Rattle.store.specs.Edits.{zeroed};
ghost use Rattle.store.specs.Words.{beyond, lent_words};
ghost use Rattle.std.specs.Prelude.{◌≡◌};

use store::{Store, WordBank, clear};

/// Clears words of a list through a store, and tells what the list then holds.
pub fn clear_list(lent: &mut [u64], from: u64, n: u64)
    ensures counted { lent_words lent.new ≡ zeroed (lent_words lent.old) from n }
    ensures over { beyond lent.new ≡ beyond lent.old }
{
    let mut bank = WordBank { lent };
    clear(&mut bank, from, n);
}

#[cfg(test)]
mod tests {
    use super::clear_list;
    use booking::Refusal;
    use store::{ByteBank, Joined, Store, WordBank, clear, copy_in, copy_out, put, word};

    #[test]
    fn words_then_bytes(rt: HostRuntime) {
        let mut words = [1u64, 2, 3];
        let mut bytes = [7u8; 19];
        {
            let mut store = Joined {
                first: WordBank { lent: &mut words },
                second: ByteBank { lent: &mut bytes },
            };
            assert_eq!(rt; store.count(), 5);
            assert_eq!(rt; store.get(2), Ok(3));
            assert_eq!(rt; store.get(3), Ok(0x0707070707070707));
            assert_eq!(rt; store.set(4, 0x0102030405060708), Ok(()));
            assert_eq!(rt; store.get(4), Ok(0x0102030405060708));
            assert_eq!(rt; store.set(0, 9), Ok(()));
            assert_eq!(rt; store.get(5), Err(Refusal::OutsideStore(5)));
            assert_eq!(rt; store.set(7, 9), Err(Refusal::OutsideStore(7)));
        }
        assert_eq!(rt; words, [9, 2, 3]);
        assert_eq!(rt;
            bytes,
            [7, 7, 7, 7, 7, 7, 7, 7, 1, 2, 3, 4, 5, 6, 7, 8, 7, 7, 7]
        );
    }

    #[test]
    fn without_refusals(rt: HostRuntime) {
        let mut bytes = [0u8; 26];
        let mut store = ByteBank { lent: &mut bytes };
        put(&mut store, 1, 5);
        put(&mut store, 3, 6);
        assert_eq!(rt; word(&store, 1), 5);
        assert_eq!(rt; word(&store, 3), 0);
        let mut list = [9u64; 4];
        copy_out(&store, &mut list);
        assert_eq!(rt; list, [0, 5, 0, 9]);
        copy_in(&mut store, &[1, 2]);
        copy_out(&store, &mut list);
        assert_eq!(rt; list, [1, 2, 0, 9]);
        copy_in(&mut store, &list);
        clear(&mut store, 1, u64::MAX);
        copy_out(&store, &mut list[1..]);
        assert_eq!(rt; list, [1, 1, 0, 0]);
    }

    #[test]
    fn of_no_words(rt: HostRuntime) {
        let mut bytes = [1u8; 7];
        let mut store = Joined {
            first: WordBank { lent: &mut [] },
            second: ByteBank { lent: &mut bytes },
        };
        assert_eq!(rt; store.count(), 0);
        assert_eq!(rt; store.get(0), Err(Refusal::OutsideStore(0)));
        assert_eq!(rt; store.set(0, 1), Err(Refusal::OutsideStore(0)));
        clear(&mut store, 0, 9);
        assert_eq!(rt; bytes, [1; 7]);
    }

    #[test]
    fn a_lender_reads_on(rt: HostRuntime) {
        let mut list = [1u64, 2, 3, 4];
        clear_list(&mut list, 1, 2);
        assert_eq!(rt; list, [1, 0, 0, 4]);
    }

    #[test]
    fn past_the_most(rt: HostRuntime) {
        let mut words = [5u64; 262145];
        {
            let mut store = WordBank { lent: &mut words };
            assert_eq!(rt; store.count(), 262144);
            assert_eq!(rt; store.set(262144, 1), Err(Refusal::OutsideStore(262144)));
            clear(&mut store, 262143, 2);
        }
        assert_eq!(rt; words[262143], 0);
        assert_eq!(rt; words[262144], 5);
    }
}
