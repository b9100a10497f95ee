// Lists loaded into a keeper: which hold together, and what the store then has.
#![tactic(auto)]

#[cfg(test)]
mod tests {
    use booking::{Amounts, Refusal, Trace};
    use keeper::Keeper;
    use std::test::Fail;
    use store::{ByteBank, WordBank};

    // Fields of a codeword, and of the header and a gap's first word: a length, or the next gap's address; the digits; the type.
    // The lists are made of them by hand, so that no test leans on the packing that it tests.
    const N: u64 = 1 << 18;

    const P: u64 = 1 << 52;

    const Q: u64 = 1 << 53;

    const R: u64 = 1 << 54;

    const S: u64 = 1 << 55;

    const T: u64 = 1 << 56;

    // 82 words. Name 1 has a table of three, at 66: a row of one amount at 70, a table of two empty labels at 75, and nothing. Name 2
    // has two vouchers at 78. Gaps lie at 71, of three words, and at 80, of two.
    fn good() -> [u64; 82] {
        let mut words = [0u64; 82];
        words[0] = 5 + 71 * N;
        words[1] = 66 + 3 * N + R;
        words[2] = 78 + 2 * N + 2 * T;
        words[65] = 1;
        words[66] = 70 + N + T;
        words[67] = 75 + 2 * N + R;
        words[69] = 66;
        words[70] = 77;
        words[71] = 3 + 80 * N;
        words[74] = 67;
        words[77] = 2;
        words[78] = 5;
        words[80] = 2;
        words
    }

    // The good list with some of its words replaced.
    fn changed(words: &[(usize, u64)]) -> [u64; 82] {
        let mut list = good();
        for (at, word) in words {
            if let Some(place) = list.get_mut(*at) {
                *place = *word;
            }
        }
        list
    }

    // What a load of the list answers, and the words of the store then, all 7 before.
    fn loaded(list: &[u64]) -> (Result<(), Refusal>, [u64; 82]) {
        let mut words = [7u64; 82];
        let answer = Keeper {
            store: WordBank { lent: &mut words },
        }
        .load(list);
        (answer, words)
    }

    // The same for a list that is refused: the store stays as it was.
    fn refused(refusal: Refusal) -> (Result<(), Refusal>, [u64; 82]) {
        (Err(refusal), [7; 82])
    }

    #[test]
    fn one_word_changed_and_taken(rt: HostRuntime) {
        let kept = [
            (3, 0), // nothing changed
            (70, 0xffff_ffff_ffff_ffff), // another amount
            (79, 78 + N), // data that looks like a codeword
            (79, 3), // data that looks like a back-reference
            (1, 66 + 3 * N + R + (1 << 51)), // another base
            (2, 78 + 2 * N + T), // another type
        ];
        for change in kept {
            let list = changed(&[change]);
            assert_eq!(rt; loaded(&list), (Ok(()), list));
        }
    }

    #[test]
    fn one_word_changed(rt: HostRuntime) {
        let broken = [
            (0, 4 + 71 * N), // T is not the sum of the gaps
            (0, 6 + 71 * N),
            (0, 5 + 71 * N + (1 << 36)), // unnamed bits
            (71, 3 + 80 * N + (1 << 63)),
            (2, 78 + 2 * N + 2 * T + (1 << 58)),
            (77, 2 + N),
            (2, 78 + 2 * N + P), // an unlawful codeword
            (2, 78 + 2 * N + Q),
            (2, 78 + 2 * N + S),
            (2, 78 + 2 * N + 3 * T),
            (1, 66 + 3 * N + R + T),
            (2, 78 + 2 * T),
            (72, 1), // a word of a gap is not 0
            (80, 0), // a gap of no words
            (71, 3 + 71 * N), // the chain does not ascend
            (80, 2 + 71 * N),
            (71, 3 + 82 * N), // the chain runs off the end
            (80, 3),
            (0, 5 + 80 * N),
            (2, 78 + N + 2 * T), // a word in no block
            (2, 78 + 3 * N + 2 * T), // blocks overlap
            (66, 70 + 2 * N + T),
            (2, 78 + 262_143 * N),
            (1, 66 + 262_143 * N + R),
            (65, 2), // a back-reference to another codeword
            (69, 67),
            (3, 78 + 2 * N + 2 * T), // two labels on one block
            (75, 66 + 3 * N + R), // labels in a cycle
            (3, 79 + N), // a label into the middle of a block
            (66, 0), // a block of no name
            (2, 0),
        ];
        for change in broken {
            assert_eq!(rt; loaded(&changed(&[change])), refused(Refusal::Inconsistent));
        }
    }

    #[test]
    fn several_words_changed(rt: HostRuntime) {
        // The last gap becomes part of the vouchers.
        let grown = changed(&[(0, 3 + 71 * N), (71, 3), (2, 78 + 4 * N + 2 * T)]);
        assert_eq!(rt; loaded(&grown), (Ok(()), grown));
        let hostile = [
            [(3, 79 + N), (78, 3), (4, 0)], // a label into the middle of a block, which seems to name it
            [(66, 0), (69, 78), (78, 70 + N + T)], // a block that only a word of data labels
            [(1, 0), (65, 75), (75, 66 + 3 * N + R)], // tables that label each other, and no name labels
            [(0, 6 + 71 * N), (80, 3), (4, 0)], // the last gap runs off the end, and T with it
            [(0, 3 + 71 * N), (71, 3), (4, 0)], // a gap that is not in the chain
            [(0, 5 + 80 * N), (80, 2 + 71 * N), (71, 3)], // a chain that goes down
            [
                (2, 78 + 262_143 * N),
                (3, 78 + 262_143 * N + R),
                (4, 78 + 262_143 * N + R),
            ],
        ];
        for words in hostile {
            assert_eq!(rt; loaded(&changed(&words)), refused(Refusal::Inconsistent));
        }
    }

    // Four tables of one label below each other under name 1, the last with the word given, and a gap of nine words behind them; or of
    // seven, behind a block of one word from 74 on.
    fn nested(last: u64) -> [u64; 82] {
        let mut words = [0u64; 82];
        words[1] = 66 + N + R;
        words[65] = 1;
        words[66] = 68 + N + R;
        words[67] = 66;
        words[68] = 70 + N + R;
        words[69] = 68;
        words[70] = 72 + N + R;
        words[71] = 70;
        words[72] = last;
        if last == 0 {
            words[0] = 9 + 73 * N;
            words[73] = 9;
        } else {
            words[0] = 7 + 75 * N;
            words[73] = 72;
            words[75] = 7;
        }
        words
    }

    #[test]
    fn four_levels_and_lengths(rt: HostRuntime) {
        assert_eq!(rt; loaded(&nested(0)), (Ok(()), nested(0)));
        assert_eq!(rt; loaded(&nested(74 + N)), refused(Refusal::Inconsistent));
        assert_eq!(rt; loaded(&nested(74 + N + R)), refused(Refusal::Inconsistent));
        let list = good();
        assert_eq!(rt; loaded(&list[0..81]), refused(Refusal::WrongCount));
        assert_eq!(rt; loaded(&[0; 83]), refused(Refusal::WrongCount));
        assert_eq!(rt; loaded(&[]), refused(Refusal::WrongCount));
        let mut least = [0u64; 67];
        let mut list = [0u64; 67];
        list[0] = 2 + 65 * N;
        list[65] = 2;
        assert_eq!(rt;
            Keeper {
                store: WordBank { lent: &mut least },
            }
            .load(&list),
            Ok(())
        );
        let mut fewer = [0u64; 66];
        let mut list = [0u64; 66];
        list[0] = 1 + 65 * N;
        list[65] = 1;
        assert_eq!(rt;
            Keeper {
                store: WordBank { lent: &mut fewer },
            }
            .load(&list),
            Err(Refusal::Inconsistent)
        );
    }

    #[test]
    fn from_words_to_bytes(rt: HostRuntime) -> Result<(), Fail> {
        let mut words = good();
        let mut list = [0u64; 82];
        assert_eq!(rt;
            Keeper {
                store: WordBank { lent: &mut words },
            }
            .save(&mut list),
            Ok(())
        );
        let mut bytes = [9u8; 659];
        {
            let mut keeper = Keeper {
                store: ByteBank { lent: &mut bytes },
            };
            assert_eq!(rt; keeper.load(&list), Ok(()));
            let mut again = [0u64; 82];
            assert_eq!(rt; keeper.save(&mut again), Ok(()));
            assert_eq!(rt; again, list);
            let row = Trace::new(1)?.down(0)?;
            assert_eq!(rt; keeper.read::<Amounts>(&row, 0), Ok(77));
            assert_eq!(rt; keeper.write::<Amounts>(&row, 0, -1), Ok(()));
            keeper.tidy();
            assert_eq!(rt; keeper.read::<Amounts>(&row, 0), Ok(-1));
            assert_eq!(rt; keeper.total(), 5);
        }
        assert_eq!(rt; bytes[656], 9);
        Ok(())
    }
}
