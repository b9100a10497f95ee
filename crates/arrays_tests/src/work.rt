// How often words are read where a large table is closed up and freed: the work grows with the words, and not with their square.
use booking::{Refusal, Shape, Trace, Words};
use keeper::Keeper;
use std::cell::Cell;
use std::test::Fail;
use store::{Store, WordBank};

/// The rows of the table.
const ROWS: u64 = 40_000;

/// A store that counts how often a word of it is read.
#[derive(Drop)]
struct Counted<S> {
    store: S,
    reads: Cell<u64>,
}

impl<S: Store> Store for Counted<S> {
    ghost words = { λ s. S.Store.words s.store };

    ghost counted = { λ s. S.Store.counted s.store };

    ghost fits = { λ s. S.Store.fits s.store };

    ghost rest = { λ s. S.Store.rest s.store };

    fn count(&self) -> u64 {
        self.store.count()
    }

    fn get(&self, at: u64) -> Result<u64, Refusal> {
        self.reads.set(self.reads.get().wrapping_add(1));
        self.store.get(at)
    }

    fn set(&mut self, at: u64, word: u64) -> Result<(), Refusal> {
        self.store.set(at, word)
    }
}

// A table of forty thousand rows of one word each, under name 1, whose addresses ascend.
fn fill<S: Store>(keeper: &mut Keeper<S>) -> Result<(), Refusal> {
    keeper.make()?;
    keeper.take(&Trace::new(1)?, Shape::table(1, ROWS))?;
    for row in 1..=ROWS as i32 {
        keeper.take(&Trace::new(1)?.down(row)?, Shape::row::<Words>(1, 1))?;
    }
    Ok(())
}

#[test]
fn a_table_of_many_rows(rt: HostRuntime) -> Result<(), Fail> {
    let mut words = vec![in rt.alloc(); 0u64; 120_100]?;
    let mut keeper = Keeper {
        store: Counted {
            store: WordBank { lent: &mut words },
            reads: Cell::new(0),
        },
    };
    assert_eq!(rt; fill(&mut keeper), Ok(()));
    assert_eq!(rt; keeper.free(&Trace::new(1)?.down(1)?), Ok(()));
    keeper.store.reads.set(0);
    keeper.tidy();
    // Each of the 120,000 words once, where it moves, and some four more for each row and its label.
    let closed_up = keeper.store.reads.get();
    assert!(rt; closed_up < 10 * ROWS, "{closed_up}");
    keeper.store.reads.set(0);
    assert_eq!(rt; keeper.free(&Trace::new(1)?), Ok(()));
    let freed = keeper.store.reads.get();
    assert!(rt; freed < 10 * ROWS, "{freed}");
    assert_eq!(rt; keeper.total(), 120_035);
    Ok(())
}
