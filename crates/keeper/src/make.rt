ghost use Rattle.codeword.specs.Codeword.{field};
ghost use Rattle.layout.specs.Held.{held_trees};
ghost use Rattle.layout.specs.Holds.{Holds};
ghost use Rattle.layout.specs.Keeping.{made};
ghost use Rattle.layout.specs.Results.{done_of};
ghost use Rattle.ledger.specs.Trees.{free};
ghost use Rattle.std.specs.Prelude.{◌≡◌, length, slice_index};

use crate::keeper::Keeper;
use booking::Refusal;
use codeword::Head;
use layout::{FIRST, LEAST};
use store::{Store, clear, put, word};

impl<S: Store> Keeper<S> {
    /// Makes the keeper anew: every name labels nothing, and one gap takes up all the words behind the names.
    pub fn make(&mut self) -> Result<(), Refusal>
        ensures reply { done_of result ≡ (made (S.Store.words self.old.store)).0 }
        ensures words { S.Store.words self.new.store ≡ (made (S.Store.words self.old.store)).1 }
        ensures rest { S.Store.rest self.new.store ≡ S.Store.rest self.old.store }
    {
        let count = self.store.count();
        if count < LEAST {
            return Err(Refusal::WrongCount);
        }
        let size = count - FIRST;
        let header = Head { size, next: FIRST };
        let gap = Head { size, next: 0 };
        clear(&mut self.store, 0, count);
        put(&mut self.store, 0, header.word());
        put(&mut self.store, FIRST, gap.word());
        Ok(())
    }

    /// The total of inactive words, as the header has it.
    pub fn total(&self) -> u64
        ensures header { result ≡ field 0 18 (slice_index (S.Store.words self.now.store) 0) }
        ensures free { Holds (S.Store.words self.now.store) → result ≡ free (length (S.Store.words self.now.store)) (held_trees (S.Store.words self.now.store)) }
    {
        Head::unpack(word(&self.store, 0)).size
    }
}
