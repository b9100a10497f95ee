ghost use Rattle.keeper.specs.Loaded.{LoadsComeOutAlike, SavedIsCarriedOver, Loads};
ghost use Rattle.std.specs.Prelude.{◌≡◌};

use crate::keeper::Keeper;
use booking::Refusal;
use judge::holds_together;
use store::{Store, copy_in};

impl<S: Store> Keeper<S> {
    /// Takes a list, of just the store's length and holding together, as the store's words. Any other list is refused, and the
    /// store stays as it was.
    pub fn load(&mut self, list: &[u64]) -> Result<(), Refusal>
        ensures loads { Loads (S.Store.words self.old.store) list.now result (S.Store.words self.new.store) }
        ensures rest { S.Store.rest self.new.store ≡ S.Store.rest self.old.store }
    {
        if list.len() as u64 != self.store.count() {
            return Err(Refusal::WrongCount);
        }
        if !holds_together(list) {
            return Err(Refusal::Inconsistent);
        }
        copy_in(&mut self.store, list);
        Ok(())
    }
}

/// What a load comes to does not hang on what the store held: over two stores of one count the replies are the same, and so are the
/// words where it is granted.
pub fn loads_come_out_alike()
    ensures { LoadsComeOutAlike }
{}

/// What one store saved, where its words hold together, another of the same count takes, of whatever make, and then has the same words.
pub fn saved_is_carried_over()
    ensures { SavedIsCarriedOver }
{}
