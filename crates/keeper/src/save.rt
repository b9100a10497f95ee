ghost use Rattle.keeper.specs.Saved.{save_reply, saved};
ghost use Rattle.std.specs.Prelude.{◌≡◌};

use crate::keeper::Keeper;
use booking::Refusal;
use store::{Store, copy_out};

impl<S: Store> Keeper<S> {
    /// Copies all words of the store into a list of just that length.
    pub fn save(&self, list: &mut [u64]) -> Result<(), Refusal>
        ensures reply { result ≡ save_reply (S.Store.words self.now.store) list.old }
        ensures list { list.new ≡ saved (S.Store.words self.now.store) list.old }
    {
        if list.len() as u64 != self.store.count() {
            return Err(Refusal::WrongCount);
        }
        copy_out(&self.store, list);
        Ok(())
    }
}
