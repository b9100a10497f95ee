ghost use Rattle.layout.specs.Holds.{Holds};
ghost use Rattle.layout.specs.Keeping.{tidied};
ghost use Rattle.std.specs.Prelude.{◌≡◌, length};

use crate::keeper::Keeper;
use store::Store;

impl<S: Store> Keeper<S> {
    /// Closes all blocks up, in the order of their addresses, with one gap behind them. No tree changes.
    pub fn tidy(&mut self)
        ensures words { Holds (S.Store.words self.old.store) → S.Store.words self.new.store ≡ tidied (S.Store.words self.old.store) }
        ensures count { length (S.Store.words self.new.store) ≡ length (S.Store.words self.old.store) }
        ensures rest { S.Store.rest self.new.store ≡ S.Store.rest self.old.store }
    {
        placement::tidy(&mut self.store);
    }
}
