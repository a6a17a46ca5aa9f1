//! Compaction.

ghost use Rattle.std.specs.Prelude.{◌≡◌, OnOk, OnErr};
ghost use Rattle.std.specs.Option.{option_map};
ghost use Rattle.std.specs.Result.{result_err};
ghost use Rattle.ev_store.specs.Compaction.{compact};
ghost use Rattle.ev_store.specs.FirstDenial.{compact_denial};

use crate::fault::{Denied, StoreFault};
use crate::store::Store;

impl Store {
    /// Makes `rev` the least revision that can be named, unless that is already a greater one. Denied as `Future` where it is
    /// above the store's. Frees nothing, and needs no memory.
    #[tactic(auto, unfolding(crate::specs::Compaction::compact))]
    pub fn compact(&mut self, rev: i64) -> Result<(), StoreFault>
        ensures compacts { OnOk result (compact self.old rev ≡ Some self.new) }
        ensures denied { OnErr result (compact self.old rev ≡ None) }
        ensures named { result_err result ≡ option_map StoreFault.Denied (compact_denial self.old rev) }
        ensures stays { OnErr result (self.new ≡ self.old) }
    {
        let revision = self.revision();
        if rev > revision {
            return Err(StoreFault::Denied(Denied::Future {
                asked: rev,
                revision,
            }));
        }
        self.raise_floor(rev);
        Ok(())
    }
}
