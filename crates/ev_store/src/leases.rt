//! The leases that are there.

ghost use Rattle.std.specs.Prelude.{◌≡◌, OnOk, OnErr};
ghost use Rattle.std.specs.FinMap.{get, insert, remove, empty};

use std::alloc::Global;
use std::collections::BTreeMap;
use std::marker::Model;
use zx_base::Memory;

/// The seconds that each lease was granted, by its number.
#[derive(Drop)]
pub struct Leases {
    seconds: BTreeMap<i64, i64>,
}

impl Model for Leases {
    ghost use Rattle.std.specs.Prelude.{ℤ};
    ghost use Rattle.std.specs.Ordering.{int_cmp};
    ghost use Rattle.std.specs.FinMap as map;
    ghost use Rattle.std.specs.Coded.{coded_ℤ};

    ghost Value = { map.FinMap int_cmp ℤ };

    ghost coded = { map.code coded_ℤ coded_ℤ };

    ghost view = { λ l. map.from_entries l.seconds.entries };
}

impl Leases {
    /// No leases.
    pub fn new(alloc: Global) -> Leases
        ensures { result ≡ empty }
    {
        Leases {
            seconds: BTreeMap::new(alloc),
        }
    }

    /// The seconds of a lease; `None` where it is not there.
    pub fn get(&self, id: i64) -> Option<i64>
        ensures { result ≡ get self.now id }
    {
        self.seconds.get(&id).copied()
    }

    /// Adds a lease, or replaces its seconds. Where memory runs out, nothing changes.
    pub fn grant(&mut self, id: i64, seconds: i64) -> Result<(), Memory>
        ensures ok { OnOk result (self.new ≡ insert self.old id seconds) }
        ensures err { OnErr result (self.new ≡ self.old) }
    {
        self.seconds.insert(id, seconds)?;
        Ok(())
    }

    /// Takes a lease away, if it is there.
    pub fn remove(&mut self, id: i64)
        ensures { self.new ≡ remove self.old id }
    {
        self.seconds.remove(&id);
    }
}
