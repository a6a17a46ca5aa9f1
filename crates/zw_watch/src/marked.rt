//! A set of paths that knows their bits.

ghost use Rattle.std.specs.Prelude.{◌≡◌, ◌==◌, OnOk, OnErr};
ghost use Rattle.std.specs.FinMap.{contains_key, empty, insert, len, remove};
ghost use Rattle.zw_watch.specs.Bits.{HasEach};

use crate::bits::place_of;
use crate::counts::Counts;
use std::alloc::Global;
use std::marker::Model;
use zk_model::PathSet;
use zx_base::Memory;

/// A set of paths that knows their bits. A call takes a step for each byte of its path beside the logarithm of the number of paths.
#[derive(Drop)]
pub(crate) struct MarkedPaths {
    paths: PathSet,
    counts: Counts,
}

impl Model for MarkedPaths {
    ghost use Rattle.zk_model.specs.Watches.{PathSet as Paths};
    ghost use Rattle.zk_model.specs.PathSets.{coded_set};
    ghost use Rattle.zw_watch.specs.Bits.{IsCounted};

    ghost Value = { Paths };

    ghost coded = { coded_set };

    ghost view = { λ m. m.paths };

    ghost invariant = { λ m. IsCounted m.paths m.counts };
}

impl MarkedPaths {
    /// The empty set.
    pub(crate) fn new(alloc: Global) -> MarkedPaths
        ensures { result ≡ empty }
    {
        MarkedPaths {
            paths: PathSet::new(alloc),
            counts: Counts::new(),
        }
    }

    /// Whether no path is in it.
    pub(crate) fn is_empty(&self) -> bool
        ensures { result ≡ (len self.now == 0) }
    {
        self.paths.is_empty()
    }

    /// Whether this path is in it.
    pub(crate) fn contains(&self, path: &[u8]) -> bool
        ensures { result ≡ contains_key self.now path.now }
    {
        self.paths.contains(path)
    }

    /// Puts a path into the set. Where memory runs out, nothing changes.
    pub(crate) fn insert(&mut self, alloc: Global, path: &[u8]) -> Result<(), Memory>
        ensures ok { OnOk result (self.new ≡ insert self.old path.now tt) }
        ensures err { OnErr result (self.new ≡ self.old) }
    {
        if self.paths.contains(path) {
            return Ok(());
        }
        self.paths.insert(alloc, path)?;
        self.counts.add(place_of(path));
        Ok(())
    }

    /// Takes a path out of the set, and says whether it was there.
    pub(crate) fn remove(&mut self, path: &[u8]) -> bool
        ensures rest { self.new ≡ remove self.old path.now }
        ensures was { result ≡ contains_key self.old path.now }
    {
        let was = self.paths.remove(path);
        if was {
            self.counts.take(place_of(path));
        }
        was
    }

    /// The bits of the data watches on these paths.
    pub(crate) fn bits(&self) -> u64
        ensures { HasEach self.now result }
    {
        self.counts.bits()
    }
}
