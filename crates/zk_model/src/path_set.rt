//! A set of paths.

ghost use Rattle.std.specs.Prelude.{◌≡◌, ◌==◌, IfOk, OnOk, OnErr};
ghost use Rattle.std.specs.FinMap.{contains_key, empty, insert, len, remove};

use std::alloc::Global;
use std::collections::BTreeSet;
use std::marker::Model;
use zx_base::Memory;

/// A finite set of paths. A call takes the logarithm of the number of paths, a copy takes a step for each.
#[derive(Drop)]
pub struct PathSet {
    /// The bytes of each.
    paths: BTreeSet<Vec<u8>>,
}

impl Model for PathSet {
    ghost use Rattle.std.specs.Prelude.{map};
    ghost use Rattle.zk_model.specs.Watches.{PathSet as Paths};
    ghost use Rattle.zk_model.specs.PathSets.{coded_set, set_of};

    ghost Value = { Paths };

    ghost coded = { coded_set };

    ghost view = { λ s. set_of (map (λ p. p.items) s.paths.keys) };
}

impl PathSet {
    /// The empty set.
    pub fn new(alloc: Global) -> PathSet
        ensures { result ≡ empty }
    {
        PathSet {
            paths: BTreeSet::new(alloc),
        }
    }

    /// A copy, which takes a step for each path.
    pub fn copy(&self) -> Result<PathSet, Memory>
        ensures { IfOk result (λ s. s ≡ self.now) }
    {
        Ok(PathSet {
            paths: self.paths.clone()?,
        })
    }

    /// Whether no path is in it.
    pub fn is_empty(&self) -> bool
        ensures { result ≡ (len self.now == 0) }
    {
        self.paths.len() == 0
    }

    /// Whether this path is in it.
    pub fn contains(&self, path: &[u8]) -> bool
        ensures { result ≡ contains_key self.now path.now }
    {
        self.paths.contains(path)
    }

    /// Puts a path into the set, and copies it where it is new. Where memory runs out, nothing changes.
    pub fn insert(&mut self, alloc: Global, path: &[u8]) -> Result<(), Memory>
        ensures ok { OnOk result (self.new ≡ insert self.old path.now tt) }
        ensures err { OnErr result (self.new ≡ self.old) }
    {
        if self.contains(path) {
            return Ok(());
        }
        self.paths.insert(Vec::from_slice(alloc, path)?)?;
        Ok(())
    }

    /// Takes a path out of the set, and says whether it was there.
    pub fn remove(&mut self, path: &[u8]) -> bool
        ensures rest { self.new ≡ remove self.old path.now }
        ensures was { result ≡ contains_key self.old path.now }
    {
        self.paths.remove(path)
    }
}
