//! Ordered maps from paths.

ghost use Rattle.std.specs.Prelude.{◌≡◌, ◌<◌, ◌^◌, option_map, map, IfOk, OnOk};
ghost use Rattle.std.specs.FinMap.{empty, get, insert, keys, len, remove};
ghost use Rattle.zk_model.specs.Paths.{last_name};

use std::alloc::Global;
use std::collections::BTreeMap;
use std::marker::Model;
use zk_model::Path;
use zx_base::{Memory, Seq, Text};

/// A finite map from paths, in the order of their bytes. A call takes the logarithm of the number of paths; one that lists them
/// takes a step for each.
#[derive(Drop)]
pub struct PathMap<V> {
    /// By the bytes of their paths.
    entries: BTreeMap<Vec<u8>, (Path, V)>,
}

impl<V> Model for PathMap<V> {
    ghost use Rattle.std.specs.Prelude.{◌≡◌, true};
    ghost use Rattle.std.specs.List.{AllByRecursion};
    ghost use Rattle.std.specs.FinMap.Entries.{is_sorted};
    ghost use Rattle.std.specs.Map.{values_of};
    ghost use Rattle.zx_base.specs.Maps.{Map};
    ghost use Rattle.zk_machine.specs.Entries.{order, map_of, coded_map};

    ghost Value = { Map V };

    ghost coded = { coded_map V.code };

    ghost view = { λ t. map_of (values_of t.entries.entries) };

    ghost invariant = { λ t. (is_sorted order (values_of t.entries.entries) ≡ true) × AllByRecursion (λ e. e.0.items ≡ e.1.0) t.entries.entries };
}

impl<V: Drop> PathMap<V> {
    /// The empty map.
    pub fn new(alloc: Global) -> PathMap<V>
        ensures { result ≡ empty }
    {
        PathMap {
            entries: BTreeMap::new(alloc),
        }
    }

    /// The value at a path.
    pub fn get(&self, path: &[u8]) -> Option<&V>
        ensures { option_map (λ v. v.now) result ≡ get self.now path.now }
    {
        match self.entries.get(path) {
            Some((_, value)) => Some(value),
            None => None,
        }
    }

    /// Puts a value at the path, in place of the one that was there.
    pub fn put(&mut self, alloc: Global, path: Path, value: V) -> Result<(), Memory>
        ensures { OnOk result (self.new ≡ insert self.old path value) }
    {
        let key = Vec::from_slice(alloc, path.bytes())?;
        self.entries.insert(key, (path, value))?;
        Ok(())
    }

    /// Takes out the value at the path.
    pub fn take(&mut self, path: &[u8]) -> Option<V>
        ensures map { self.new ≡ remove self.old path.now }
        ensures value { result ≡ get self.old path.now }
    {
        match self.entries.remove(path) {
            Some((_, value)) => Some(value),
            None => None,
        }
    }

    /// How many paths there are.
    pub fn len(&self) -> usize
        ensures len { result ≡ len self.now }
        ensures small { result < 2 ^ 63 }
    {
        self.entries.len()
    }

    /// The paths, in the order of their bytes.
    pub fn paths(&self, alloc: Global) -> Result<Vec<Path>, Memory>
        ensures { IfOk result (λ paths. paths.items ≡ keys self.now) }
    {
        let mut paths = Vec::new(alloc);
        for (path, _) in self.entries.values() {
            paths.push(path.copy(alloc)?)?;
        }
        Ok(paths)
    }

    /// The last name of each path, in the order of the paths' bytes.
    pub fn names(&self, alloc: Global) -> Result<Seq<Text>, Memory>
        ensures { IfOk result (λ names. names ≡ map last_name (keys self.now)) }
    {
        let mut names = Vec::new(alloc);
        for (path, _) in self.entries.values() {
            names.push(Text::copy_of(alloc, path.last_name())?)?;
        }
        Ok(Seq::from_vec(names))
    }
}
