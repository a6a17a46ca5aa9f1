//! Paths as the keys of a cache.

ghost use Rattle.std.specs.Prelude.{◌≡◌, ◌==◌, IfOk};
ghost use Rattle.std.proofs.Common.{rules};
ghost use Rattle.std.specs.Cmp.Lexicographic.{pointwise};
ghost use Rattle.std.specs.Cmp.Rules.{comparing, hashing};
ghost use Rattle.std.specs.Hash as fed;

use std::alloc::Global;
use std::hash::{Hash, Hasher};
use std::marker::Model;
use zx_base::{Bytes, Memory};

/// A path by its bytes, as it stands in a request: the key under which its view is kept.
#[derive(Drop)]
pub struct PathKey {
    bytes: Vec<u8>,
}

impl Model for PathKey {
    ghost use Rattle.std.specs.Prelude.{List, ℕ};

    ghost Value = { List ℕ };

    ghost view = { λ p. p.bytes.items };
}

impl PathKey {
    /// The key of the path with these bytes, which are copied.
    pub fn copy_of(alloc: Global, path: &[u8]) -> Result<PathKey, Memory>
        ensures { IfOk result (λ key. key ≡ path.now) }
    {
        let bytes = Bytes::copy_of(alloc, path)?.into_vec();
        Ok(PathKey { bytes })
    }
}

impl PartialEq for PathKey {
    ghost eq = { pointwise ◌==◌ };

    ghost laws = { Prim.search (comparing, rules) };

    fn eq(&self, other: &PathKey) -> bool {
        self.bytes == other.bytes
    }
}

impl Eq for PathKey {
    ghost laws = { Prim.search (comparing, rules) };
}

impl Hash for PathKey {
    ghost hash_input = { fed.slice fed.u8 };

    ghost respects_eq = { Prim.search (hashing, rules) };

    fn hash<H: Hasher>(&self, state: &mut H) {
        self.bytes.hash(state);
    }
}
