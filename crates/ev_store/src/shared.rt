//! A value that the revisions and the index share.

ghost use Rattle.std.specs.Prelude.{◌≡◌, IfOk};

use std::alloc::Global;
use std::marker::Model;
use std::sync::Arc;
use zx_base::{Bytes, Memory};

/// A value's bytes, which may have several owners. Contracts see the bytes.
#[derive(Drop)]
pub struct Shared {
    bytes: Arc<Bytes, Global>,
}

impl Model for Shared {
    ghost use Rattle.std.specs.Arc.{arc_value};
    ghost use Rattle.std.specs.Prelude.{List, ℕ};

    ghost Value = { List ℕ };

    ghost view = { λ s. arc_value s.bytes };
}

impl Shared {
    /// A copy of these bytes, with one owner.
    pub fn copy_of(alloc: Global, bytes: &[u8]) -> Result<Shared, Memory>
        ensures { IfOk result (λ s. s ≡ bytes.now) }
    {
        let bytes = Bytes::copy_of(alloc, bytes)?;
        match Arc::new(alloc, bytes) {
            Ok(bytes) => Ok(Shared { bytes }),
            Err(_) => Err(Memory),
        }
    }

    /// One more owner of the same bytes. Copies none of them.
    pub fn another(&self) -> Result<Shared, Memory>
        ensures { IfOk result (λ s. s ≡ self.now) }
    {
        Ok(Shared {
            bytes: Arc::try_clone(&self.bytes)?,
        })
    }

    /// The bytes, borrowed.
    pub fn as_slice(&self) -> &[u8]
        ensures { result.now ≡ self.now }
    {
        self.bytes.as_slice()
    }
}
