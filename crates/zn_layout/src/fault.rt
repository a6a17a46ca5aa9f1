//! Why a stored value cannot be read.

ghost use Rattle.std.specs.Prelude.{◌≡◌, IfOk};
ghost use Rattle.zn_layout.specs.Reading.{IsDamaged};

use std::alloc::Global;
use zx_base::{Bytes, Memory};

/// Why a stored value is not read as a record.
#[derive(Drop)]
pub enum RecordFault {
    /// The value under this key is no record of its kind, or one out of its bounds.
    Damaged { key: Bytes, value: Bytes },
    /// The allocator refused memory. It says nothing of the value.
    Memory,
}

impl From<Memory> for RecordFault {
    ghost use Rattle.std.specs.Prelude.{◌≡◌};
    ghost use Rattle.zn_layout.specs.declared.fault.RecordFault.TheVariants as faults;

    ghost from_gives = { λ _ fault. fault ≡ faults.Memory };

    fn from(_refused: Memory) -> RecordFault {
        RecordFault::Memory
    }
}

/// The fault of a value that is no record, with copies of the key and the value.
pub(crate) fn damaged(alloc: Global, key: &[u8], value: &[u8]) -> RecordFault
    ensures { IsDamaged key.now value.now result }
{
    match copies(alloc, key, value) {
        Ok((key, value)) => RecordFault::Damaged { key, value },
        Err(Memory) => RecordFault::Memory,
    }
}

fn copies(alloc: Global, key: &[u8], value: &[u8]) -> Result<(Bytes, Bytes), Memory>
    ensures { IfOk result (λ c. (c.0 ≡ key.now) × (c.1 ≡ value.now)) }
{
    Ok((Bytes::copy_of(alloc, key)?, Bytes::copy_of(alloc, value)?))
}
