//! Why a body could not be read.

ghost use Rattle.std.specs.Prelude.{◌≡◌};
ghost use Rattle.ev_fields.specs.declared.fault.JsonFault.TheVariants.{Memory};

use crate::field::Field;
use std::alloc::{AllocError, AllocFailed};

/// Why a body could not be read.
#[derive(Clone, Copy, PartialEq, Eq)]
pub enum JsonFault {
    /// The body is not UTF-8, is not JSON, or nests deeper than 127.
    NotJson,
    /// This member is missing, of the wrong kind, out of range, or there where it must not be; or it is the list of responses, and
    /// does not have one for each operation.
    Unreadable { field: Field },
    /// The allocator refused memory.
    Memory,
}

impl From<AllocError> for JsonFault {
    ghost from_gives = { λ _ e. e ≡ Memory };

    fn from(_refused: AllocError) -> JsonFault {
        JsonFault::Memory
    }
}

impl<T: Drop> From<AllocFailed<T>> for JsonFault {
    ghost from_gives = { λ _ e. e ≡ Memory };

    fn from(_refused: AllocFailed<T>) -> JsonFault {
        JsonFault::Memory
    }
}
