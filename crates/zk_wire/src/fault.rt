//! Why a frame cannot be read.

ghost use Rattle.std.specs.Prelude.{◌≡◌};
ghost use Rattle.zk_wire.specs.declared.fault.Fault.TheVariants.{Memory as NoMemory};

use std::alloc::{AllocError, AllocFailed};

/// Why a frame cannot be read. A place is an offset in the frame, without its length.
#[derive(Clone, Copy, PartialEq, Eq)]
pub enum WireFault {
    /// The frame is too short for its header, of 8 bytes in a request and 16 in a reply; or it is no connect.
    NoHeader,
    /// The body cannot be read. The first byte that is to blame stands at `place`.
    Unreadable { xid: i32, place: u64 },
    /// No kind of request has the type `kind`.
    Unknown { xid: i32, kind: i32 },
    /// Memory was refused. Nothing is said of the frame.
    Memory,
}

/// Why a value cannot be read.
#[derive(Drop)]
pub enum Fault {
    /// Memory was refused. Nothing is said of the value.
    Memory,
    /// How many bytes of the frame are left, from the first byte that is to blame on.
    Unreadable(usize),
}

impl From<AllocError> for Fault {
    ghost from_gives = { λ _ e. e ≡ NoMemory };

    fn from(_refused: AllocError) -> Fault {
        Fault::Memory
    }
}

impl<T: Drop> From<AllocFailed<T>> for Fault {
    ghost from_gives = { λ _ e. e ≡ NoMemory };

    fn from(_refused: AllocFailed<T>) -> Fault {
        Fault::Memory
    }
}
