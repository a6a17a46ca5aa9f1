//! Why words make no line of a script.

use std::alloc::{AllocError, AllocFailed};
use zx_base::Memory;

/// Why words make no line of a script.
#[derive(Clone, Copy, PartialEq, Eq)]
pub enum Fault {
    /// Out of memory. Nothing is said of the words.
    Memory,
    /// The words are of no form.
    Unreadable,
}

impl From<Memory> for Fault {
    fn from(_refused: Memory) -> Fault {
        Fault::Memory
    }
}

impl From<AllocError> for Fault {
    fn from(_refused: AllocError) -> Fault {
        Fault::Memory
    }
}

impl<T: Drop> From<AllocFailed<T>> for Fault {
    fn from(_refused: AllocFailed<T>) -> Fault {
        Fault::Memory
    }
}
