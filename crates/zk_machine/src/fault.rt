//! Why the machine gives no answer.

use zx_base::Memory;

/// Why the machine gives no answer.
#[derive(Clone, Copy, PartialEq, Eq)]
pub enum Fault {
    /// Out of memory.
    Memory,
    /// A number does not fit its field, which happens in no run: a node's children, bytes of data, `cversion` or creates do not
    /// fit an `int`; 2^64 - 1 updates were made before this one; or its time is 2^63 milliseconds or more.
    Beyond,
}

impl From<Memory> for Fault {
    ghost use Rattle.std.specs.Prelude.{◌≡◌};
    ghost use Rattle.zk_machine.specs.declared.fault.Fault.TheVariants as faults;

    ghost from_gives = { λ _ fault. fault ≡ faults.Memory };

    fn from(_refused: Memory) -> Fault {
        Fault::Memory
    }
}
