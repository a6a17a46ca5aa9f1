//! Why a step could not be made.

use zx_base::Bytes;

/// Why a step of a connect or of a reap could not be made.
#[derive(Drop)]
pub enum StepFault {
    /// The value that was found under this key is no record of the key's kind.
    Damaged { key: Bytes, value: Bytes },
    /// Out of memory.
    Memory,
}

impl From<zx_base::Memory> for StepFault {
    ghost use Rattle.std.specs.Prelude.{◌≡◌};
    ghost use Rattle.zs_session.specs.declared.fault.StepFault.TheVariants as faults;

    ghost from_gives = { λ _ fault. fault ≡ faults.Memory };

    fn from(_refused: zx_base::Memory) -> StepFault {
        StepFault::Memory
    }
}
