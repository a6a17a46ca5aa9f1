//! Why a happening was not applied.

ghost use Rattle.std.specs.Prelude.{◌≡◌};

use std::alloc::AllocFailed;
use zt_text::Why;
use zx_base::Memory;

/// Why a line of a script was not applied.
#[derive(Clone, Copy, PartialEq, Eq)]
pub enum ApplyFault {
    /// It is not possible in this world, which stays as it was; `why` is the first of its tests that fails.
    NotPossible { why: Why },
    /// Memory was refused. The world answers so from then on, and changes no more.
    Memory,
}

impl From<Memory> for ApplyFault {
    ghost use Rattle.std.specs.Prelude.{◌≡◌};
    ghost use Rattle.zp_world.specs.declared.fault.ApplyFault.TheVariants.{Memory};

    ghost from_gives = { λ _ e. e ≡ Memory };

    fn from(_refused: Memory) -> ApplyFault {
        ApplyFault::Memory
    }
}

impl<T: Drop> From<AllocFailed<T>> for ApplyFault {
    ghost use Rattle.std.specs.Prelude.{◌≡◌};
    ghost use Rattle.zp_world.specs.declared.fault.ApplyFault.TheVariants.{Memory};

    ghost from_gives = { λ _ e. e ≡ Memory };

    fn from(_refused: AllocFailed<T>) -> ApplyFault {
        ApplyFault::Memory
    }
}

/// The fault of a line that is not possible.
pub(crate) fn refused(why: Why) -> ApplyFault
    ensures { result ≡ ApplyFault.NotPossible why }
{
    ApplyFault::NotPossible { why }
}
