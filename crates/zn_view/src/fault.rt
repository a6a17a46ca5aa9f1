//! Why a view takes no more.

use zx_base::Bytes;

/// Why a view was not extended.
#[derive(Drop)]
pub enum ViewFault {
    /// The view is of the revision `view`, and what was found is of `found`.
    OtherRevision { view: i64, found: i64 },
    /// The value found under this key is no record of the key's kind.
    Damaged { key: Bytes, value: Bytes },
    /// The allocator refused memory. It says nothing of what was found.
    Memory,
}

impl From<zx_base::Memory> for ViewFault {
    ghost use Rattle.std.specs.Prelude.{◌≡◌};
    ghost use Rattle.zn_view.specs.declared.fault.ViewFault.TheVariants as faults;

    ghost from_gives = { λ _ fault. fault ≡ faults.Memory };

    fn from(_refused: zx_base::Memory) -> ViewFault {
        ViewFault::Memory
    }
}
