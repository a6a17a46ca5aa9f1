//! Why a store does not do what it is asked.

ghost use Rattle.std.specs.Prelude.{◌≡◌};

use std::alloc::AllocFailed;
use zx_base::{Bytes, Memory};

/// Why an ask, or another call of the store, is denied (etcd's server errors). What is denied changes nothing.
#[derive(Drop)]
pub enum Denied {
    /// A grant names a lease that is there (`ErrLeaseExists`).
    LeaseExists { id: i64 },
    /// A put of the chosen list, or a lapse, names a lease that is not there (`ErrLeaseNotFound`).
    NoLease { id: i64 },
    /// A range or a compaction names a revision above the store's, `revision` (`ErrFutureRev`).
    Future { asked: i64, revision: i64 },
    /// A range names a revision below `floor`, the greatest one that was compacted, and not 0, which names the present
    /// (`ErrCompacted`). A call of `events_since` is denied at 0 too.
    Compacted { asked: i64, floor: i64 },
    /// There are `count` compares, or operations in one list, where 128 are allowed (`ErrTooManyOps`).
    TooMany { count: u64 },
    /// One list puts this key twice, or both puts and deletes it (`ErrDuplicateKey`).
    Twice { key: Bytes },
    /// The call would change a key, and the store stands at its last revision, 2^62 - 1.
    Full { revision: i64 },
}

/// Why a call did nothing. The store is as before.
#[derive(Drop)]
pub enum StoreFault {
    /// An etcd would deny it.
    Denied(Denied),
    /// The allocator refused memory.
    Memory,
}

impl From<Memory> for StoreFault {
    ghost use Rattle.std.specs.Prelude.{◌≡◌};
    ghost use Rattle.ev_store.specs.declared.fault.StoreFault.TheVariants.{Memory};

    ghost from_gives = { λ _ e. e ≡ Memory };

    fn from(_refused: Memory) -> StoreFault {
        StoreFault::Memory
    }
}

impl From<Denied> for StoreFault {
    ghost use Rattle.std.specs.Prelude.{◌≡◌};
    ghost use Rattle.ev_store.specs.declared.fault.StoreFault.TheVariants as fault;

    ghost from_gives = { λ d e. e ≡ fault.Denied d };

    fn from(denied: Denied) -> StoreFault {
        StoreFault::Denied(denied)
    }
}

impl<T: Drop> From<AllocFailed<T>> for StoreFault {
    ghost use Rattle.std.specs.Prelude.{◌≡◌};
    ghost use Rattle.ev_store.specs.declared.fault.StoreFault.TheVariants.{Memory};

    ghost from_gives = { λ _ e. e ≡ Memory };

    fn from(_refused: AllocFailed<T>) -> StoreFault {
        StoreFault::Memory
    }
}
