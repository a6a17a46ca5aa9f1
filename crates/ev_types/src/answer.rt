//! What etcd answers (etcd API reference, "KV", "Lease").

ghost use Rattle.std.specs.Prelude.{◌≡◌};
ghost use Rattle.ev_types.specs.Answers.{revision_in};

use zx_base::{Bytes, Seq};

/// A key with its value, as etcd keeps it (API reference, `KeyValue`).
#[derive(Drop)]
pub struct Kv {
    pub key: Bytes,
    pub value: Bytes,
    /// The revision at which the key was last created.
    pub create_revision: i64,
    /// The revision of its last put.
    pub mod_revision: i64,
    /// How often the key was put since it was last created, that put included: at least 1.
    pub version: i64,
    /// The number of its lease, 0 for none.
    pub lease: i64,
}

/// What a range found (`RangeResponse`).
#[derive(Drop)]
pub struct RangeAns {
    /// In the order of the keys' bytes, at most as many as the limit.
    pub kvs: Seq<Kv>,
    /// Whether the limit left some out.
    pub more: bool,
    /// How many keys the whole range has, whatever the limit.
    pub count: i64,
}

/// What an operation of a transaction answers (`ResponseOp`).
#[derive(Drop)]
pub enum ActAns {
    Put,
    /// How many keys were deleted: 0 or 1, since a delete names one key.
    Deleted(i64),
    Range(RangeAns),
}

/// The answer to an ask of the same name. Each has the store's revision after the ask (`ResponseHeader`).
#[derive(Drop)]
pub enum Answer {
    /// Whether all guards held, and one part for each operation of the list that was then carried out.
    Txn {
        revision: i64,
        succeeded: bool,
        parts: Seq<ActAns>,
    },
    Range {
        revision: i64,
        found: RangeAns,
    },
    Granted {
        revision: i64,
        id: i64,
        ttl: i64,
    },
    /// The seconds of the lease, which start anew; 0 where it is not there.
    Alive {
        revision: i64,
        id: i64,
        ttl: i64,
    },
}

impl Answer {
    /// The store's revision after the ask.
    pub fn revision(&self) -> i64
        ensures { result ≡ revision_in self.now }
    {
        match self {
            Answer::Txn { revision, .. } => *revision,
            Answer::Range { revision, .. } => *revision,
            Answer::Granted { revision, .. } => *revision,
            Answer::Alive { revision, .. } => *revision,
        }
    }
}
