//! What etcd is asked (etcd API reference, "KV", "Lease").

use zx_base::{Bytes, Seq};

/// A range of keys, in the order of their bytes (API reference, `RangeRequest`).
#[derive(Drop)]
pub struct RangeReq {
    /// The first key.
    pub key: Bytes,
    /// The end of the range, which is not in it. Empty: the range is the one key. The one byte 0: there is no end.
    pub end: Bytes,
    /// The revision that the range is read at. 0: the present.
    pub revision: i64,
    /// How many keys are given at most. 0: no limit.
    pub limit: i64,
    /// Whether values are left out.
    pub keys_only: bool,
}

/// A compare: the key's mod_revision is this one, 0 for a key that is not there (`Compare` with target MOD, result EQUAL).
#[derive(Drop)]
pub struct Guard {
    pub key: Bytes,
    pub mod_revision: i64,
}

/// An operation of a transaction (`RequestOp`).
#[derive(Drop)]
pub enum Act {
    /// `lease` is the number of the lease that the key then has, 0 for none.
    Put {
        key: Bytes,
        value: Bytes,
        lease: i64,
    },
    /// Deletes one key, if it is there.
    Delete {
        key: Bytes,
    },
    Range(RangeReq),
}

/// A transaction: where all guards hold the success list is carried out, otherwise the failure list (`TxnRequest`). Each of the
/// three has at most 128 members, or the transaction is denied.
#[derive(Drop)]
pub struct TxnReq {
    pub guards: Seq<Guard>,
    pub success: Seq<Act>,
    pub failure: Seq<Act>,
}

/// One request to etcd.
#[derive(Drop)]
pub enum Ask {
    Txn(TxnReq),
    Range(RangeReq),
    /// Grants a lease with this number, which is at least 1, for `ttl` seconds (`LeaseGrantRequest`).
    Grant { id: i64, ttl: i64 },
    /// Starts the seconds of a lease anew (`LeaseKeepAliveRequest`).
    Alive { id: i64 },
}
