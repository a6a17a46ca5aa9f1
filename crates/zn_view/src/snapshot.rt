//! What was found under some keys.

ghost use Rattle.std.specs.Prelude.{◌≡◌, IfOk};

use ev_types::Kv;
use std::alloc::Global;
use zk_model::Path;
use zx_base::{Bytes, Memory, Seq};

/// A key that was looked up, and what it had.
#[derive(Drop)]
pub struct SeenKey {
    pub key: Bytes,
    /// `None` where the key was absent.
    pub found: Option<Kv>,
}

/// A node whose children were listed, and their paths in the order in which they were found: an etcd's is that of the bytes.
#[derive(Drop)]
pub struct SeenChildren {
    pub path: Path,
    pub paths: Seq<Bytes>,
}

/// What some keys had at one revision of an etcd.
#[derive(Drop)]
pub struct Snapshot {
    /// 0 where nothing was looked up yet.
    pub revision: i64,
    /// In the order in which they were added.
    pub keys: Seq<SeenKey>,
    pub lists: Seq<SeenChildren>,
}

/// A copy of a key with its value and numbers.
pub fn copy_kv(alloc: Global, kv: &Kv) -> Result<Kv, Memory>
    ensures { IfOk result (λ k. k ≡ kv.now) }
{
    Ok(Kv {
        key: Bytes::copy_of(alloc, kv.key.as_slice())?,
        value: Bytes::copy_of(alloc, kv.value.as_slice())?,
        create_revision: kv.create_revision,
        mod_revision: kv.mod_revision,
        version: kv.version,
        lease: kv.lease,
    })
}
