//! Operations of a transaction on the keys of nodes and of the head. A put has no lease.

ghost use Rattle.std.specs.Prelude.{◌≡◌, ◌≤◌, length, pos, IfOk};
ghost use Rattle.ev_types.specs.Reads.{read_key};
ghost use Rattle.zn_layout.specs.Changes.{put_key, delete_key, head_put, act_of};
ghost use Rattle.zn_layout.specs.Keys.{HeadKey, DataKey, CountsKey, key_bytes};
ghost use Rattle.zn_layout.specs.Records.{node_value, counts_value, IsNodeRec, IsCountRec, IsHeadRec};
ghost use Rattle.zk_model.specs.Limits.{max_path};

use crate::key::{counts_key, data_key, head_key};
use crate::record::{CountRec, HeadRec, NodeRec};
use crate::write::{write_counts, write_head, write_node};
use ev_types::{Act, RangeReq};
use std::alloc::Global;
use zx_base::{Bytes, Memory, Seq};

/// Puts a node's record, which keeps its bounds. The path has at most 1,024 bytes.
pub fn put_node(alloc: Global, path: &[u8], node: &NodeRec) -> Result<Act, Memory>
    requires short { length path.now ≤ max_path }
    requires bounded { IsNodeRec node.now }
    ensures { IfOk result (λ a. a ≡ act_of (put_key (DataKey path.now) (node_value node.now))) }
{
    Ok(put(data_key(alloc, path)?, write_node(alloc, node)?))
}

/// Puts a node's counts, which keep their bounds. The path has at most 1,024 bytes.
pub fn put_counts(alloc: Global, path: &[u8], counts: &CountRec) -> Result<Act, Memory>
    requires short { length path.now ≤ max_path }
    requires bounded { IsCountRec counts.now }
    ensures { IfOk result (λ a. a ≡ act_of (put_key (CountsKey path.now) (counts_value counts.now))) }
{
    Ok(put(counts_key(alloc, path)?, write_counts(alloc, counts)?))
}

/// Puts the head, which keeps its bounds.
pub fn put_head(alloc: Global, head: &HeadRec) -> Result<Act, Memory>
    requires { IsHeadRec head.now.triggers }
    ensures { IfOk result (λ a. a ≡ act_of (head_put head.now.triggers)) }
{
    Ok(put(head_key(alloc)?, write_head(alloc, head)?))
}

/// Deletes a node's record. The path has at most 1,024 bytes.
pub fn delete_node(alloc: Global, path: &[u8]) -> Result<Act, Memory>
    requires { length path.now ≤ max_path }
    ensures { IfOk result (λ a. a ≡ act_of (delete_key (DataKey path.now))) }
{
    Ok(Act::Delete {
        key: data_key(alloc, path)?,
    })
}

/// Deletes a node's counts. The path has at most 1,024 bytes.
pub fn delete_counts(alloc: Global, path: &[u8]) -> Result<Act, Memory>
    requires { length path.now ≤ max_path }
    ensures { IfOk result (λ a. a ≡ act_of (delete_key (CountsKey path.now))) }
{
    Ok(Act::Delete {
        key: counts_key(alloc, path)?,
    })
}

/// Reads one key, as the transaction's earlier operations left it.
pub fn get_key(alloc: Global, key: Bytes) -> Act
    ensures { result ≡ read_key key }
{
    Act::Range(RangeReq {
        key,
        end: Seq::new(alloc),
        revision: 0,
        limit: 0,
        keys_only: false,
    })
}

/// Reads the head, as the transaction's earlier operations left it.
pub fn get_head(alloc: Global) -> Result<Act, Memory>
    ensures { IfOk result (λ a. a ≡ read_key (key_bytes HeadKey)) }
{
    Ok(get_key(alloc, head_key(alloc)?))
}

/// Puts a value under a key, with no lease.
pub fn put(key: Bytes, value: Vec<u8>) -> Act
    ensures { result ≡ Act.Put key value.items (pos 0) }
{
    Act::Put {
        key,
        value: Bytes::from_vec(value),
        lease: 0,
    }
}
