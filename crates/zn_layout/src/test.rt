//! Tests of values, and what is read of a node without its data. None copies anything.

ghost use Rattle.std.specs.Prelude.{◌≡◌, ◌↔◌, ◌≤◌, ◌∷◌, length, drop, IsTrue, MatchOption};
ghost use Rattle.zn_layout.specs.Records.{node_value, counts_value, lease_value, IsNodeRec, IsCountRec, IsLeaseRec};
ghost use Rattle.zn_layout.specs.Reading.{IsSomeValue, IsNoValue, IsValueOf, czxid_in, node_record};
ghost use Rattle.zn_layout.specs.ReadingSteps.{HasNumbers};

use crate::read::{
    NODE_NUMBERS, after_first, are_counts, counts_in, lease_in, split_int, split_long,
};
use zk_model::limit::MAX_FRAME;

/// How many bytes a node's value has before its data.
const BEFORE_DATA: usize = 37;

/// How many bytes a node's value has up to the end of its czxid.
const TO_CZXID: usize = 9;

/// A znode's record without its data.
#[derive(Clone, Copy)]
pub struct NodeNumbers {
    /// The zxid of its create, or 0 where that is the revision of this record.
    pub czxid: i64,
    /// How often its data was set, at least 0.
    pub version: i32,
    /// The time of its create, in milliseconds.
    pub ctime: i64,
    /// The time of the last setData, or of its create, in milliseconds.
    pub mtime: i64,
    /// The session that owns it, 0 where it is not ephemeral.
    pub owner: i64,
}

/// Whether this is the value of a node's record within its bounds.
pub fn is_node_record(value: &[u8]) -> bool
    ensures { IsTrue result ↔ IsSomeValue node_value IsNodeRec value.now }
{
    node_numbers(value).is_some()
}

/// Whether this is the value of a record of counts within its bounds.
pub fn is_counts_record(value: &[u8]) -> bool
    ensures { IsTrue result ↔ IsSomeValue counts_value IsCountRec value.now }
{
    counts_in(value).is_some()
}

/// Whether this is the value of the record of a session's life within its bounds.
pub fn is_lease_record(value: &[u8]) -> bool
    ensures { IsTrue result ↔ IsSomeValue lease_value IsLeaseRec value.now }
{
    lease_in(value).is_some()
}

/// Reads the numbers of a node's value, which the data follow ([`node_content`]). `None` where the value is no node's record
/// within its bounds.
pub fn node_numbers(value: &[u8]) -> Option<NodeNumbers>
    ensures { MatchOption result (IsNoValue node_value IsNodeRec value.now) (λ n. IsValueOf node_value IsNodeRec value.now (node_record n (drop BEFORE_DATA value.now))) }
{
    let Some(numbers) = after_first(value) else {
        return None;
    };
    if numbers.len() < NODE_NUMBERS {
        return None;
    }
    let (node, content) = numbers_of(numbers);
    bounded_numbers(node, content)
}

/// The stored czxid in a node's value, its first number. `None` where the value is too short for it; whether it is a record is not
/// tested.
pub fn node_czxid(value: &[u8]) -> Option<i64>
    ensures { result ≡ czxid_in value.now }
{
    if value.len() < TO_CZXID {
        return None;
    }
    let (czxid, _) = split_long(&value[1..]);
    Some(czxid)
}

/// The data in a node's value: what follows its first 37 bytes.
pub fn node_content(value: &[u8]) -> &[u8]
    requires { BEFORE_DATA ≤ length value.now }
    ensures { result.now ≡ drop BEFORE_DATA value.now }
{
    &value[BEFORE_DATA..]
}

/// The numbers, and the data that follow them.
fn numbers_of(numbers: &[u8]) -> (NodeNumbers, &[u8])
    requires { NODE_NUMBERS ≤ length numbers.now }
    ensures value { 1 ∷ numbers.now ≡ node_value (node_record result.0 result.1.now) }
    ensures fits { HasNumbers (node_record result.0 result.1.now) }
{
    let (czxid, rest) = split_long(numbers);
    let (version, rest) = split_int(rest);
    let (ctime, rest) = split_long(rest);
    let (mtime, rest) = split_long(rest);
    let (owner, content) = split_long(rest);
    let node = NodeNumbers {
        czxid,
        version,
        ctime,
        mtime,
        owner,
    };
    (node, content)
}

/// The numbers, if the record with this data keeps its bounds.
fn bounded_numbers(numbers: NodeNumbers, content: &[u8]) -> Option<NodeNumbers>
    ensures { MatchOption result (IsNodeRec (node_record numbers content.now) → ⊥) (λ n. (n ≡ numbers) × IsNodeRec (node_record n content.now)) }
{
    if !are_counts(numbers.czxid, numbers.owner) || !are_counts(numbers.ctime, numbers.mtime) {
        return None;
    }
    if numbers.version < 0 || content.len() > MAX_FRAME {
        return None;
    }
    Some(numbers)
}
