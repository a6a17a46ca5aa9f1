//! Reading records.

ghost use Rattle.std.specs.Prelude.{◌≡◌, ◌↔◌, ◌+◌, ◌≤◌, ◌∷◌, ◌++◌, length, IfOk, IsTrue, MatchOption, MatchResult};
ghost use Rattle.std.specs.Int.{w32, w64};
ghost use Rattle.std.specs.Int.RustNames.{FitsSigned};
ghost use Rattle.zk_jute.specs.JuteWriting.{int_bytes, long_bytes};
ghost use Rattle.zx_base.specs.Maps.{Bytes as ListOfBytes};
ghost use Rattle.zn_layout.specs.Records.{node_value, counts_value, lease_value, IsLongCount, IsNodeRec, IsCountRec, IsLeaseRec};
ghost use Rattle.zn_layout.specs.Reading.{IsValueOf, IsFault, IsReadAs};
ghost use Rattle.zn_layout.specs.ReadingSteps.{HasNumbers, HasCounts, HasLife};

use crate::fault::{RecordFault, damaged};
use crate::record::{CountRec, LeaseRec, NodeRec};
use crate::writer::RECORD;
use byteorder::{BigEndian, ByteOrder};
use std::alloc::Global;
use zk_model::limit::{MAX_CREATES, MAX_FRAME, MAX_TIMEOUT, MIN_TIMEOUT};
use zx_base::{Bytes, Memory};

/// How many bytes a node's value has between its first byte and its data.
pub(crate) const NODE_NUMBERS: usize = 36;

/// How many bytes the value of a session's life has after its first byte.
const LEASE_NUMBERS: usize = 28;

/// How many bytes the value of a record of counts has after its first byte.
const COUNTS_NUMBERS: usize = 8;

/// Reads the value under this key as a node's record. `Damaged` where it is none, with the key and the value.
pub fn read_node(alloc: Global, key: &[u8], value: &[u8]) -> Result<NodeRec, RecordFault>
    ensures { MatchResult result (IsValueOf node_value IsNodeRec value.now) (IsFault node_value IsNodeRec key.now value.now) }
{
    match node_in(alloc, value)? {
        Some(node) => Ok(node),
        None => Err(damaged(alloc, key, value)),
    }
}

/// Reads the value under this key as a record of counts. `Damaged` where it is none, with the key and the value.
pub fn read_counts(alloc: Global, key: &[u8], value: &[u8]) -> Result<CountRec, RecordFault>
    ensures { MatchResult result (IsValueOf counts_value IsCountRec value.now) (IsFault counts_value IsCountRec key.now value.now) }
{
    match counts_in(value) {
        Some(counts) => Ok(counts),
        None => Err(damaged(alloc, key, value)),
    }
}

/// Reads the value under this key as the record of a session's life. `Damaged` where it is none, with the key and the value.
pub fn read_lease(alloc: Global, key: &[u8], value: &[u8]) -> Result<LeaseRec, RecordFault>
    ensures { MatchResult result (IsValueOf lease_value IsLeaseRec value.now) (IsFault lease_value IsLeaseRec key.now value.now) }
{
    match lease_in(value) {
        Some(lease) => Ok(lease),
        None => Err(damaged(alloc, key, value)),
    }
}

fn node_in(alloc: Global, value: &[u8]) -> Result<Option<NodeRec>, Memory>
    ensures { IfOk result (IsReadAs node_value IsNodeRec value.now) }
{
    let Some(numbers) = after_first(value) else {
        return Ok(None);
    };
    if numbers.len() < NODE_NUMBERS {
        return Ok(None);
    }
    Ok(bounded_node(node_of(alloc, numbers)?))
}

/// What follows the first byte of a record's value; `None` where that byte is not 1.
pub(crate) fn after_first(value: &[u8]) -> Option<&[u8]>
    ensures { MatchOption result ((rest : ListOfBytes) → value.now ≡ 1 ∷ rest → ⊥) (λ numbers. value.now ≡ 1 ∷ numbers.now) }
{
    match value {
        [RECORD, numbers @ ..] => Some(numbers),
        _ => None,
    }
}

/// The record of these numbers and the data that follow them.
fn node_of(alloc: Global, numbers: &[u8]) -> Result<NodeRec, Memory>
    requires { NODE_NUMBERS ≤ length numbers.now }
    ensures value { IfOk result (λ n. 1 ∷ numbers.now ≡ node_value n) }
    ensures fits { IfOk result HasNumbers }
{
    let (czxid, rest) = split_long(numbers);
    let (version, rest) = split_int(rest);
    let (ctime, rest) = split_long(rest);
    let (mtime, rest) = split_long(rest);
    let (owner, rest) = split_long(rest);
    let content = Bytes::copy_of(alloc, rest)?;
    Ok(NodeRec {
        czxid,
        version,
        ctime,
        mtime,
        owner,
        content,
    })
}

/// The record, if it keeps its bounds.
fn bounded_node(node: NodeRec) -> Option<NodeRec>
    ensures { MatchOption result (IsNodeRec node → ⊥) (λ n. (n ≡ node) × IsNodeRec n) }
{
    if !are_counts(node.czxid, node.owner) || !are_counts(node.ctime, node.mtime) {
        return None;
    }
    if node.version < 0 || node.content.len() > MAX_FRAME {
        return None;
    }
    Some(node)
}

/// Whether neither number is negative.
pub(crate) fn are_counts(m: i64, n: i64) -> bool
    ensures { IsTrue result ↔ (IsLongCount m × IsLongCount n) }
{
    m >= 0 && n >= 0
}

/// Reads a value as a record of counts. `None` where it is no record within its bounds.
pub fn counts_in(value: &[u8]) -> Option<CountRec>
    ensures { IsReadAs counts_value IsCountRec value.now result }
{
    let Some(numbers) = after_first(value) else {
        return None;
    };
    if numbers.len() != COUNTS_NUMBERS {
        return None;
    }
    bounded_counts(counts_of(numbers))
}

/// The record of counts with these numbers.
fn counts_of(numbers: &[u8]) -> CountRec
    requires { length numbers.now ≡ COUNTS_NUMBERS }
    ensures value { 1 ∷ numbers.now ≡ counts_value result }
    ensures fits { HasCounts result }
{
    let (creates, rest) = split_int(numbers);
    let (children, _) = split_int(rest);
    CountRec { creates, children }
}

/// The record, if it keeps its bounds.
fn bounded_counts(counts: CountRec) -> Option<CountRec>
    ensures { MatchOption result (IsCountRec counts → ⊥) (λ n. (n ≡ counts) × IsCountRec n) }
{
    if counts.children < 0 || counts.children > counts.creates || counts.creates > MAX_CREATES {
        return None;
    }
    Some(counts)
}

/// Reads a value as the record of a session's life. `None` where it is no record within its bounds.
pub fn lease_in(value: &[u8]) -> Option<LeaseRec>
    ensures { IsReadAs lease_value IsLeaseRec value.now result }
{
    let Some(numbers) = after_first(value) else {
        return None;
    };
    if numbers.len() != LEASE_NUMBERS {
        return None;
    }
    bounded_lease(lease_of(numbers))
}

/// The record of these numbers and the password that follows them.
fn lease_of(numbers: &[u8]) -> LeaseRec
    requires { length numbers.now ≡ LEASE_NUMBERS }
    ensures value { 1 ∷ numbers.now ≡ lease_value result }
    ensures fits { HasLife result }
{
    let (timeout, rest) = split_int(numbers);
    let (attaches, rest) = split_long(rest);
    let mut passwd = [0; 16];
    passwd.copy_from_slice(rest);
    LeaseRec {
        timeout,
        attaches,
        passwd,
    }
}

/// The record, if it keeps its bounds.
fn bounded_lease(lease: LeaseRec) -> Option<LeaseRec>
    ensures { MatchOption result (IsLeaseRec lease → ⊥) (λ r. (r ≡ lease) × IsLeaseRec r) }
{
    if lease.timeout < MIN_TIMEOUT || lease.timeout > MAX_TIMEOUT || lease.attaches < 1 {
        return None;
    }
    Some(lease)
}

/// The first four bytes as an int, and the rest.
pub(crate) fn split_int(bytes: &[u8]) -> (i32, &[u8])
    requires { 4 ≤ length bytes.now }
    ensures parts { bytes.now ≡ int_bytes result.0 ++ result.1.now }
    ensures fits { FitsSigned w32 result.0 }
    ensures shorter { length result.1.now + 4 ≡ length bytes.now }
{
    (BigEndian::read_i32(bytes), &bytes[4..])
}

/// The first eight bytes as a long, and the rest.
pub(crate) fn split_long(bytes: &[u8]) -> (i64, &[u8])
    requires { 8 ≤ length bytes.now }
    ensures parts { bytes.now ≡ long_bytes result.0 ++ result.1.now }
    ensures fits { FitsSigned w64 result.0 }
    ensures shorter { length result.1.now + 8 ≡ length bytes.now }
{
    (BigEndian::read_i64(bytes), &bytes[8..])
}
