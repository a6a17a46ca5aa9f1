//! The kinds of key, and whether a value is a record of its key's kind.

ghost use Rattle.std.specs.Prelude.{◌≡◌, ◌↔◌, IfOk, IsTrue, Some};
ghost use Rattle.zn_view.specs.declared.kind.Kind.TheVariants.{Head, Nodes};
ghost use Rattle.zn_view.specs.Seen.{kind_of_bytes, IsOfKind, IsRecord};

use ev_types::Kv;
use std::alloc::Global;
use zn_layout::{
    COUNTS_FRONT, DATA_FRONT, HEAD_NAME, LEASE_FRONT, SESSION_FRONT, head_in, is_counts_record,
    is_lease_record, is_node_record, session_in,
};
use zx_base::Memory;

/// The kinds of key of the layout.
#[derive(Clone, Copy)]
pub enum Kind {
    /// The last update.
    Head,
    /// A node's data.
    Data,
    /// The counts of a node's children.
    Counts,
    /// The nodes that a session owns.
    Nodes,
    /// A session's life.
    Life,
}

/// How many bytes tell the kind of a key other than the head's.
const FIRST: usize = 5;

fn kind_of(key: &[u8]) -> Option<Kind>
    ensures { result ≡ kind_of_bytes key.now }
{
    let first = &key[..key.len().min(FIRST)];
    if key == HEAD_NAME.as_slice() {
        Some(Kind::Head)
    } else if first == DATA_FRONT.as_slice() {
        Some(Kind::Data)
    } else if first == COUNTS_FRONT.as_slice() {
        Some(Kind::Counts)
    } else if first == SESSION_FRONT.as_slice() {
        Some(Kind::Nodes)
    } else if first == LEASE_FRONT.as_slice() {
        Some(Kind::Life)
    } else {
        None
    }
}

fn is_head_record(alloc: Global, value: &[u8]) -> Result<bool, Memory>
    ensures { IfOk result (λ b. IsTrue b ↔ IsOfKind (Some Head) value.now) }
{
    Ok(head_in(alloc, value)?.is_some())
}

fn is_nodes_record(alloc: Global, value: &[u8]) -> Result<bool, Memory>
    ensures { IfOk result (λ b. IsTrue b ↔ IsOfKind (Some Nodes) value.now) }
{
    Ok(session_in(alloc, value)?.is_some())
}

/// Whether a value is a record of this kind.
fn is_of_kind(alloc: Global, kind: Kind, value: &[u8]) -> Result<bool, Memory>
    ensures { IfOk result (λ b. IsTrue b ↔ IsOfKind (Some kind) value.now) }
{
    match kind {
        Kind::Head => is_head_record(alloc, value),
        Kind::Data => Ok(is_node_record(value)),
        Kind::Counts => Ok(is_counts_record(value)),
        Kind::Nodes => is_nodes_record(alloc, value),
        Kind::Life => Ok(is_lease_record(value)),
    }
}

/// Whether the value is a record of its key's kind; so is any value whose key is of no kind. A node's data are not copied.
pub(crate) fn is_record(alloc: Global, kv: &Kv) -> Result<bool, Memory>
    ensures { IfOk result (λ b. IsTrue b ↔ IsRecord kv.now) }
{
    match kind_of(kv.key.as_slice()) {
        None => Ok(true),
        Some(kind) => is_of_kind(alloc, kind, kv.value.as_slice()),
    }
}
