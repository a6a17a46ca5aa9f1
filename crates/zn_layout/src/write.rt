//! Writing records.

ghost use Rattle.std.specs.Prelude.{◌≡◌, ◌∷◌, ◌++◌, IfOk, OnOk, IsTrue};
ghost use Rattle.zk_jute.specs.JuteWriting.{string_bytes};
ghost use Rattle.zk_model.specs.Paths.{is_path};
ghost use Rattle.zn_layout.specs.Records.{node_value, counts_value, session_value, lease_value, head_value, trigger_bytes, IsNodeRec, IsCountRec, IsSessionRec, IsLeaseRec, IsHeadRec};
ghost use Rattle.zk_model.specs.Watches.{trigger_path};

use crate::layout::layout_byte;
use crate::record::{CountRec, HeadRec, LeaseRec, NodeRec, SessionRec};
use crate::writer::Writer;
use std::alloc::Global;
use zk_model::{Path, Trigger};
use zx_base::Memory;

/// How many bytes a node's value has before its data.
const NODE_HEAD: usize = 37;

/// How many bytes the value of a record of counts has.
const COUNTS_LENGTH: usize = 9;

/// How many bytes the value of a session's life has.
const LEASE_LENGTH: usize = 29;

/// How many bytes the value of a list has before its items.
const LIST_HEAD: usize = 5;

/// How many bytes stand before the bytes of a path in a list: its length, as an int.
const PATH_HEAD: usize = 4;

/// How many bytes stand before the bytes of a trigger's path: its kind, and the path's length.
const TRIGGER_HEAD: usize = 5;

/// The value of a node's record, which is within its bounds.
#[tactic(auto, unfolding(crate::specs::Records::node_value))]
pub fn write_node(alloc: Global, node: &NodeRec) -> Result<Vec<u8>, Memory>
    requires { IsNodeRec node.now }
    ensures { IfOk result (λ v. v.items ≡ node_value node.now) }
{
    let mut value = Writer::new(alloc, NODE_HEAD + node.content.len())?;
    value.long(node.czxid)?;
    value.int(node.version)?;
    value.long(node.ctime)?;
    value.long(node.mtime)?;
    value.long(node.owner)?;
    value.bytes(node.content.as_slice())?;
    Ok(value.into_vec())
}

/// The value of a record of counts, which is within its bounds.
#[tactic(auto, unfolding(crate::specs::Records::counts_value))]
pub fn write_counts(alloc: Global, counts: &CountRec) -> Result<Vec<u8>, Memory>
    requires { IsCountRec counts.now }
    ensures { IfOk result (λ v. v.items ≡ counts_value counts.now) }
{
    let mut value = Writer::new(alloc, COUNTS_LENGTH)?;
    value.int(counts.creates)?;
    value.int(counts.children)?;
    Ok(value.into_vec())
}

/// The value of the record of a session's nodes, which is within its bounds: its paths rise strictly by their bytes.
#[tactic(auto, unfolding(crate::specs::Records::session_value))]
pub fn write_session(alloc: Global, session: &SessionRec) -> Result<Vec<u8>, Memory>
    requires { IsSessionRec session.now }
    ensures { IfOk result (λ v. v.items ≡ session_value session.now) }
{
    let room = length_of_paths(session.paths.as_slice());
    let mut value = Writer::begun(alloc, layout_byte(session.layout), room)?;
    value.count(session.paths.len())?;
    for path in session.paths.as_slice() {
        write_path(&mut value, path)?;
    }
    Ok(value.into_vec())
}

/// The value of the record of a session's life, which is within its bounds.
#[tactic(auto, unfolding(crate::specs::Records::lease_value))]
pub fn write_lease(alloc: Global, lease: &LeaseRec) -> Result<Vec<u8>, Memory>
    requires { IsLeaseRec lease.now }
    ensures { IfOk result (λ v. v.items ≡ lease_value lease.now) }
{
    let mut value = Writer::new(alloc, LEASE_LENGTH)?;
    value.int(lease.timeout)?;
    value.long(lease.attaches)?;
    value.bytes(&lease.passwd)?;
    Ok(value.into_vec())
}

/// The value of the head's record, which is within its bounds.
#[tactic(auto, unfolding(crate::specs::Records::head_value))]
pub fn write_head(alloc: Global, head: &HeadRec) -> Result<Vec<u8>, Memory>
    requires { IsHeadRec head.now.triggers }
    ensures { IfOk result (λ v. v.items ≡ head_value head.now.triggers) }
{
    let mut value = Writer::new(alloc, length_of_triggers(head.triggers.as_slice()))?;
    value.count(head.triggers.len())?;
    for trigger in head.triggers.as_slice() {
        write_trigger(&mut value, trigger)?;
    }
    Ok(value.into_vec())
}

/// How many bytes the value of a list of paths has.
fn length_of_paths(paths: &[Path]) -> usize {
    let mut length = LIST_HEAD;
    for path in paths {
        length = length
            .saturating_add(PATH_HEAD)
            .saturating_add(path.bytes().len());
    }
    length
}

/// How many bytes the value of a list of triggers has.
fn length_of_triggers(triggers: &[Trigger]) -> usize {
    let mut length = LIST_HEAD;
    for trigger in triggers {
        length = length
            .saturating_add(TRIGGER_HEAD)
            .saturating_add(path_of(trigger).len());
    }
    length
}

/// The path whose watches a trigger fires.
fn path_of(trigger: &Trigger) -> &[u8] {
    match trigger {
        Trigger::Created(path) => path.bytes(),
        Trigger::Deleted(path) => path.bytes(),
        Trigger::Changed(path) => path.bytes(),
        Trigger::Children(path) => path.bytes(),
    }
}

fn write_trigger(value: &mut Writer, trigger: &Trigger) -> Result<(), Memory>
    requires { IsTrue (is_path (trigger_path trigger.now)) }
    ensures { OnOk result (value.new ≡ value.old ++ trigger_bytes trigger.now) }
{
    match trigger {
        Trigger::Created(path) => write_kind(value, 1, path.bytes()),
        Trigger::Deleted(path) => write_kind(value, 2, path.bytes()),
        Trigger::Changed(path) => write_kind(value, 3, path.bytes()),
        Trigger::Children(path) => write_kind(value, 4, path.bytes()),
    }
}

/// A trigger's number and path.
fn write_kind(value: &mut Writer, kind: u8, path: &[u8]) -> Result<(), Memory>
    requires { IsTrue (is_path path.now) }
    ensures { OnOk result (value.new ≡ value.old ++ (kind ∷ string_bytes path.now)) }
{
    value.byte(kind)?;
    value.string(path)
}

fn write_path(value: &mut Writer, path: &Path) -> Result<(), Memory>
    requires { IsTrue (is_path path.now) }
    ensures { OnOk result (value.new ≡ value.old ++ string_bytes path.now) }
{
    value.string(path.bytes())
}
