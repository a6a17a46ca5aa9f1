//! The keys that each request looks up, and those of them that a view lacks.

ghost use Rattle.std.specs.Prelude.{◌≡◌, ◌≤◌, ◌≤ℤ◌, ◌++◌, ℤ, Some, None, pos, length, map, IfSome, IfOk, OnOk, IsTrue, IsFalse};
ghost use Rattle.zk_model.specs.Limits.{max_path};
ghost use Rattle.zk_model.specs.Paths.{is_path, is_sequence_prefix};
ghost use Rattle.zn_layout.specs.Keys.{DataKey, key_bytes};
ghost use Rattle.zn_view.specs.Lacking.{lacking};
ghost use Rattle.zn_view.specs.Lookups.{sees};
ghost use Rattle.zn_view.specs.Needs.{IsCreatesSeen};
ghost use Rattle.zn_updates.specs.Deciding.{IsDataFound};
ghost use Rattle.zn_updates.specs.Seen.{IsDataWithin};
ghost use Rattle.zn_view.specs.Views.{about_path};
ghost use Rattle.zn_updates.specs.KeysRead.{create_keys as keys_of_create, numbered, plain_data, session_nodes, with_own, AreCreateWants, IsParentCreates, start_keys as keys_of_each, owner_nodes, set_data_keys as keys_of_set_data, delete_keys as keys_of_delete, IsOwnerSeen};

use crate::seen::{SeenData, counts_seen, data_seen};
use std::alloc::Global;
use zk_model::Path;
use zn_layout::{counts_key, data_key, head_key, lease_key, session_key};
use zn_view::{View, Want};
use zx_base::{Bytes, Memory, Seq};

/// The keys that each request reads: the head, and the record of the session's life. The session's number is at least 1.
pub fn start_keys(alloc: Global, session: i64) -> Result<Seq<Bytes>, Memory>
    requires { pos 1 ≤ℤ session }
    ensures { IfOk result (λ keys. keys ≡ map key_bytes (keys_of_each session)) }
{
    let mut keys = Seq::new(alloc);
    keys.push(head_key(alloc)?)?;
    keys.push(lease_key(alloc, session)?)?;
    Ok(keys)
}

/// Adds the keys of a node's record and counts.
pub fn push_node(alloc: Global, keys: &mut Seq<Bytes>, path: &Path) -> Result<(), Memory>
    requires { length path.now ≤ max_path }
    ensures { OnOk result (keys.new ≡ keys.old ++ map key_bytes (about_path path.now)) }
{
    keys.push(data_key(alloc, path.bytes())?)?;
    keys.push(counts_key(alloc, path.bytes())?)
}

/// The keys of a setData.
pub(crate) fn set_data_keys(alloc: Global, session: i64, path: &Path) -> Result<Seq<Bytes>, Memory>
    requires real { pos 1 ≤ℤ session }
    requires short { length path.now ≤ max_path }
    ensures { IfOk result (λ keys. keys ≡ map key_bytes (keys_of_set_data path.now session)) }
{
    let mut keys = start_keys(alloc, session)?;
    push_node(alloc, &mut keys, path)?;
    Ok(keys)
}

/// What a setData of this path still has to look up.
pub(crate) fn set_data_wants(
    alloc: Global,
    view: &View,
    session: i64,
    path: &Path,
) -> Result<Seq<Want>, Memory>
    requires real { pos 1 ≤ℤ session }
    requires short { length path.now ≤ max_path }
    ensures { IfOk result (λ ws. ws ≡ lacking view.now (map key_bytes (keys_of_set_data path.now session))) }
{
    view.lacking(set_data_keys(alloc, session, path)?)
}

/// Adds the key of the list of an owner's nodes, unless the owner is 0.
pub fn push_owner(alloc: Global, keys: &mut Seq<Bytes>, owner: i64) -> Result<(), Memory>
    requires { pos 0 ≤ℤ owner }
    ensures { OnOk result (keys.new ≡ keys.old ++ map key_bytes (owner_nodes owner)) }
{
    if owner == 0 {
        return Ok(());
    }
    keys.push(session_key(alloc, owner)?)
}

/// The keys of a delete of a node below a parent and with this owner, 0 for none.
pub(crate) fn delete_keys(
    alloc: Global,
    session: i64,
    path: &Path,
    parent: &Path,
    owner: i64,
) -> Result<Seq<Bytes>, Memory>
    requires real { pos 1 ≤ℤ session }
    requires short { length path.now ≤ max_path }
    requires parent { length parent.now ≤ max_path }
    requires owner { pos 0 ≤ℤ owner }
    ensures { IfOk result (λ keys. keys ≡ map key_bytes (keys_of_delete path.now (Some parent.now) session owner)) }
{
    let mut keys = set_data_keys(alloc, session, path)?;
    keys.push(counts_key(alloc, parent.bytes())?)?;
    push_owner(alloc, &mut keys, owner)?;
    Ok(keys)
}

/// The keys of a delete of a path without a parent.
fn orphan_keys(alloc: Global, session: i64, path: &Path, owner: i64) -> Result<Seq<Bytes>, Memory>
    requires real { pos 1 ≤ℤ session }
    requires short { length path.now ≤ max_path }
    requires owner { pos 0 ≤ℤ owner }
    ensures { IfOk result (λ keys. keys ≡ map key_bytes (keys_of_delete path.now None session owner)) }
{
    let mut keys = set_data_keys(alloc, session, path)?;
    push_owner(alloc, &mut keys, owner)?;
    Ok(keys)
}

fn delete_keys_of(
    alloc: Global,
    session: i64,
    path: &Path,
    parent: &Option<Path>,
    owner: i64,
) -> Result<Seq<Bytes>, Memory>
    requires real { pos 1 ≤ℤ session }
    requires short { length path.now ≤ max_path }
    requires parent { IfSome parent.now (λ q. length q ≤ max_path) }
    requires owner { pos 0 ≤ℤ owner }
    ensures { IfOk result (λ keys. keys ≡ map key_bytes (keys_of_delete path.now parent.now session owner)) }
{
    match parent {
        Some(parent) => delete_keys(alloc, session, path, parent, owner),
        None => orphan_keys(alloc, session, path, owner),
    }
}

/// The node's record that the view saw: none where the node is not there or its record was not looked up.
fn data_found(alloc: Global, view: &View, path: &Path) -> Result<Option<SeenData>, Memory>
    requires { IsTrue (is_path path.now) }
    ensures is { IfOk result (IsDataFound (sees view.now (DataKey path.now))) }
    ensures within { IfOk result (λ o. IfSome o IsDataWithin) }
{
    let key = data_key(alloc, path.bytes())?;
    if view.found(key.as_slice()).is_none() {
        return Ok(None);
    }
    data_seen(view, path)
}

/// The owner that the view saw of a node: 0 where the node has none, is not there, or was not looked up.
pub fn owner_seen(alloc: Global, view: &View, path: &Path) -> Result<i64, Memory>
    requires { IsTrue (is_path path.now) }
    ensures is { IfOk result (IsOwnerSeen (sees view.now (DataKey path.now))) }
    ensures least { IfOk result (λ owner. pos 0 ≤ℤ owner) }
{
    match data_found(alloc, view, path)? {
        Some(node) => Ok(node.owner),
        None => Ok(0),
    }
}

/// What a delete of this path still has to look up.
pub(crate) fn delete_wants(
    alloc: Global,
    view: &View,
    session: i64,
    path: &Path,
    parent: &Option<Path>,
) -> Result<Seq<Want>, Memory>
    requires real { pos 1 ≤ℤ session }
    requires valid { IsTrue (is_path path.now) }
    requires short { length path.now ≤ max_path }
    requires parent { IfSome parent.now (λ q. length q ≤ max_path) }
    ensures { IfOk result (λ ws. (owner : ℤ) × IsOwnerSeen (sees view.now (DataKey path.now)) owner × (ws ≡ lacking view.now (map key_bytes (keys_of_delete path.now parent.now session owner)))) }
{
    let owner = owner_seen(alloc, view, path)?;
    view.lacking(delete_keys_of(alloc, session, path, parent, owner)?)
}

/// Adds the key of a new node's record. A sequence node adds none here: its number has to be seen first.
pub fn push_data(
    alloc: Global,
    keys: &mut Seq<Bytes>,
    path: &[u8],
    sequential: bool,
) -> Result<(), Memory>
    requires { IsFalse sequential → length path.now ≤ max_path }
    ensures { OnOk result (keys.new ≡ keys.old ++ map key_bytes (plain_data sequential path.now)) }
{
    if sequential {
        return Ok(());
    }
    keys.push(data_key(alloc, path)?)
}

/// Adds the key of the list of the session's nodes, for an ephemeral node. The session's number is at least 1.
pub fn push_session(
    alloc: Global,
    keys: &mut Seq<Bytes>,
    session: i64,
    ephemeral: bool,
) -> Result<(), Memory>
    requires { pos 1 ≤ℤ session }
    ensures { OnOk result (keys.new ≡ keys.old ++ map key_bytes (session_nodes ephemeral session)) }
{
    if !ephemeral {
        return Ok(());
    }
    keys.push(session_key(alloc, session)?)
}

/// How many creates of children the view saw of a node: none where the node is not there, or its record or its counts were not
/// looked up.
pub fn creates_seen(alloc: Global, view: &View, path: &Path) -> Result<Option<u32>, Memory>
    requires { IsTrue (is_path path.now) }
    ensures { IfOk result (IsCreatesSeen view.now path.now) }
{
    let counts = counts_key(alloc, path.bytes())?;
    if view.found(counts.as_slice()).is_none() {
        return Ok(None);
    }
    let node = data_found(alloc, view, path)?;
    match counts_seen(view, path, node.as_ref())? {
        Some(seen) => Ok(Some(seen.counts.creates.unsigned_abs())),
        None => Ok(None),
    }
}

/// The creates that the view saw of a new node's parent, if it has one.
fn parent_creates(alloc: Global, view: &View, parent: &Option<Path>) -> Result<Option<u32>, Memory>
    requires { IfSome parent.now (λ q. IsTrue (is_path q)) }
    ensures { IfOk result (IsParentCreates view.now parent.now) }
{
    match parent {
        Some(parent) => creates_seen(alloc, view, parent),
        None => Ok(None),
    }
}

/// Adds the key of a sequence node's record, once its number was seen.
fn push_numbered(
    alloc: Global,
    keys: &mut Seq<Bytes>,
    path: &[u8],
    sequential: bool,
    creates: Option<u32>,
) -> Result<(), Memory>
    requires { IsTrue sequential → IsTrue (is_sequence_prefix path.now) }
    ensures { OnOk result (keys.new ≡ keys.old ++ map key_bytes (numbered sequential path.now creates)) }
{
    if !sequential {
        return Ok(());
    }
    let Some(creates) = creates else {
        return Ok(());
    };
    let path = Path::numbered(alloc, path, creates)?;
    keys.push(data_key(alloc, path.bytes())?)
}

/// Adds the keys of a new node and of its session.
fn push_own(
    alloc: Global,
    keys: &mut Seq<Bytes>,
    session: i64,
    path: &[u8],
    sequential: bool,
    ephemeral: bool,
    creates: Option<u32>,
) -> Result<(), Memory>
    requires real { pos 1 ≤ℤ session }
    requires short { IsFalse sequential → length path.now ≤ max_path }
    requires prefix { IsTrue sequential → IsTrue (is_sequence_prefix path.now) }
    ensures { OnOk result (keys.new ≡ with_own keys.old sequential ephemeral path.now session creates) }
{
    push_data(alloc, keys, path, sequential)?;
    push_session(alloc, keys, session, ephemeral)?;
    push_numbered(alloc, keys, path, sequential, creates)
}

/// The keys of a create below a parent, with that of a sequence node once the parent's count of creates was seen.
pub(crate) fn create_keys(
    alloc: Global,
    session: i64,
    path: &[u8],
    parent: &Path,
    sequential: bool,
    ephemeral: bool,
    creates: Option<u32>,
) -> Result<Seq<Bytes>, Memory>
    requires real { pos 1 ≤ℤ session }
    requires short { IsFalse sequential → length path.now ≤ max_path }
    requires parent { length parent.now ≤ max_path }
    requires prefix { IsTrue sequential → IsTrue (is_sequence_prefix path.now) }
    ensures { IfOk result (λ keys. keys ≡ map key_bytes (keys_of_create sequential ephemeral path.now (Some parent.now) session creates)) }
{
    let mut keys = start_keys(alloc, session)?;
    push_node(alloc, &mut keys, parent)?;
    push_own(
        alloc, &mut keys, session, path, sequential, ephemeral, creates,
    )?;
    Ok(keys)
}

/// The keys of a create of the root, which is there.
fn root_keys(
    alloc: Global,
    session: i64,
    path: &[u8],
    sequential: bool,
    ephemeral: bool,
    creates: Option<u32>,
) -> Result<Seq<Bytes>, Memory>
    requires real { pos 1 ≤ℤ session }
    requires short { IsFalse sequential → length path.now ≤ max_path }
    requires prefix { IsTrue sequential → IsTrue (is_sequence_prefix path.now) }
    ensures { IfOk result (λ keys. keys ≡ map key_bytes (keys_of_create sequential ephemeral path.now None session creates)) }
{
    let mut keys = start_keys(alloc, session)?;
    push_own(
        alloc, &mut keys, session, path, sequential, ephemeral, creates,
    )?;
    Ok(keys)
}

fn create_keys_of(
    alloc: Global,
    session: i64,
    path: &[u8],
    parent: &Option<Path>,
    sequential: bool,
    ephemeral: bool,
    creates: Option<u32>,
) -> Result<Seq<Bytes>, Memory>
    requires real { pos 1 ≤ℤ session }
    requires short { IsFalse sequential → length path.now ≤ max_path }
    requires parent { IfSome parent.now (λ q. length q ≤ max_path) }
    requires prefix { IsTrue sequential → IsTrue (is_sequence_prefix path.now) }
    ensures { IfOk result (λ keys. keys ≡ map key_bytes (keys_of_create sequential ephemeral path.now parent.now session creates)) }
{
    match parent {
        Some(parent) => create_keys(alloc, session, path, parent, sequential, ephemeral, creates),
        None => root_keys(alloc, session, path, sequential, ephemeral, creates),
    }
}

/// What a create of this path still has to look up.
pub(crate) fn create_wants(
    alloc: Global,
    view: &View,
    session: i64,
    path: &[u8],
    parent: &Option<Path>,
    sequential: bool,
    ephemeral: bool,
) -> Result<Seq<Want>, Memory>
    requires real { pos 1 ≤ℤ session }
    requires short { IsFalse sequential → length path.now ≤ max_path }
    requires parent { IfSome parent.now (λ q. length q ≤ max_path) }
    requires valid { IfSome parent.now (λ q. IsTrue (is_path q)) }
    requires prefix { IsTrue sequential → IsTrue (is_sequence_prefix path.now) }
    ensures { IfOk result (AreCreateWants view.now sequential ephemeral path.now parent.now session) }
{
    let creates = parent_creates(alloc, view, parent)?;
    view.lacking(create_keys_of(alloc, session, path, parent, sequential, ephemeral, creates)?)
}
