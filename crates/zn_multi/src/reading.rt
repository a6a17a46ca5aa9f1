//! The keys that the parts of a multi read, as far as the view determines them.

ghost use Rattle.std.specs.Prelude.{◌≡◌, ◌≤◌, ◌<◌, ◌-◌, ◌≤ℤ◌, ◌++◌, ◌∷◌, ℤ, [], List as ListOf, Some, None, pos, length, map, IfOk, IfSome, IsFalse, IsTrue, OnOk, true};
ghost use Rattle.std.specs.List.{list_any};
ghost use Rattle.zk_model.specs.declared.request.Part.TheVariants as parts;
ghost use Rattle.zk_model.specs.Limits.{max_parts, max_path};
ghost use Rattle.zk_model.specs.Paths.{is_path, is_sequence_prefix, parent as parent_of};
ghost use Rattle.zx_base.specs.Maps.{Bytes as ByteList, same};
ghost use Rattle.zn_layout.specs.Keys.{Key as AnyKey, DataKey, key_bytes};
ghost use Rattle.zn_view.specs.Leaving.{node_path as path_of_node, CheckLeaves, SetLeaves};
ghost use Rattle.zn_view.specs.Views.{about_parent, about_path, counts_of_parent};
ghost use Rattle.zn_updates.specs.KeysRead.{start_keys as keys_of_each};
ghost use Rattle.zn_multi.specs.Reading.{each_new, sequence_data, with_new, AreCountsAbove, AreRead, IfLeft, IsCreateLeft, IsCreateRead, IsDeleteRead, IsPartRead};

use crate::creator::Creator;
use crate::leaving::{Left, check_leaves, counts_now, create_leaves, delete_leaves, set_leaves};
use std::alloc::Global;
use zk_model::flags::{is_ephemeral, is_sequential};
use zk_model::{Acl, Part, Path, read_path};
use zn_layout::{CountRec, counts_key, data_key};
use zn_updates::{
    Form, create_form, inner_path, owner_seen, push_data, push_node, push_owner, push_session,
    start_keys,
};
use zn_view::View;
use zx_base::{Bytes, Memory, Seq};

/// What a part reads, and what the parts up to this one leave.
#[derive(Drop)]
struct PartRead {
    keys: Seq<Bytes>,
    left: Left,
}

/// What a part reads whose form is refused: nothing. It is not carried out.
fn nothing_read(alloc: Global) -> PartRead
    ensures keys { result.keys ≡ [] }
    ensures left { result.left ≡ None }
{
    PartRead {
        keys: Seq::new(alloc),
        left: None,
    }
}

/// The path of a sequence node, once the creates of its parent are determined.
fn numbered(
    alloc: Global,
    path: &[u8],
    counts: Option<Option<CountRec>>,
) -> Result<Option<Path>, Memory>
    requires { IsTrue (is_sequence_prefix path.now) }
    ensures { IfOk result (λ node. node ≡ path_of_node true path.now counts) }
{
    match counts {
        Some(Some(counts)) => Ok(Some(Path::numbered(alloc, path, counts.creates.unsigned_abs())?)),
        Some(None) | None => Ok(None),
    }
}

/// The path of the node that a create makes.
fn node_path(
    alloc: Global,
    path: &[u8],
    named: Path,
    counts: Option<Option<CountRec>>,
    sequential: bool,
) -> Result<Option<Path>, Memory>
    requires prefix { IsTrue sequential → IsTrue (is_sequence_prefix path.now) }
    requires named { IsFalse sequential → named ≡ path.now }
    ensures { IfOk result (λ node. node ≡ path_of_node sequential path.now counts) }
{
    if !sequential {
        return Ok(Some(named));
    }
    numbered(alloc, path, counts)
}

/// The counts of a new node's parent on what the parts so far leave; none where that or a parent is not there.
fn counts_above(
    alloc: Global,
    view: &View,
    left: &Left,
    parent: &Option<Path>,
) -> Result<Option<Option<CountRec>>, Memory>
    requires parent { IfSome parent.now (λ q. IsTrue (is_path q)) }
    requires few { IfSome left.now (λ changes. length changes ≤ max_parts) }
    ensures { IfOk result (AreCountsAbove view.now left.now parent.now) }
{
    let Some(changes) = left else {
        return Ok(None);
    };
    let Some(parent) = parent else {
        return Ok(None);
    };
    counts_now(alloc, view, changes.as_slice(), parent)
}

/// What a create leaves.
fn create_left(
    alloc: Global,
    view: &View,
    left: Left,
    by: &Creator,
    parent: &Option<Path>,
    counts: Option<Option<CountRec>>,
    node: Option<Path>,
) -> Result<Left, Memory>
    requires real { pos 1 ≤ℤ by.now.session }
    requires parent { IfSome parent.now (λ q. IsTrue (is_path q)) }
    requires valid { IfSome node (λ p. IsTrue (is_path p)) }
    requires few { IfSome left (λ changes. length changes ≤ max_parts) }
    ensures { IfOk result (IsCreateLeft view.now left by.now.ephemeral by.now.session parent.now counts node) }
{
    let Some(changes) = left else {
        return Ok(None);
    };
    let Some(parent) = parent else {
        return Ok(None);
    };
    create_leaves(alloc, view, changes, by, parent, counts, node)
}

/// Adds the keys of a new node's parent. The root has none, and is there.
fn push_parent(alloc: Global, keys: &mut Seq<Bytes>, parent: &Option<Path>) -> Result<(), Memory>
    requires { IfSome parent.now (λ q. length q ≤ max_path) }
    ensures { OnOk result (keys.new ≡ keys.old ++ map key_bytes (about_parent parent.now)) }
{
    match parent {
        Some(parent) => push_node(alloc, keys, parent),
        None => Ok(()),
    }
}

/// Adds the key of a sequence node's record, once its path is determined.
fn push_sequence(
    alloc: Global,
    keys: &mut Seq<Bytes>,
    node: &Option<Path>,
    sequential: bool,
) -> Result<(), Memory>
    requires { IsTrue sequential → IfSome node.now (λ p. length p ≤ max_path) }
    ensures { OnOk result (keys.new ≡ keys.old ++ map key_bytes (sequence_data sequential node.now)) }
{
    if !sequential {
        return Ok(());
    }
    match node {
        Some(node) => keys.push(data_key(alloc, node.bytes())?),
        None => Ok(()),
    }
}

/// What a create reads.
fn read_named(
    alloc: Global,
    left: Left,
    path: &[u8],
    named: Path,
    sequential: bool,
    by: &Creator,
    view: &View,
) -> Result<PartRead, Memory>
    requires real { pos 1 ≤ℤ by.now.session }
    requires prefix { IsTrue sequential → IsTrue (is_sequence_prefix path.now) }
    requires named { IsFalse sequential → named ≡ path.now }
    requires few { IfSome left (λ changes. length changes ≤ max_parts) }
    ensures { IfOk result (λ r. (own : ListOf AnyKey) × (r.keys ≡ map key_bytes own) × IsCreateRead by.now.session view.now left path.now sequential by.now.ephemeral (parent_of named) own r.left) }
{
    let parent = named.parent(alloc)?;
    let mut keys = Seq::new(alloc);
    push_parent(alloc, &mut keys, &parent)?;
    push_data(alloc, &mut keys, path, sequential)?;
    push_session(alloc, &mut keys, by.session, by.ephemeral)?;
    let counts = counts_above(alloc, view, &left, &parent)?;
    let node = node_path(alloc, path, named, counts, sequential)?;
    push_sequence(alloc, &mut keys, &node, sequential)?;
    let left = create_left(alloc, view, left, by, &parent, counts, node)?;
    Ok(PartRead { keys, left })
}

fn read_create(
    alloc: Global,
    left: Left,
    path: &[u8],
    acl: &[Acl],
    flags: i32,
    session: i64,
    view: &View,
) -> Result<PartRead, Memory>
    requires real { pos 1 ≤ℤ session }
    requires few { IfSome left (λ changes. length changes ≤ max_parts) }
    ensures { IfOk result (λ r. (content : ByteList) → IsPartRead session view.now left (parts.Create path.now content acl.now flags) r) }
{
    match create_form(alloc, path, acl, flags)? {
        Form::Valid(named) => {
            let by = Creator {
                session,
                ephemeral: is_ephemeral(flags),
            };
            read_named(alloc, left, path, named, is_sequential(flags), &by, view)
        }
        Form::Refused(_) => Ok(nothing_read(alloc)),
    }
}

/// Adds the key of the counts of a node's parent, if it has one.
fn push_counts_above(alloc: Global, keys: &mut Seq<Bytes>, path: &Path) -> Result<(), Memory>
    requires { length path.now ≤ max_path }
    ensures { OnOk result (keys.new ≡ keys.old ++ map key_bytes (counts_of_parent (parent_of path.now))) }
{
    match path.parent(alloc)? {
        Some(parent) => keys.push(counts_key(alloc, parent.bytes())?),
        None => Ok(()),
    }
}

/// What a delete of a valid path reads.
fn read_removal(
    alloc: Global,
    left: Left,
    path: Path,
    version: i32,
    view: &View,
) -> Result<PartRead, Memory>
    requires valid { IsTrue (is_path path) }
    requires short { length path ≤ max_path }
    requires few { IfSome left (λ changes. length changes ≤ max_parts) }
    ensures { IfOk result (λ r. (own : ListOf AnyKey) × (r.keys ≡ map key_bytes own) × IsDeleteRead view.now left path version own r.left) }
{
    let mut keys = Seq::new(alloc);
    push_node(alloc, &mut keys, &path)?;
    push_counts_above(alloc, &mut keys, &path)?;
    push_owner(alloc, &mut keys, owner_seen(alloc, view, &path)?)?;
    let left = delete_leaves(alloc, view, left, path, version)?;
    Ok(PartRead { keys, left })
}

fn read_delete(
    alloc: Global,
    left: Left,
    path: &[u8],
    version: i32,
    view: &View,
) -> Result<PartRead, Memory>
    requires few { IfSome left (λ changes. length changes ≤ max_parts) }
    ensures { IfOk result (λ r. (id : ℤ) → IsPartRead id view.now left (parts.Delete path.now version) r) }
{
    match inner_path(alloc, path)? {
        Some(path) => read_removal(alloc, left, path, version, view),
        None => Ok(nothing_read(alloc)),
    }
}

/// What a setData of a valid path reads: the node's record and counts.
fn read_node(
    alloc: Global,
    left: Left,
    path: Path,
    version: i32,
    view: &View,
) -> Result<PartRead, Memory>
    requires valid { IsTrue (is_path path) }
    requires short { length path ≤ max_path }
    requires few { IfSome left (λ changes. length changes ≤ max_parts) }
    ensures { IfOk result (λ r. (r.keys ≡ map key_bytes (about_path path)) × IfLeft left (λ changes next. SetLeaves view.now changes path version next) r.left) }
{
    let mut keys = Seq::new(alloc);
    push_node(alloc, &mut keys, &path)?;
    let left = set_leaves(alloc, view, left, path, version)?;
    Ok(PartRead { keys, left })
}

fn read_set(
    alloc: Global,
    left: Left,
    path: &[u8],
    version: i32,
    view: &View,
) -> Result<PartRead, Memory>
    requires few { IfSome left (λ changes. length changes ≤ max_parts) }
    ensures { IfOk result (λ r. (id : ℤ) (content : ByteList) → IsPartRead id view.now left (parts.SetData path.now content version) r) }
{
    match read_path(alloc, path, false)? {
        Some(path) => read_node(alloc, left, path, version, view),
        None => Ok(nothing_read(alloc)),
    }
}

/// What a check of a valid path reads: the node's record.
fn read_data(
    alloc: Global,
    left: Left,
    path: &Path,
    version: i32,
    view: &View,
) -> Result<PartRead, Memory>
    requires valid { IsTrue (is_path path.now) }
    requires short { length path.now ≤ max_path }
    requires few { IfSome left (λ changes. length changes ≤ max_parts) }
    ensures { IfOk result (λ r. (r.keys ≡ map key_bytes (DataKey path.now ∷ [])) × IfLeft left (λ changes next. CheckLeaves view.now changes path.now version next) r.left) }
{
    let mut keys = Seq::new(alloc);
    keys.push(data_key(alloc, path.bytes())?)?;
    let left = check_leaves(alloc, view, left, path, version)?;
    Ok(PartRead { keys, left })
}

fn read_check(
    alloc: Global,
    left: Left,
    path: &[u8],
    version: i32,
    view: &View,
) -> Result<PartRead, Memory>
    requires few { IfSome left (λ changes. length changes ≤ max_parts) }
    ensures { IfOk result (λ r. (id : ℤ) → IsPartRead id view.now left (parts.Check path.now version) r) }
{
    match read_path(alloc, path, false)? {
        Some(path) => read_data(alloc, left, &path, version, view),
        None => Ok(nothing_read(alloc)),
    }
}

/// What a part reads, and what it leaves of what the parts before it left.
fn read_part(
    alloc: Global,
    left: Left,
    part: &Part,
    session: i64,
    view: &View,
) -> Result<PartRead, Memory>
    requires real { pos 1 ≤ℤ session }
    requires few { IfSome left (λ changes. length changes ≤ max_parts) }
    ensures { IfOk result (IsPartRead session view.now left part.now) }
{
    match part {
        Part::Create {
            path,
            acl,
            flags,
            ..
        } => read_create(
            alloc,
            left,
            path.as_slice(),
            acl.as_slice(),
            *flags,
            session,
            view,
        ),
        Part::Delete { path, version } => {
            read_delete(alloc, left, path.as_slice(), *version, view)
        }
        Part::SetData { path, version, .. } => {
            read_set(alloc, left, path.as_slice(), *version, view)
        }
        Part::Check { path, version } => {
            read_check(alloc, left, path.as_slice(), *version, view)
        }
    }
}

/// Adds keys after others.
fn push_all(keys: &mut Seq<Bytes>, more: Seq<Bytes>) -> Result<(), Memory>
    ensures { OnOk result (keys.new ≡ keys.old ++ more) }
{
    for key in more.into_vec() {
        keys.push(key)?;
    }
    Ok(())
}

/// The keys that a multi reads: the head, the record of the session's life, and those that its parts read in turn.
pub(crate) fn keys_read(
    alloc: Global,
    parts: &[Part],
    session: i64,
    view: &View,
) -> Result<Seq<Bytes>, Memory>
    requires real { pos 1 ≤ℤ session }
    requires few { length parts.now ≤ max_parts }
    ensures { IfOk result (λ keys. (ks : ListOf AnyKey) × AreRead session view.now parts.now ks × (keys ≡ map key_bytes (keys_of_each session ++ ks))) }
{
    let mut keys = start_keys(alloc, session)?;
    let mut left = Some(Seq::new(alloc));
    for part in parts {
        let PartRead {
            keys: own,
            left: next,
        } = read_part(alloc, left, part, session, view)?;
        push_all(&mut keys, own)?;
        left = next;
    }
    Ok(keys)
}

/// Whether a key stands among these.
fn is_among(keys: &[Bytes], key: &Bytes) -> bool
    ensures { result ≡ list_any (λ k. same k key.now) keys.now }
{
    keys.iter().any(|other| other.is(key.as_slice()))
}

/// Adds a key, unless it stands among these.
fn push_new(keys: &mut Seq<Bytes>, key: Bytes) -> Result<(), Memory>
    ensures { OnOk result (keys.new ≡ with_new keys.old key) }
{
    if is_among(keys.as_slice(), &key) {
        return Ok(());
    }
    keys.push(key)
}

/// Each of these keys once.
pub(crate) fn each_once(alloc: Global, keys: Seq<Bytes>) -> Result<Seq<Bytes>, Memory>
    ensures { IfOk result (λ once. once ≡ each_new keys) }
{
    let mut once = Seq::new(alloc);
    for key in keys.into_vec() {
        push_new(&mut once, key)?;
    }
    Ok(once)
}
