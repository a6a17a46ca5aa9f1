//! Which keys were put with each lease.

ghost use Rattle.std.specs.Prelude.{◌≡◌, true, IfOk, OnOk, Option};
ghost use Rattle.std.specs.BTreeMap as tree;
ghost use Rattle.std.specs.Ordering.{nat_cmp};
ghost use Rattle.std.specs.Cmp.Lexicographic.{slice_cmp};
ghost use Rattle.ev_types.specs.Store as etcd;
ghost use Rattle.ev_store.specs.Leased.{named_with, names, all_held, KeepsNames, NamesChange};
ghost use Rattle.ev_store.specs.Versions.{taken, versions_of, AreInOrder};
ghost use Rattle.zx_base.specs.Maps.{Bytes as ByteList};

use crate::change::{Change, Content};
use crate::range::Held;
use crate::versions::Versions;
use crate::within::hold_at;
use std::alloc::Global;
use std::collections::BTreeMap;
use zx_base::{Bytes, Memory, Seq};

/// The key of each put that named a lease, by the lease's number. A key that lost the lease later still stands here.
pub type LeasedKeys = BTreeMap<i64, Seq<Bytes>>;

/// Adds a key to those of a lease. Copies the key.
fn name_key(alloc: Global, leased: &mut LeasedKeys, id: i64, key: &Bytes) -> Result<(), Memory>
    ensures kept { KeepsNames leased.old leased.new }
    ensures named { OnOk result (names (named_with leased.new id) key.now ≡ true) }
{
    let key = Bytes::copy_of(alloc, key.as_slice())?;
    if let Some(keys) = leased.get_mut(&id) {
        keys.push(key)?;
        return Ok(());
    }
    let mut keys = Seq::new(alloc);
    keys.push(key)?;
    leased.insert(id, keys)?;
    Ok(())
}

/// Adds the key of a put to those of its lease, if it has one.
fn name_put(
    alloc: Global,
    leased: &mut LeasedKeys,
    key: &Bytes,
    content: &Content,
) -> Result<(), Memory>
    ensures kept { KeepsNames leased.old leased.new }
    ensures named { OnOk result (NamesChange leased.new (etcd.Puts key.now content.now.value content.now.lease)) }
{
    if content.lease == 0 {
        return Ok(());
    }
    name_key(alloc, leased, content.lease, key)
}

/// Adds the key of a change to those of the lease that it names, if it names one.
pub fn name_lease(alloc: Global, leased: &mut LeasedKeys, change: &Change) -> Result<(), Memory>
    ensures kept { KeepsNames leased.old leased.new }
    ensures named { OnOk result (NamesChange leased.new change.now) }
{
    match &change.content {
        Some(content) => name_put(alloc, leased, &change.key, content),
        None => Ok(()),
    }
}

/// Takes a key into what is held, where it is there at this revision.
fn hold_key<'a>(
    held: &mut Held<'a>,
    versions: &'a Versions,
    key: &'a Bytes,
    revision: usize,
) -> Result<(), Memory>
    requires { AreInOrder (versions_of versions.now key.now) }
    ensures { OnOk result ((q : ByteList) → tree.get (slice_cmp nat_cmp) held.new q ≡ taken revision key.now (versions_of versions.now key.now) q (tree.get (slice_cmp nat_cmp) held.old q)) }
{
    match versions.get(key) {
        Some(of_key) => hold_at(held, key, of_key, revision),
        None => Ok(()),
    }
}

/// Those of these keys that are there at this revision.
fn held_among<'a>(
    alloc: Global,
    versions: &'a Versions,
    keys: &'a [Bytes],
    revision: usize,
) -> Result<Held<'a>, Memory>
    requires { (q : ByteList) → AreInOrder (versions_of versions.now q) }
    ensures { IfOk result (λ held. (q : ByteList) → tree.get (slice_cmp nat_cmp) held q ≡ all_held revision versions.now q Option.None keys.now) }
{
    let mut held = BTreeMap::new(alloc);
    for key in keys {
        hold_key(&mut held, versions, key, revision)?;
    }
    Ok(held)
}

/// The keys that were put with a lease, where they are there at this revision.
pub fn held_named<'a>(
    alloc: Global,
    versions: &'a Versions,
    leased: &'a LeasedKeys,
    id: i64,
    revision: usize,
) -> Result<Held<'a>, Memory>
    requires { (q : ByteList) → AreInOrder (versions_of versions.now q) }
    ensures { IfOk result (λ held. (q : ByteList) → tree.get (slice_cmp nat_cmp) held q ≡ all_held revision versions.now q Option.None (named_with leased.now id)) }
{
    match leased.get(&id) {
        Some(keys) => held_among(alloc, versions, keys.as_slice(), revision),
        None => Ok(BTreeMap::new(alloc)),
    }
}
