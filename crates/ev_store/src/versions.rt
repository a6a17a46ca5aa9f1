//! What each key had, revision by revision.

ghost use Rattle.std.specs.Prelude.{◌≡◌, ◌++◌, ◌∷◌, [], if◌then◌else◌, IfOk, OnOk, OnErr};
ghost use Rattle.ev_store.specs.Versions.{state_of, last_state, state_at, versions_of, AreInOrder, AddsChange, ShowsChange};
ghost use Rattle.zx_base.specs.Maps.{Bytes as ByteList, same};

use crate::change::Change;
use crate::key::{Found, after_change};
use crate::shared::Shared;
use std::alloc::Global;
use std::collections::BTreeMap;
use zx_base::{Bytes, Memory, Seq};

/// What a put left of a key, without the key. The value is that of the put's change.
#[derive(Drop)]
pub struct Kept {
    pub value: Shared,
    pub create_revision: i64,
    pub mod_revision: i64,
    pub version: i64,
    pub lease: i64,
}

/// What a revision left of one key; no content where it removed the key.
#[derive(Drop)]
pub struct Version {
    pub revision: usize,
    pub content: Option<Kept>,
}

/// Each key that was ever written, with its versions in the order of their revisions.
pub type Versions = BTreeMap<Bytes, Seq<Version>>;

/// The key as a version has it.
pub fn shown<'a>(key: &'a Bytes, version: &'a Version) -> Option<Found<'a>>
    ensures { result ≡ state_of key.now version.now }
{
    match &version.content {
        Some(kept) => Some(Found::of(key, kept)),
        None => None,
    }
}

/// The key as its last version has it.
fn last<'a>(key: &'a Bytes, versions: &'a [Version]) -> Option<Found<'a>>
    ensures { result ≡ last_state key.now versions.now }
{
    shown(key, versions.last()?)
}

/// The key as the last version up to this revision has it.
pub fn shown_at<'a>(key: &'a Bytes, versions: &'a [Version], revision: usize) -> Option<Found<'a>>
    requires { AreInOrder versions.now }
    ensures { result ≡ state_at key.now revision versions.now }
{
    let count = versions.partition_point(|version| version.revision <= revision);
    last(key, &versions[..count])
}

/// The key at this revision.
pub fn find_at<'a>(versions: &'a Versions, key: &'a Bytes, revision: usize) -> Option<Found<'a>>
    requires { AreInOrder (versions_of versions.now key.now) }
    ensures { result ≡ state_at key.now revision (versions_of versions.now key.now) }
{
    match versions.get(key) {
        Some(of_key) => shown_at(key, of_key.as_slice(), revision),
        None => None,
    }
}

/// The key as it was last written.
fn find_last<'a>(versions: &'a Versions, key: &'a Bytes) -> Option<Found<'a>>
    ensures { result ≡ last_state key.now (versions_of versions.now key.now) }
{
    match versions.get(key) {
        Some(of_key) => last(key, of_key.as_slice()),
        None => None,
    }
}

/// The version that a change of this revision makes.
fn next_version(
    versions: &Versions,
    revision: usize,
    number: i64,
    change: &Change,
) -> Result<Version, Memory>
    ensures revision { IfOk result (λ v. v.revision ≡ revision) }
    ensures state { IfOk result (λ v. ShowsChange number change.now versions.now v) }
{
    let before = find_last(versions, &change.key);
    let content = match after_change(number, before, change, change.key.as_slice()) {
        Some(found) => Some(found.kept()?),
        None => None,
    };
    Ok(Version { revision, content })
}

/// Adds a version of a key.
fn add_version(
    alloc: Global,
    versions: &mut Versions,
    key: &Bytes,
    version: Version,
) -> Result<(), Memory>
    ensures ok { OnOk result ((q : ByteList) → versions_of versions.new q ≡ (if same key.now q then versions_of versions.old q ++ version ∷ [] else versions_of versions.old q)) }
    ensures err { OnErr result ((q : ByteList) → versions_of versions.new q ≡ versions_of versions.old q) }
{
    if let Some(of_key) = versions.get_mut(key) {
        of_key.push(version)?;
        return Ok(());
    }
    let mut first = Seq::new(alloc);
    first.push(version)?;
    versions.insert(Bytes::copy_of(alloc, key.as_slice())?, first)?;
    Ok(())
}

/// Adds what a change of this revision makes of its key. Where memory runs out, each key has the versions that it had.
pub fn add_change(
    alloc: Global,
    versions: &mut Versions,
    revision: usize,
    number: i64,
    change: &Change,
) -> Result<(), Memory>
    ensures ok { OnOk result ((q : ByteList) → AddsChange revision number change.now q (versions_of versions.old q) (versions_of versions.new q)) }
    ensures err { OnErr result ((q : ByteList) → versions_of versions.new q ≡ versions_of versions.old q) }
{
    let version = next_version(versions, revision, number, change)?;
    add_version(alloc, versions, &change.key, version)
}
