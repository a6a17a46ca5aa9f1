//! The keys of a range, as the index has them.

ghost use Rattle.std.specs.Prelude.{◌≡◌, if◌then◌else◌, IfOk, OnOk, Option};
ghost use Rattle.std.specs.BTreeMap as tree;
ghost use Rattle.std.specs.List.{All};
ghost use Rattle.std.specs.Ordering.{nat_cmp};
ghost use Rattle.std.specs.Cmp.Lexicographic.{slice_cmp};
ghost use Rattle.ev_store.specs.Versions.{within_at, state_at, versions_of, taken, all_taken, AreInOrder};
ghost use Rattle.zx_base.specs.Maps.{Bytes as ByteList, same};

use crate::range::Held;
use crate::versions::{Version, Versions, find_at, shown_at};
use ev_types::{Name, RangeReq};
use std::alloc::Global;
use std::collections::BTreeMap;
use std::collections::btree_map::Range;
use std::ops::Bound;
use zx_base::{Bytes, Memory, Seq};

/// The keys of a range at this revision.
pub fn held_at<'a>(
    alloc: Global,
    versions: &'a Versions,
    range: &'a RangeReq,
    revision: usize,
) -> Result<Held<'a>, Memory>
    requires { (q : ByteList) → AreInOrder (versions_of versions.now q) }
    ensures { IfOk result (λ held. (q : ByteList) → tree.get (slice_cmp nat_cmp) held q ≡ within_at range.now revision q (versions_of versions.now q)) }
{
    // Proof only: the keys are in order.
    versions.len();
    if range.end.is(&[]) {
        return hold_one(alloc, versions, &range.key, revision);
    }
    if range.end.is(&[0]) {
        let from = versions.range((Bound::Included(&range.key), Bound::Unbounded));
        return hold_all(alloc, from, revision);
    }
    if !range.key.cmp(&range.end).is_lt() {
        return Ok(BTreeMap::new(alloc));
    }
    let between = versions.range((Bound::Included(&range.key), Bound::Excluded(&range.end)));
    hold_all(alloc, between, revision)
}

/// One key at this revision, if it is there.
fn hold_one<'a>(
    alloc: Global,
    versions: &'a Versions,
    key: &'a Bytes,
    revision: usize,
) -> Result<Held<'a>, Memory>
    requires { AreInOrder (versions_of versions.now key.now) }
    ensures { IfOk result (λ held. (q : ByteList) → tree.get (slice_cmp nat_cmp) held q ≡ (if same key.now q then state_at q revision (versions_of versions.now q) else Option.None)) }
{
    let mut held = BTreeMap::new(alloc);
    let Some(found) = find_at(versions, key, revision) else {
        return Ok(held);
    };
    let name = Name {
        bytes: key.as_slice(),
    };
    held.insert(name, found)?;
    Ok(held)
}

/// All of these keys that are there at this revision.
fn hold_all<'a>(
    alloc: Global,
    entries: Range<'a, Bytes, Seq<Version>>,
    revision: usize,
) -> Result<Held<'a>, Memory>
    requires { All (λ e. AreInOrder e.1) entries }
    ensures { IfOk result (λ held. (q : ByteList) → tree.get (slice_cmp nat_cmp) held q ≡ all_taken revision q Option.None entries.entry) }
{
    let mut held = BTreeMap::new(alloc);
    for (key, of_key) in entries {
        hold_at(&mut held, key, of_key, revision)?;
    }
    Ok(held)
}

/// Takes a key into what is held, where it is there at this revision.
pub fn hold_at<'a>(
    held: &mut Held<'a>,
    key: &'a Bytes,
    versions: &'a Seq<Version>,
    revision: usize,
) -> Result<(), Memory>
    requires { AreInOrder versions.now }
    ensures { OnOk result ((q : ByteList) → tree.get (slice_cmp nat_cmp) held.new q ≡ taken revision key.now versions.now q (tree.get (slice_cmp nat_cmp) held.old q)) }
{
    if let Some(found) = shown_at(key, versions.as_slice(), revision) {
        held.insert(
            Name {
                bytes: key.as_slice(),
            },
            found,
        )?;
    }
    Ok(())
}
