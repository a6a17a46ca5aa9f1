//! Ranges: the keys between two, in the order of their bytes.

ghost use Rattle.std.specs.Prelude.{◌≡◌, ◌<◌, ◌≤◌, ◌<ℤ◌, ◌≤ℤ◌, ◌^◌, ◌+◌, pos, true, List, [], length, map, take, vec_capacity, IfOk, OnOk};
ghost use Rattle.std.specs.BTreeMap as tree;
ghost use Rattle.std.specs.FinMap.{empty};
ghost use Rattle.std.specs.List.{list_all};
ghost use Rattle.std.specs.Ordering.{nat_cmp};
ghost use Rattle.std.specs.Cmp.Lexicographic.{slice_cmp};
ghost use Rattle.ev_types.specs.declared.answer.Kv.{Kv};
ghost use Rattle.ev_types.specs.Ranges.{is_below, is_within, shown, limited, found, found_among};
ghost use Rattle.ev_types.specs.Store.{keys_from, after_changes as keys_after_changes};
ghost use Rattle.ev_store.specs.Changes.{puts_once};
ghost use Rattle.ev_store.specs.Folds.{within_change, within_changes, within_revisions};
ghost use Rattle.zx_base.specs.Maps.{Bytes as ByteList};

use crate::change::Change;
use crate::history::History;
use crate::key::{Found, after_put};
use ev_types::{Kv, Name, RangeAns, RangeReq};
use std::alloc::Global;
use std::collections::BTreeMap;
use zx_base::{Bytes, Memory, Seq};

/// The keys that are there and lie in a range.
pub type Held<'a> = BTreeMap<Name<'a>, Found<'a>>;

/// Whether a key is below the end of a range; the one byte 0 is no end.
fn is_below(end: &Bytes, key: &[u8]) -> bool
    ensures { result ≡ is_below end.now key.now }
{
    end.is(&[0]) || key.cmp(end.as_slice()).is_lt()
}

/// Whether a key is in the range.
#[tactic(auto, unfolding(ev_types::specs::Ranges::is_within))]
fn has(range: &RangeReq, key: &[u8]) -> bool
    ensures { result ≡ is_within range.now.key range.now.end key.now }
{
    if range.end.is(&[]) {
        range.key.is(key)
    } else {
        !key.cmp(range.key.as_slice()).is_lt() && is_below(&range.end, key)
    }
}

/// The range of all keys.
pub fn all_keys(alloc: Global) -> Result<RangeReq, Memory>
    ensures { IfOk result (λ range. (k : ByteList) → is_within range.key range.end k ≡ true) }
{
    let mut end = Seq::new(alloc);
    end.push(0)?;
    Ok(RangeReq {
        key: Seq::new(alloc),
        end,
        revision: 0,
        limit: 0,
        keys_only: false,
    })
}

/// Takes one change into what is held of the range.
fn hold<'a>(
    held: &mut Held<'a>,
    range: &RangeReq,
    revision: i64,
    change: &'a Change,
) -> Result<(), Memory>
    ensures { OnOk result ((q : ByteList) → tree.get (slice_cmp nat_cmp) held.new q ≡ within_change range.now revision q (tree.get (slice_cmp nat_cmp) held.old q) change.now) }
{
    if !has(range, change.key.as_slice()) {
        return Ok(());
    }
    let name = Name {
        bytes: change.key.as_slice(),
    };
    match &change.content {
        Some(content) => {
            let found = after_put(revision, held.get(&name), &change.key, content);
            held.insert(name, found)?;
        }
        None => {
            held.remove(&name);
        }
    }
    Ok(())
}

/// Takes the changes of one revision into what is held of the range.
fn hold_changes<'a>(
    held: &mut Held<'a>,
    range: &RangeReq,
    revision: i64,
    changes: &'a [Change],
) -> Result<(), Memory>
    ensures { OnOk result ((q : ByteList) → tree.get (slice_cmp nat_cmp) held.new q ≡ within_changes range.now revision q (tree.get (slice_cmp nat_cmp) held.old q) changes.now) }
{
    for change in changes {
        hold(held, range, revision, change)?;
    }
    Ok(())
}

/// The keys of the range after further revisions. `before` is the number of revisions before them.
pub fn held_after<'a>(
    held: Held<'a>,
    before: usize,
    revisions: &'a [Seq<Change>],
    range: &RangeReq,
) -> Result<Held<'a>, Memory>
    requires { before + length revisions.now < 2 ^ 62 }
    ensures { IfOk result (λ after. (q : ByteList) → tree.get (slice_cmp nat_cmp) after q ≡ within_revisions range.now (before + 1) q (tree.get (slice_cmp nat_cmp) held.entry q) revisions.now) }
{
    let mut held = held;
    for (index, changes) in revisions.iter().enumerate() {
        hold_changes(
            &mut held,
            range,
            (before + index) as i64 + 1,
            changes.as_slice(),
        )?;
    }
    Ok(held)
}

/// How many of `all` keys are shown under this limit.
fn shown_count(limit: i64, all: usize) -> usize
    ensures first { (kvs : List Kv) → length kvs ≡ all → take result kvs ≡ limited limit kvs }
    ensures most { result ≤ all }
    ensures few { pos 0 <ℤ limit → pos result ≤ℤ limit }
{
    if limit > 0 {
        all.min(limit as usize)
    } else {
        all
    }
}

/// Room for so many keys, and for no more.
fn room(alloc: Global, count: usize) -> Result<Vec<Kv>, Memory>
    ensures empty { IfOk result (λ v. v.items ≡ []) }
    ensures exact { IfOk result (λ v. vec_capacity v ≡ count) }
{
    Ok(Vec::with_capacity(alloc, count)?)
}

/// Copies of the first so many keys.
fn copies(alloc: Global, held: &Held<'_>, most: usize, keys_only: bool) -> Result<Seq<Kv>, Memory>
    ensures { IfOk result (λ kvs. kvs ≡ map (shown keys_only) (take most (tree.values held.now))) }
{
    let mut kvs = Seq::from_vec(room(alloc, most)?);
    let mut left = most;
    for found in held.values() {
        if left == 0 {
            break;
        }
        kvs.push(found.to_kv(alloc, keys_only)?)?;
        left -= 1;
    }
    Ok(kvs)
}

/// What a range answers that has these keys.
fn answer(alloc: Global, held: &Held<'_>, range: &RangeReq) -> Result<RangeAns, Memory>
    ensures found { IfOk result (λ a. a ≡ found_among range.now (tree.values held.now)) }
    ensures in_order { tree.IsOrdered (slice_cmp nat_cmp) held.now }
{
    let all = held.len();
    let most = shown_count(range.limit, all);
    Ok(RangeAns {
        kvs: copies(alloc, held, most, range.keys_only)?,
        more: most < all,
        count: all as i64,
    })
}

/// What a range finds in these revisions, of which it reads the first `count`, and in some changes of the next one.
pub fn look(
    alloc: Global,
    history: &History,
    count: usize,
    changes: &[Change],
    range: &RangeReq,
) -> Result<RangeAns, Memory>
    requires within { count ≤ length history.now }
    requires short { length history.now < 2 ^ 62 }
    requires once { list_all puts_once history.now ≡ true }
    requires next_once { puts_once changes.now ≡ true }
    ensures { IfOk result (λ a. a ≡ found range.now (keys_after_changes (pos (count + 1)) (keys_from 1 empty (take count history.now)) changes.now)) }
{
    let mut held = history.held(alloc, range, count)?;
    hold_changes(&mut held, range, count as i64 + 1, changes)?;
    answer(alloc, &held, range)
}
