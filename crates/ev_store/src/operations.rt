//! The operations of a transaction, over the changes that the earlier ones of its list made.

ghost use Rattle.std.specs.Prelude.{◌≡◌, ◌+ℤ◌, ◌++◌, ◌∷◌, [], pos, nat_abs, true, false, is_some, take, length, ◌≤◌, List, IfOk, OnOk, Option};
ghost use Rattle.std.specs.List.{list_all};
ghost use Rattle.std.specs.FinMap.{get};
ghost use Rattle.std.specs.Ordering.{int_eq};
ghost use Rattle.ev_types.specs.Store as etcd;
ghost use Rattle.ev_types.specs.Ranges.{found};
ghost use Rattle.ev_types.specs.Denials.{writes_twice};
ghost use Rattle.ev_store.specs.Changes.{puts_once};

use crate::change::{Change, Content};
use crate::key::{Found, after_changes};
use crate::range::look;
use crate::shared::Shared;
use crate::store::Store;
use ev_types::{Act, ActAns, Guard, RangeAns, RangeReq};
use std::alloc::Global;
use zx_base::{Bytes, Memory, Seq};

impl Store {
    /// The number of the revision that a transaction would make.
    fn next_revision(&self) -> i64
        ensures { result ≡ (etcd.revision self.now +ℤ pos 1) }
    {
        self.history().revisions().len() as i64 + 1
    }

    /// Whether a key is there after some changes of the next revision.
    fn has_key(&self, changes: &[Change], key: &Bytes) -> bool
        requires { puts_once changes.now ≡ true }
        ensures { result ≡ is_some (get (etcd.after_changes (etcd.revision self.now +ℤ pos 1) (etcd.present self.now) changes.now) key.now) }
    {
        let history = self.history();
        let before = history.find(key, history.revisions().len());
        after_changes(self.next_revision(), before, changes, key.as_slice()).is_some()
    }

    /// Whether the guard's key has the guard's revision.
    fn holds(&self, guard: &Guard) -> bool
        ensures { result ≡ etcd.holds (etcd.present self.now) guard.now }
    {
        let history = self.history();
        let found = history.find(&guard.key, history.revisions().len());
        is_at(&found, guard.mod_revision)
    }

    /// Whether all guards hold.
    pub(crate) fn all_hold(&self, guards: &[Guard]) -> bool
        ensures { result ≡ list_all (etcd.holds (etcd.present self.now)) guards.now }
    {
        guards.iter().all(|guard| self.holds(guard))
    }

    /// What a range finds after some changes of the next revision, or at the revision that it names.
    pub(crate) fn find(&self, changes: &[Change], range: &RangeReq) -> Result<RangeAns, Memory>
        requires { puts_once changes.now ≡ true }
        ensures { IfOk result (λ a. a ≡ found range.now (etcd.looked_at self.now (etcd.after_changes (etcd.revision self.now +ℤ pos 1) (etcd.present self.now) changes.now) range.now.revision)) }
    {
        let history = self.history();
        let all = history.revisions().len();
        if is_present(range.revision) {
            look(self.alloc(), history, all, changes, range)
        } else {
            look(
                self.alloc(),
                history,
                first(all, range.revision),
                &[],
                range,
            )
        }
    }

    /// Carries out one operation after the changes of the earlier ones.
    fn act(&self, changes: &mut Seq<Change>, act: &Act) -> Result<ActAns, Memory>
        requires { puts_once changes.old ≡ true }
        ensures part { IfOk result (λ a. (etcd.one_act self.now (etcd.after_changes (etcd.revision self.now +ℤ pos 1) (etcd.present self.now) changes.old) act.now).parts ≡ a ∷ []) }
        ensures changes { OnOk result (changes.new ≡ changes.old ++ (etcd.one_act self.now (etcd.after_changes (etcd.revision self.now +ℤ pos 1) (etcd.present self.now) changes.old) act.now).changes) }
    {
        match act {
            Act::Put { key, value, lease } => {
                changes.push(put(self.alloc(), key.as_slice(), value.as_slice(), *lease)?)?;
                Ok(ActAns::Put)
            }
            Act::Delete { key } => {
                if !self.has_key(changes.as_slice(), key) {
                    return Ok(ActAns::Deleted(0));
                }
                changes.push(removal(self.alloc(), key.as_slice())?)?;
                Ok(ActAns::Deleted(1))
            }
            Act::Range(range) => Ok(ActAns::Range(self.find(changes.as_slice(), range)?)),
        }
    }

    /// Carries out the operations of a list in order: what they change, and what they answer.
    pub(crate) fn work(&self, acts: &[Act]) -> Result<(Seq<Change>, Seq<ActAns>), Memory>
        requires { writes_twice acts.now ≡ false }
        ensures changes { IfOk result (λ w. w.0 ≡ (etcd.worked self.now acts.now).changes) }
        ensures parts { IfOk result (λ w. w.1 ≡ (etcd.worked self.now acts.now).parts) }
        ensures once { IfOk result (λ w. puts_once w.0 ≡ true) }
    {
        let mut changes = Seq::new(self.alloc());
        let mut parts = Seq::new(self.alloc());
        for act in acts {
            let part = self.act(&mut changes, act)?;
            parts.push(part)?;
        }
        Ok((changes, parts))
    }
}

/// Whether a key's last put was at this revision, which is 0 for a key that is not there.
fn is_at(found: &Option<Found<'_>>, revision: i64) -> bool
    ensures { result ≡ int_eq (etcd.mod_of found.now) revision }
{
    mod_of(found) == revision
}

/// The revision of a key's last put, or 0.
fn mod_of(found: &Option<Found<'_>>) -> i64
    ensures { result ≡ etcd.mod_of found.now }
{
    match found {
        Some(found) => found.mod_revision(),
        None => 0,
    }
}

/// Whether a range that names this revision is read at the present.
fn is_present(revision: i64) -> bool
    ensures { result ≡ int_eq revision (pos 0) }
{
    revision == 0
}

/// So many revisions, or all where there are fewer.
fn first(all: usize, revision: i64) -> usize
    ensures most { result ≤ all }
    ensures first { (css : List (List etcd.Change)) → length css ≡ all → take result css ≡ take (nat_abs revision) css }
{
    let count = revision.unsigned_abs() as usize;
    count.min(all)
}

/// The change that puts a key; lease 0 is none. Copies the key, and the value once.
pub(crate) fn put(alloc: Global, key: &[u8], value: &[u8], lease: i64) -> Result<Change, Memory>
    ensures { IfOk result (λ c. c ≡ etcd.Puts key.now value.now lease) }
{
    let value = Shared::copy_of(alloc, value)?;
    Ok(Change {
        key: Bytes::copy_of(alloc, key)?,
        content: Some(Content { value, lease }),
    })
}

/// The change that removes a key. Copies the key.
pub(crate) fn removal(alloc: Global, key: &[u8]) -> Result<Change, Memory>
    ensures { IfOk result (λ c. c ≡ etcd.Removes key.now) }
{
    Ok(Change {
        key: Bytes::copy_of(alloc, key)?,
        content: None,
    })
}
