//! The revisions, with an index of their keys.

ghost use Rattle.std.specs.Prelude.{◌≡◌, ◌++◌, ◌∷◌, [], ◌≤◌, ◌<◌, length, take, true, IfOk, OnOk, OnErr, Option};
ghost use Rattle.std.specs.BTreeMap as tree;
ghost use Rattle.std.specs.Ordering.{nat_cmp};
ghost use Rattle.std.specs.Cmp.Lexicographic.{slice_cmp};
ghost use Rattle.ev_types.specs.Ranges.{is_within};
ghost use Rattle.ev_types.specs.Store.{max_revisions};
ghost use Rattle.ev_store.specs.Folds.{key_after_revisions, within_revisions};
ghost use Rattle.ev_store.specs.Leased.{with_lease};
ghost use Rattle.zx_base.specs.Maps.{Bytes as ByteList};

use crate::change::Change;
use crate::key::{Found, after_revisions};
use crate::leased::{LeasedKeys, held_named, name_lease};
use crate::range::{Held, held_after};
use crate::versions::{Versions, add_change, find_at};
use crate::within::held_at;
use ev_types::RangeReq;
use std::alloc::Global;
use std::collections::BTreeMap;
use std::marker::Model;
use zx_base::{Bytes, Memory, Seq};

/// The changes of each revision, and an index: each key's versions, and the keys that were put with each lease. The index may lag
/// behind the revisions where memory ran out: look-ups then read the revisions that it lacks one by one, and the next revision
/// goes on with them.
#[derive(Drop)]
pub struct History {
    revisions: Vec<Seq<Change>>,
    versions: Versions,
    leased: LeasedKeys,
    /// How many revisions the index has.
    indexed: usize,
    /// How many changes it has of the next one.
    begun: usize,
}

impl Model for History {
    ghost use Rattle.std.specs.Prelude.{◌≤◌, List, length};
    ghost use Rattle.ev_types.specs.Store.{Change, max_revisions};
    ghost use Rattle.ev_store.specs.Leased.{NamesLeased};
    ghost use Rattle.ev_store.specs.Versions.{IsIndexed, nth_changes};
    ghost use Rattle.zx_base.specs.Maps.{Bytes as ByteList};

    ghost Value = { List (List Change) };

    ghost view = { λ h. h.revisions.items };

    ghost invariant = { λ h. (length h.revisions.items ≤ max_revisions)
        × (h.indexed ≤ length h.revisions.items)
        × (h.begun ≤ length (nth_changes h.indexed h.revisions.items))
        × ((q : ByteList) → IsIndexed h.revisions.items h.indexed h.begun q h.versions)
        × NamesLeased h.leased h.versions };
}

impl History {
    /// One revision without a change.
    pub fn new(alloc: Global) -> Result<History, Memory>
        ensures { IfOk result (λ h. h ≡ [] ∷ []) }
    {
        let mut revisions = Vec::new(alloc);
        revisions.push(Seq::new(alloc))?;
        Ok(History {
            revisions,
            versions: BTreeMap::new(alloc),
            leased: BTreeMap::new(alloc),
            indexed: 0,
            begun: 0,
        })
    }

    /// The changes of each revision.
    pub fn revisions(&self) -> &[Seq<Change>]
        ensures all { result.now ≡ self.now }
        ensures short { length self.now ≤ max_revisions }
    {
        self.revisions.as_slice()
    }

    /// Adds a revision, and takes it into the index: in proportion to its changes, times the logarithm of the number of keys.
    pub fn push(&mut self, alloc: Global, changes: Seq<Change>) -> Result<(), Memory>
        requires { length self.old < max_revisions }
        ensures ok { OnOk result (self.new ≡ self.old ++ changes ∷ []) }
        ensures err { OnErr result (self.new ≡ self.old) }
    {
        self.revisions.push(changes)?;
        // The revision is there. Where memory runs out now, the index lags behind.
        let _ = self.catch_up(alloc);
        Ok(())
    }

    /// Takes all revisions into the index.
    fn catch_up(&mut self, alloc: Global) -> Result<(), Memory>
        ensures { self.new ≡ self.old }
    {
        for _ in self.indexed..self.revisions.len() {
            self.index_revision(alloc)?;
        }
        Ok(())
    }

    /// Takes the next revision into the index, if there is one.
    fn index_revision(&mut self, alloc: Global) -> Result<(), Memory>
        ensures { self.new ≡ self.old }
    {
        for _ in self.begun..self.next_len() {
            self.index_change(alloc)?;
        }
        self.end_revision();
        Ok(())
    }

    /// How many changes the next revision has.
    fn next_len(&self) -> usize {
        match self.revisions.get(self.indexed) {
            Some(changes) => changes.len(),
            None => 0,
        }
    }

    /// Goes on to the revision after the next one, where all changes of the next one were taken.
    fn end_revision(&mut self)
        ensures { self.new ≡ self.old }
    {
        let Some(changes) = self.revisions.get(self.indexed) else {
            return;
        };
        if self.begun >= changes.len() {
            self.indexed += 1;
            self.begun = 0;
        }
    }

    /// Takes the next change into the index, if its revision has one more.
    fn index_change(&mut self, alloc: Global) -> Result<(), Memory>
        ensures { self.new ≡ self.old }
    {
        let Some(changes) = self.revisions.get(self.indexed) else {
            return Ok(());
        };
        let Some(change) = changes.as_slice().get(self.begun) else {
            return Ok(());
        };
        name_lease(alloc, &mut self.leased, change)?;
        let revision = self.indexed + 1;
        add_change(alloc, &mut self.versions, revision, revision as i64, change)?;
        self.begun += 1;
        Ok(())
    }

    /// A key after the first so many revisions: in proportion to the logarithms of the numbers of keys and of its versions.
    pub fn find<'a>(&'a self, key: &'a Bytes, count: usize) -> Option<Found<'a>>
        requires { count ≤ length self.now }
        ensures { result ≡ key_after_revisions 1 key.now Option.None (take count self.now) }
    {
        let covered = self.indexed.min(count);
        let found = find_at(&self.versions, key, covered);
        after_revisions(
            covered,
            found,
            &self.revisions[covered..count],
            key.as_slice(),
        )
    }

    /// The keys of a range after the first so many revisions: in proportion to the keys of the range that were ever written, times
    /// a logarithm.
    pub fn held<'a>(
        &'a self,
        alloc: Global,
        range: &'a RangeReq,
        count: usize,
    ) -> Result<Held<'a>, Memory>
        requires { count ≤ length self.now }
        ensures { IfOk result (λ held. (q : ByteList) → tree.get (slice_cmp nat_cmp) held q ≡ within_revisions range.now 1 q Option.None (take count self.now)) }
    {
        let covered = self.indexed.min(count);
        let held = held_at(alloc, &self.versions, range, covered)?;
        held_after(held, covered, &self.revisions[covered..count], range)
    }

    /// Keys as they are now, among them all that have this lease: in proportion to the puts that named it, times a logarithm. It
    /// reads the range of all keys only where the index lags behind.
    pub fn leased<'a>(
        &'a self,
        alloc: Global,
        id: i64,
        all: &'a RangeReq,
    ) -> Result<Held<'a>, Memory>
        requires { (k : ByteList) → is_within all.now.key all.now.end k ≡ true }
        ensures { IfOk result (λ held. (q : ByteList) → with_lease id (tree.get (slice_cmp nat_cmp) held q) ≡ with_lease id (key_after_revisions 1 q Option.None self.now)) }
    {
        let count = self.revisions.len();
        if self.indexed < count {
            return self.held(alloc, all, count);
        }
        held_named(alloc, &self.versions, &self.leased, id, count)
    }
}
