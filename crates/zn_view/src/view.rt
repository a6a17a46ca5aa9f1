//! Views: what some keys had at one revision of an etcd.

ghost use Rattle.std.specs.Prelude.{◌≡◌, [], ◌≤◌, ◌+◌, ◌∷◌, ◌++◌, length, take, drop, All, OnOk, OnErr};
ghost use Rattle.zn_view.specs.declared.snapshot.SeenKey.{SeenKey as AnySeen};
ghost use Rattle.zn_view.specs.Adding.{is_new, with_key, with_list, first_of};
ghost use Rattle.zn_view.specs.Laying.{placed, with_laid};
ghost use Rattle.zn_view.specs.Seen.{empty_view, IsCountNumber, IsSeen};

use crate::snapshot::{SeenChildren, SeenKey};
use std::alloc::Global;
use std::marker::Model;
use zx_base::{Memory, Seq};

/// What some keys had at one revision. Every value is a record of its key's kind.
#[derive(Drop)]
pub struct View {
    /// 0 where nothing was looked up yet.
    revision: i64,
    keys: Vec<SeenKey>,
    lists: Vec<SeenChildren>,
    alloc: Global,
}

impl Model for View {
    ghost use Rattle.std.specs.Prelude.{All};
    ghost use Rattle.zn_view.specs.declared.snapshot.Snapshot.{Snapshot};
    ghost use Rattle.zn_view.specs.Seen.{IsCountNumber, IsSeen};

    ghost Value = { Snapshot };

    ghost view = { λ v. record {
      revision = v.revision;
      keys = v.keys.items;
      lists = v.lists.items;
    } };

    ghost invariant = { λ v. IsCountNumber v.revision × All IsSeen v.keys.items };
}

/// The first place at which this key stands; where it is not there, the number of keys.
fn place_of(keys: &[SeenKey], key: &[u8]) -> usize
    ensures is { (x : AnySeen) → x.key ≡ key.now → placed x keys.now ≡ take result keys.now ++ x ∷ drop (result + 1) keys.now }
    ensures within { result ≤ length keys.now }
{
    let mut place = 0;
    while place < keys.len() && !keys[place].key.is(key) {
        place += 1;
    }
    place
}

/// Puts a key in the place where it stands, or after the others. Without memory the keys are as they were.
pub(crate) fn lay_in(keys: &mut Vec<SeenKey>, seen: SeenKey) -> Result<(), Memory>
    ensures ok { OnOk result (keys.new.items ≡ placed seen keys.old.items) }
    ensures err { OnErr result (keys.new.items ≡ keys.old.items) }
    ensures kept { IsSeen seen → All IsSeen keys.old.items → All IsSeen keys.new.items }
{
    let place = place_of(keys, seen.key.as_slice());
    if place < keys.len() {
        keys[place] = seen;
        return Ok(());
    }
    keys.push(seen)?;
    Ok(())
}

/// A view of these keys, without lists of children.
pub(crate) fn viewed_at(alloc: Global, revision: i64, keys: Vec<SeenKey>) -> View
    requires revision { IsCountNumber revision }
    requires kept { All IsSeen keys.items }
    ensures { result ≡ record { revision = revision; keys = keys.items; lists = [] } }
{
    View {
        revision,
        keys,
        lists: Vec::new(alloc),
        alloc,
    }
}

impl View {
    /// A view that saw nothing yet.
    pub fn empty(alloc: Global) -> View
        ensures { result ≡ empty_view }
    {
        View {
            revision: 0,
            keys: Vec::new(alloc),
            lists: Vec::new(alloc),
            alloc,
        }
    }

    /// The revision that the view is of, 0 where nothing was looked up yet.
    pub fn revision(&self) -> i64
        ensures { result ≡ self.now.revision }
    {
        self.revision
    }

    pub(crate) fn counted_revision(&self) -> i64
        ensures is { result ≡ self.now.revision }
        ensures count { IsCountNumber result }
    {
        self.revision
    }

    pub(crate) fn allocator(&self) -> Global {
        self.alloc
    }

    pub(crate) fn keys(&self) -> &[SeenKey]
        ensures is { result.now ≡ self.now.keys }
        ensures kept { All IsSeen result.now }
    {
        self.keys.as_slice()
    }

    pub(crate) fn lists(&self) -> &[SeenChildren]
        ensures { result.now ≡ self.now.lists }
    {
        self.lists.as_slice()
    }

    /// Adds a key after the others. Without memory the view is as it was.
    pub(crate) fn push_key(&mut self, seen: SeenKey) -> Result<(), Memory>
        requires { IsSeen seen }
        ensures ok { OnOk result (self.new ≡ with_key self.old seen) }
        ensures err { OnErr result (self.new ≡ self.old) }
    {
        self.keys.push(seen)?;
        Ok(())
    }

    /// Adds a list after the others. Without memory the view is as it was.
    pub(crate) fn push_list(&mut self, seen: SeenChildren) -> Result<(), Memory>
        ensures ok { OnOk result (self.new ≡ with_list self.old seen) }
        ensures err { OnErr result (self.new ≡ self.old) }
    {
        self.lists.push(seen)?;
        Ok(())
    }

    /// Keeps so many of the first keys and of the first lists.
    pub(crate) fn keep_first(&mut self, keys: usize, lists: usize)
        ensures { self.new ≡ first_of self.old keys lists }
    {
        self.keys.truncate(keys);
        self.lists.truncate(lists);
    }

    /// Whether no round was added yet.
    pub fn is_new(&self) -> bool
        ensures { result ≡ is_new self.now }
    {
        self.revision == 0 && self.keys.is_empty() && self.lists.is_empty()
    }

    /// Sets the revision.
    pub(crate) fn begin_at(&mut self, revision: i64)
        requires { IsCountNumber revision }
        ensures { self.new ≡ record self.old { revision = revision } }
    {
        self.revision = revision;
    }

    /// Puts a key in place of what was first seen of it, or after the others. Without memory the view is as it was. So a multi lays
    /// what its earlier parts leave over what was seen; the view is then no longer one that an etcd showed.
    pub fn lay(&mut self, seen: SeenKey) -> Result<(), Memory>
        requires { IsSeen seen }
        ensures ok { OnOk result (self.new ≡ with_laid self.old seen) }
        ensures err { OnErr result (self.new ≡ self.old) }
    {
        lay_in(&mut self.keys, seen)
    }

    /// The keys that were seen, in the order in which they were added.
    pub fn into_keys(self) -> Seq<SeenKey>
        ensures { result ≡ self.keys }
    {
        Seq::from_vec(self.keys)
    }
}
