//! The paths of data watches and of child watches.

ghost use Rattle.std.specs.Prelude.{◌≡◌, IfOk, OnOk, OnErr};
ghost use Rattle.std.specs.FinMap.{contains_key};
ghost use Rattle.zk_model.specs.Watches.{no_watches, is_unarmed, fired_data, fired_children, fire, is_watched, note, unwatched};
ghost use Rattle.zw_watch.specs.Bits.{IsHeard};
ghost use Rattle.zw_watch.specs.Armed.{armed, fired_both, fired_of, has_either, watches_of};

use crate::bits::across;
use crate::marked::MarkedPaths;
use crate::notices::note;
use std::alloc::Global;
use zk_model::event::{CHANGED, CHILDREN, CREATED, DELETED};
use zk_model::watcher::{names_children, names_data};
use zk_model::{Notice, Trigger};
use zx_base::Memory;

/// The paths that have a watch.
#[derive(Drop)]
pub(crate) struct PathSets {
    pub(crate) on_data: MarkedPaths,
    pub(crate) on_children: MarkedPaths,
}

impl PathSets {
    /// No paths.
    pub(crate) fn new(alloc: Global) -> PathSets
        ensures { watches_of result ≡ no_watches }
    {
        PathSets {
            on_data: MarkedPaths::new(alloc),
            on_children: MarkedPaths::new(alloc),
        }
    }

    /// Whether there are no paths.
    pub(crate) fn is_empty(&self) -> bool
        ensures { result ≡ is_unarmed (watches_of self.now) }
    {
        self.on_data.is_empty() && self.on_children.is_empty()
    }

    /// The bits of all watches.
    pub(crate) fn bits(&self) -> u64
        ensures { IsHeard (watches_of self.now) result }
    {
        self.on_data.bits() | across(self.on_children.bits())
    }

    /// Arms a child watch, or otherwise a data watch; or changes nothing, where memory runs out.
    pub(crate) fn arm(&mut self, alloc: Global, path: &[u8], child: bool) -> Result<(), Memory>
        ensures ok { OnOk result (watches_of self.new ≡ armed child (watches_of self.old) path.now) }
        ensures err { OnErr result (watches_of self.new ≡ watches_of self.old) }
    {
        if child {
            self.on_children.insert(alloc, path)
        } else {
            self.on_data.insert(alloc, path)
        }
    }

    /// Whether the path has a watch of this type.
    pub(crate) fn has(&self, path: &[u8], kind: i32) -> bool
        ensures { result ≡ is_watched (watches_of self.now) path.now kind }
    {
        (names_children(kind) && self.on_children.contains(path))
            || (names_data(kind) && self.on_data.contains(path))
    }

    /// Takes the path's watches of this type away, and says whether there was one.
    pub(crate) fn remove(&mut self, path: &[u8], kind: i32) -> bool
        ensures rest { watches_of self.new ≡ unwatched (watches_of self.old) path.now kind }
        ensures was { result ≡ is_watched (watches_of self.old) path.now kind }
    {
        let was = self.has(path, kind);
        if names_data(kind) {
            self.on_data.remove(path);
        }
        if names_children(kind) {
            self.on_children.remove(path);
        }
        was
    }

    /// Fires the path's data watch, if there is one.
    fn fire_data(&mut self, alloc: Global, kind: u8, path: &[u8]) -> Result<Option<Notice>, Memory>
        ensures ok { IfOk result (λ n. fired_of (watches_of self.new) n ≡ (fired_data (watches_of self.old) path.now, note (contains_key (watches_of self.old).on_data path.now) kind path.now)) }
        ensures err { OnErr result (watches_of self.new ≡ watches_of self.old) }
    {
        let is_hit = self.on_data.contains(path);
        let notice = note(alloc, is_hit, kind, path)?;
        self.on_data.remove(path);
        Ok(notice)
    }

    /// Fires the path's child watch, if there is one.
    fn fire_children(&mut self, alloc: Global, path: &[u8]) -> Result<Option<Notice>, Memory>
        ensures ok { IfOk result (λ n. fired_of (watches_of self.new) n ≡ (fired_children (watches_of self.old) path.now, note (contains_key (watches_of self.old).on_children path.now) 4 path.now)) }
        ensures err { OnErr result (watches_of self.new ≡ watches_of self.old) }
    {
        let is_hit = self.on_children.contains(path);
        let notice = note(alloc, is_hit, CHILDREN, path)?;
        self.on_children.remove(path);
        Ok(notice)
    }

    fn has_either(&self, path: &[u8]) -> bool
        ensures { result ≡ has_either (watches_of self.now) path.now }
    {
        self.on_data.contains(path) || self.on_children.contains(path)
    }

    /// Fires those watches that the path has, with one notice.
    fn fire_both(&mut self, alloc: Global, path: &[u8]) -> Result<Option<Notice>, Memory>
        ensures ok { IfOk result (λ n. fired_of (watches_of self.new) n ≡ (fired_both (watches_of self.old) path.now, note (has_either (watches_of self.old) path.now) 2 path.now)) }
        ensures err { OnErr result (watches_of self.new ≡ watches_of self.old) }
    {
        let is_hit = self.has_either(path);
        let notice = note(alloc, is_hit, DELETED, path)?;
        self.on_data.remove(path);
        self.on_children.remove(path);
        Ok(notice)
    }

    /// Fires the watches that a change hits; or changes nothing, where memory runs out.
    pub(crate) fn fire(
        &mut self,
        alloc: Global,
        trigger: &Trigger,
    ) -> Result<Option<Notice>, Memory>
        ensures ok { IfOk result (λ n. fired_of (watches_of self.new) n ≡ fire (watches_of self.old) trigger.now) }
        ensures err { OnErr result (watches_of self.new ≡ watches_of self.old) }
    {
        match trigger {
            Trigger::Created(path) => self.fire_data(alloc, CREATED, path.bytes()),
            Trigger::Deleted(path) => self.fire_both(alloc, path.bytes()),
            Trigger::Changed(path) => self.fire_data(alloc, CHANGED, path.bytes()),
            Trigger::Children(path) => self.fire_children(alloc, path.bytes()),
        }
    }
}
