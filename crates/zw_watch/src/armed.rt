//! The armed watches of a connection.

ghost use Rattle.std.specs.Prelude.{◌≡◌, IfOk, OnOk, OnErr, IsTrue};
ghost use Rattle.zk_model.specs.Watches.{no_watches, is_unarmed, fire, is_watched, is_watcher_type, unwatched};
ghost use Rattle.zw_watch.specs.Armed.{armed, fired_of};
ghost use Rattle.zw_watch.specs.Bits.{IsHeard};
ghost use Rattle.zw_watch.specs.SeenPaths.{see_paths, unseen, IsSetWatches};

use crate::seen_path::SeenPath;
use crate::sets::PathSets;
use std::alloc::Global;
use std::marker::Model;
use zk_model::{Notice, Path, Trigger};
use zx_base::Memory;

/// The data watches and child watches of a connection. Contracts see two sets of paths. The watch of an `exists` is a
/// data watch. A call takes time in proportion to the logarithm of the number of armed paths, for each path that it names.
#[derive(Drop)]
pub struct Armed {
    paths: PathSets,
    alloc: Global,
}

impl Model for Armed {
    ghost use Rattle.zk_model.specs.Watches.{Watches};
    ghost use Rattle.zk_model.specs.PathSets.{coded_watches};
    ghost use Rattle.zw_watch.specs.Armed.{watches_of};

    ghost Value = { Watches };

    ghost coded = { coded_watches };

    ghost view = { λ a. watches_of a.paths };
}

impl Armed {
    /// No watch is armed.
    pub fn new(alloc: Global) -> Armed
        ensures { result ≡ no_watches }
    {
        Armed {
            paths: PathSets::new(alloc),
            alloc,
        }
    }

    /// Whether no watch is armed.
    pub fn is_empty(&self) -> bool
        ensures { result ≡ is_unarmed self.now }
    {
        self.paths.is_empty()
    }

    /// The bits of what is armed: a change that fires a watch has one of them ([`bits_of`](crate::bits_of)). Most others have none.
    pub fn bits(&self) -> u64
        ensures { IsHeard self.now result }
    {
        self.paths.bits()
    }

    /// Arms a child watch, or otherwise a data watch, on this path. A watch that is armed already stays armed. Where memory runs
    /// out, nothing changes.
    pub fn arm(&mut self, path: &Path, child: bool) -> Result<(), Memory>
        ensures ok { OnOk result (self.new ≡ armed child self.old path.now) }
        ensures err { OnErr result (self.new ≡ self.old) }
    {
        self.paths.arm(self.alloc, path.bytes(), child)
    }

    /// Whether a watch of this type is armed on this path (a checkWatches asks it). The type has to be 1, a child watch, 2, a
    /// data watch, or 3, either (`Watcher.WatcherType`, release 3.5).
    pub fn has(&self, path: &Path, kind: i32) -> bool
        requires { IsTrue (is_watcher_type kind) }
        ensures { result ≡ is_watched self.now path.now kind }
    {
        self.paths.has(path.bytes(), kind)
    }

    /// Takes the watches of this type away that are armed on this path, and says whether there was one (a removeWatches asks for
    /// it). The type has to be 1, 2 or 3, as in [`Armed::has`].
    pub fn remove(&mut self, path: &Path, kind: i32) -> bool
        requires { IsTrue (is_watcher_type kind) }
        ensures rest { self.new ≡ unwatched self.old path.now kind }
        ensures was { result ≡ is_watched self.old path.now kind }
    {
        self.paths.remove(path.bytes(), kind)
    }

    /// Fires the watches that a change hits. They are no longer armed, and give one notice, also where both watches of a deleted
    /// node fire. `None` exactly where the change hits no watch. Where memory runs out, nothing changes.
    pub fn fire(&mut self, trigger: &Trigger) -> Result<Option<Notice>, Memory>
        ensures ok { IfOk result (λ n. fired_of self.new n ≡ fire self.old trigger.now) }
        ensures err { OnErr result (self.new ≡ self.old) }
    {
        self.paths.fire(self.alloc, trigger)
    }

    /// Carries out a setWatches on the paths as they were seen, in their order (zookeeper.jute, `SetWatches`), and gives the
    /// notices of those watches that fire at once. A data or child watch fires where its node is gone or changed after the zxid
    /// `relative`, and a watch on an absent node where the node is there now; the others are armed. An exists watch on a text that
    /// is not a valid path arms nothing. Where memory runs out, nothing changes.
    pub fn rearm(&mut self, seen: &[SeenPath], relative: i64) -> Result<Vec<Notice>, Memory>
        ensures ok { IfOk result (λ ns. record { watches = self.new; notices = ns.items } ≡ see_paths relative (unseen self.old) seen.now) }
        ensures set { IfOk result (λ ns. IsSetWatches relative self.old seen.now (record { watches = self.new; notices = ns.items })) }
        ensures err { OnErr result (self.new ≡ self.old) }
    {
        self.paths.rearm(self.alloc, relative, seen)
    }
}
