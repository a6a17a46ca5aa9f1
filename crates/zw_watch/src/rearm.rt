//! Carries out a setWatches (zookeeper.jute, `SetWatches`).

ghost use Rattle.std.specs.Prelude.{◌≡◌, [], IfOk, OnOk, OnErr};
ghost use Rattle.zk_model.specs.Paths.{is_path};
ghost use Rattle.zk_model.specs.Watches.{Watches as AnyWatches};
ghost use Rattle.zw_watch.specs.Armed.{watches_of, seen_of};
ghost use Rattle.zw_watch.specs.Rounds.{told_of, CanUndo};
ghost use Rattle.zw_watch.specs.SeenPaths.{if_changed, if_absent, rearming_of, with_rearming, see_at, see_paths, unseen};

use crate::noted::{Noted, insert_noted, remove_all};
use crate::notices::tell;
use crate::seen_path::{SeenPath, WatchList};
use crate::sets::PathSets;
use std::alloc::Global;
use zk_model::event::{CHANGED, CHILDREN, CREATED, DELETED};
use zk_model::{Notice, Path, PathFault};
use zx_base::Memory;

/// What becomes of a watch that a setWatches names: it fires at once with a notice of this kind, or is armed, or neither.
#[derive(Clone, Copy)]
pub(crate) enum Rearming {
    Tells(u8),
    ArmsData,
    ArmsChildren,
    ArmsNothing,
}

fn is_path(alloc: Global, text: &[u8]) -> Result<bool, Memory>
    ensures { IfOk result (λ b. b ≡ is_path text.now) }
{
    match Path::read(alloc, text, false) {
        Ok(_path) => Ok(true),
        Err(PathFault::Memory) => Err(Memory),
        Err(_) => Ok(false),
    }
}

/// A watch on a node that was there.
fn if_changed(relative: i64, kind: u8, armed: Rearming, at: Option<i64>) -> Rearming
    ensures { result ≡ if_changed relative kind armed at }
{
    match at {
        None => Rearming::Tells(DELETED),
        Some(at) if relative < at => Rearming::Tells(kind),
        Some(_) => armed,
    }
}

/// A watch on a node that was not there.
fn if_absent(alloc: Global, seen: &SeenPath) -> Result<Rearming, Memory>
    ensures { IfOk result (λ r. r ≡ if_absent (is_path seen.now.path) seen.now.at) }
{
    if seen.at.is_some() {
        return Ok(Rearming::Tells(CREATED));
    }
    if is_path(alloc, seen.path.as_slice())? {
        Ok(Rearming::ArmsData)
    } else {
        Ok(Rearming::ArmsNothing)
    }
}

/// What becomes of the watch on a path.
fn rearming_of(alloc: Global, relative: i64, seen: &SeenPath) -> Result<Rearming, Memory>
    ensures { IfOk result (λ r. r ≡ rearming_of relative (is_path seen.now.path) seen.now.list seen.now.at) }
{
    match seen.list {
        WatchList::Datas => Ok(if_changed(relative, CHANGED, Rearming::ArmsData, seen.at)),
        WatchList::Exists => if_absent(alloc, seen),
        WatchList::Children => Ok(if_changed(relative, CHILDREN, Rearming::ArmsChildren, seen.at)),
    }
}

/// What a setWatches did so far: the paths that it armed anew, and the notices that it gives.
#[derive(Drop)]
pub(crate) struct Round<'a> {
    on_data: Vec<Noted<'a>>,
    on_children: Vec<Noted<'a>>,
    notices: Vec<Notice>,
}

impl<'a> Round<'a> {
    /// Nothing yet.
    fn new(alloc: Global) -> Round<'a>
        ensures on_data { result.on_data.items ≡ [] }
        ensures on_children { result.on_children.items ≡ [] }
        ensures notices { result.notices.items ≡ [] }
    {
        Round {
            on_data: Vec::new(alloc),
            on_children: Vec::new(alloc),
            notices: Vec::new(alloc),
        }
    }
}

impl PathSets {
    /// Adds the notice, or arms the watch.
    fn carry_out<'a>(
        &mut self,
        alloc: Global,
        rearming: Rearming,
        path: &'a [u8],
        round: &mut Round<'a>,
    ) -> Result<(), Memory>
        ensures ok { OnOk result (told_of self.new round.new ≡ with_rearming (told_of self.old round.old) path.now rearming) }
        ensures undo { (before : AnyWatches) → CanUndo self.old round.old before → CanUndo self.new round.new before }
    {
        match rearming {
            Rearming::Tells(kind) => tell(alloc, kind, path, &mut round.notices),
            Rearming::ArmsData => insert_noted(&mut self.on_data, alloc, &mut round.on_data, path),
            Rearming::ArmsChildren => {
                insert_noted(&mut self.on_children, alloc, &mut round.on_children, path)
            }
            Rearming::ArmsNothing => Ok(()),
        }
    }

    /// One path of a setWatches.
    fn see<'a>(
        &mut self,
        alloc: Global,
        relative: i64,
        seen: &'a SeenPath,
        round: &mut Round<'a>,
    ) -> Result<(), Memory>
        ensures ok { OnOk result (told_of self.new round.new ≡ see_at relative (told_of self.old round.old) seen.now) }
        ensures undo { (before : AnyWatches) → CanUndo self.old round.old before → CanUndo self.new round.new before }
    {
        let rearming = rearming_of(alloc, relative, seen)?;
        self.carry_out(alloc, rearming, seen.path.as_slice(), round)
    }

    /// Goes through the paths. Where memory runs out, those before stay armed.
    fn see_paths<'a>(
        &mut self,
        alloc: Global,
        relative: i64,
        seen: &'a [SeenPath],
        round: &mut Round<'a>,
    ) -> Result<(), Memory>
        ensures ok { OnOk result (told_of self.new round.new ≡ see_paths relative (told_of self.old round.old) seen.now) }
        ensures undo { (before : AnyWatches) → CanUndo self.old round.old before → CanUndo self.new round.new before }
    {
        for path in seen {
            self.see(alloc, relative, path, round)?;
        }
        Ok(())
    }

    /// Takes out what was armed anew.
    fn undo(&mut self, round: &Round<'_>)
        ensures { (before : AnyWatches) → CanUndo self.old round.now before → watches_of self.new ≡ before }
    {
        remove_all(&mut self.on_data, round.on_data.as_slice());
        remove_all(&mut self.on_children, round.on_children.as_slice());
    }

    /// Goes through the paths; or changes nothing, where memory runs out.
    pub(crate) fn rearm(
        &mut self,
        alloc: Global,
        relative: i64,
        seen: &[SeenPath],
    ) -> Result<Vec<Notice>, Memory>
        ensures ok { IfOk result (λ ns. seen_of self.new ns.items ≡ see_paths relative (unseen (watches_of self.old)) seen.now) }
        ensures err { OnErr result (watches_of self.new ≡ watches_of self.old) }
    {
        let mut round = Round::new(alloc);
        if let Err(refused) = self.see_paths(alloc, relative, seen, &mut round) {
            self.undo(&round);
            return Err(refused);
        }
        Ok(round.notices)
    }
}
