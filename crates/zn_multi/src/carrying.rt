//! The parts of a multi, chosen one after the other.

ghost use Rattle.std.specs.Prelude.{◌<◌, ◌^◌, ◌≡◌, ◌≤◌, ◌≤ℤ◌, ◌++◌, ◌∷◌, [], pos, length, All, IfOk, OnOk};
ghost use Rattle.std.specs.Option.{option_to_list};
ghost use Rattle.zk_model.specs.Limits.{max_frame};
ghost use Rattle.zn_updates.specs.Layers.{layered};
ghost use Rattle.zn_updates.specs.Parts.{part_content};
ghost use Rattle.zn_multi.specs.Laying.{with_acts, PutsRecord};
ghost use Rattle.zn_multi.specs.Carrying.{no_progress, AreShort, IsCarriedOne, IsOwnerOver, IsTouched, Runs};
ghost use Rattle.zn_updates.specs.Forms.{IsInnerPath};
ghost use Rattle.std.specs.Prelude.{Option, Some, IsTrue};
ghost use Rattle.zk_model.specs.Paths.{is_path};
ghost use Rattle.zx_base.specs.Maps.{Bytes as ByteList};

use crate::laying::lay_all;
use std::alloc::Global;
use zk_model::flags::is_ephemeral;
use zk_model::{Part, PartResult, Path, Trigger};
use zn_updates::{Chosen, Update, choose_part, data_over, inner_path};
use zn_view::{View, Who};
use zx_base::{Memory, Seq};

/// What the parts so far come to.
#[derive(Drop)]
pub struct Progress {
    /// The keys that they wrote, each with its last record.
    pub over: View,
    /// Their results, with 0 in place of the zxid that the update gets.
    pub results: Seq<PartResult>,
    /// What watches see of them, in turn.
    pub triggers: Seq<Trigger>,
    /// The owner of each ephemeral node that was made or removed, in turn; a session may stand there more than once.
    pub touched: Seq<i64>,
}

/// What all parts come to.
#[derive(Drop)]
pub enum Carried {
    /// The place of the first part that is refused, counted from 0, and its error code.
    Stopped { place: usize, code: i32 },
    /// No part is refused.
    Passed(Progress),
}

/// The owner of a node, none where it has none or is not there.
fn owner_at(alloc: Global, path: &Path, over: &View, view: &View) -> Result<Option<i64>, Memory>
    requires valid { IsTrue (is_path path.now) }
    ensures { IfOk result (IsOwnerOver (layered over.now view.now) (Some path.now)) }
{
    match data_over(alloc, over, view, path)? {
        Some(node) if node.owner != 0 => Ok(Some(node.owner)),
        Some(_) | None => Ok(None),
    }
}

/// The owner of the node that a delete removes.
fn owner_of(alloc: Global, path: &[u8], over: &View, view: &View) -> Result<Option<i64>, Memory>
    ensures { IfOk result (λ o. (p : Option ByteList) × IsInnerPath path.now p × IsOwnerOver (layered over.now view.now) p o) }
{
    match inner_path(alloc, path)? {
        Some(path) => owner_at(alloc, &path, over, view),
        None => Ok(None),
    }
}

/// The session whose node a part makes or removes.
fn touched_by(
    alloc: Global,
    part: &Part,
    session: i64,
    over: &View,
    view: &View,
) -> Result<Option<i64>, Memory>
    ensures { IfOk result (IsTouched (layered over.now view.now) session part.now) }
{
    match part {
        Part::Create { flags, .. } if is_ephemeral(*flags) => Ok(Some(session)),
        Part::Delete { path, .. } => owner_of(alloc, path.as_slice(), over, view),
        Part::Create { .. } | Part::SetData { .. } | Part::Check { .. } => Ok(None),
    }
}

fn nothing_yet(alloc: Global) -> Progress
    ensures { result ≡ no_progress }
{
    Progress {
        over: View::empty(alloc),
        results: Seq::new(alloc),
        triggers: Seq::new(alloc),
        touched: Seq::new(alloc),
    }
}

/// Adds triggers after others.
fn append(triggers: &mut Seq<Trigger>, more: Seq<Trigger>) -> Result<(), Memory>
    ensures { OnOk result (triggers.new ≡ triggers.old ++ more) }
{
    for trigger in more.into_vec() {
        triggers.push(trigger)?;
    }
    Ok(())
}

/// What the parts come to with the update of one more.
fn with_update(
    alloc: Global,
    passed: Progress,
    update: Update,
    touched: Option<i64>,
) -> Result<Progress, Memory>
    requires { All PutsRecord update.acts }
    ensures over { IfOk result (λ new. new.over ≡ with_acts passed.over update.acts) }
    ensures results { IfOk result (λ new. new.results ≡ passed.results ++ update.draft ∷ []) }
    ensures triggers { IfOk result (λ new. new.triggers ≡ passed.triggers ++ update.triggers) }
    ensures touched { IfOk result (λ new. new.touched ≡ passed.touched ++ option_to_list touched) }
{
    let mut passed = passed;
    lay_all(alloc, &mut passed.over, update.acts)?;
    passed.results.push(update.draft)?;
    append(&mut passed.triggers, update.triggers)?;
    if let Some(session) = touched {
        passed.touched.push(session)?;
    }
    Ok(passed)
}

/// What the parts come to with the one at this place.
fn carry_one(
    alloc: Global,
    passed: Progress,
    part: &Part,
    place: usize,
    who: Who,
    now: u64,
    view: &View,
) -> Result<Carried, Memory>
    requires time { now < 2 ^ 62 }
    requires short { length (part_content part.now) ≤ max_frame }
    requires real { pos 1 ≤ℤ who.session }
    ensures { IfOk result (IsCarriedOne part.now who now view.now passed place) }
{
    match choose_part(alloc, part, who, now, &passed.over, view)? {
        Chosen::Refused(code) => Ok(Carried::Stopped { place, code }),
        Chosen::Made(update) => {
            let touched = touched_by(alloc, part, who.session, &passed.over, view)?;
            Ok(Carried::Passed(with_update(alloc, passed, update, touched)?))
        }
    }
}

/// What the parts come to, each on what the parts before it left.
pub(crate) fn carry_out(
    alloc: Global,
    parts: &[Part],
    who: Who,
    now: u64,
    view: &View,
) -> Result<Carried, Memory>
    requires time { now < 2 ^ 62 }
    requires short { AreShort parts.now }
    requires real { pos 1 ≤ℤ who.session }
    ensures { IfOk result (Runs who now view.now no_progress 0 parts.now) }
{
    let mut passed = nothing_yet(alloc);
    let mut place = 0;
    for part in parts {
        match carry_one(alloc, passed, part, place, who, now, view)? {
            Carried::Stopped { place, code } => return Ok(Carried::Stopped { place, code }),
            Carried::Passed(more) => passed = more,
        }
        place += 1;
    }
    Ok(Carried::Passed(passed))
}
