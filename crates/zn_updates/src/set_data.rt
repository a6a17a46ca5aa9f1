//! setData (ZooKeeper API, `setData`), decided on the record and the counts of its node.

ghost use Rattle.std.specs.Prelude.{◌^◌, ◌≡◌, ◌≤◌, ◌<◌, ◌+ℤ◌, ◌≤ℤ◌, pos, true, false, length, IfOk, IfSome, IsTrue};
ghost use Rattle.std.specs.Ordering.{int_eq};
ghost use Rattle.zk_model.specs.Limits.{max_frame, max_version};
ghost use Rattle.zk_model.specs.Paths.{is_path};
ghost use Rattle.zn_layout.specs.Records.{IsCountRec};
ghost use Rattle.zn_updates.specs.Choices.{set_data_choice, set_changes, set_record as set_record_of, set_stat as set_stat_of};
ghost use Rattle.zn_updates.specs.Making.{IsMade, chosen_of};
ghost use Rattle.zn_updates.specs.Seen.{IsDataWithin};
ghost use Rattle.std.specs.Prelude.{[], ◌∷◌, option_copied};
ghost use Rattle.zk_model.specs.declared.node.Trigger.TheVariants.{Changed};
ghost use Rattle.std.specs.Prelude.{ℤ};
ghost use Rattle.zk_model.specs.declared.request.Request.TheVariants as req;
ghost use Rattle.zn_layout.specs.Keys.{CountsKey, DataKey};
ghost use Rattle.zn_view.specs.Lookups.{HasSeen};
ghost use Rattle.zn_view.specs.Needs.{AreNeeds, IsWhole};
ghost use Rattle.zn_view.specs.Deciding.{IfPlanned, IsToldByForm, is_by_tree};
ghost use Rattle.zn_updates.specs.Deciding.{IsBySound, IsGuarded, IsSetData};
ghost use Rattle.zn_updates.specs.Writing.{WritesAs};
ghost use Rattle.zx_base.specs.Maps.{Bytes as ByteList};

use crate::changes::put_data;
use crate::chosen::{Chosen, Update};
use crate::keys::{set_data_keys, set_data_wants};
use crate::plan::decision;
use crate::seen::{SeenCounts, SeenData, counts_seen, data_seen};
use std::alloc::Global;
use zk_model::code::{BAD_ARGUMENTS, BAD_VERSION, NO_NODE, SYSTEM_ERROR};
use zk_model::limit::MAX_VERSION;
use zk_model::version::matches;
use zk_model::{PartResult, Path, Stat, Trigger, read_path};
use zn_layout::{NodeRec, cversion};
use zn_view::{Decision, View, Want, Who, refused};
use zx_base::{Memory, Seq};

/// The version after the setData.
fn next_version(node: &SeenData) -> i32
    requires within { IsDataWithin node.now }
    requires room { int_eq node.now.version max_version ≡ false }
    ensures { result ≡ node.now.version +ℤ pos 1 }
{
    node.version + 1
}

/// The node's record after the setData, but for its content. `now` is in milliseconds since 1970.
fn set_record(alloc: Global, node: &SeenData, now: u64) -> NodeRec
    requires within { IsDataWithin node.now }
    requires room { int_eq node.now.version max_version ≡ false }
    requires time { now < 2 ^ 62 }
    ensures { result ≡ set_record_of node.now [] now }
{
    NodeRec {
        czxid: node.czxid,
        version: next_version(node),
        ctime: node.ctime,
        mtime: now as i64,
        owner: node.owner,
        content: Seq::new(alloc),
    }
}

/// The node's Stat after the setData, with 0 in place of the update's zxid.
fn set_stat(node: &SeenData, counts: &SeenCounts, content: &[u8], now: u64) -> Stat
    requires within { IsDataWithin node.now }
    requires room { int_eq node.now.version max_version ≡ false }
    requires counted { IsCountRec counts.now.counts }
    requires time { now < 2 ^ 62 }
    requires short { length content.now ≤ max_frame }
    ensures { result ≡ set_stat_of node.now counts.now content.now now }
{
    Stat {
        czxid: node.czxid,
        mzxid: 0,
        ctime: node.ctime,
        mtime: now as i64,
        version: next_version(node),
        cversion: cversion(&counts.counts),
        aversion: 0,
        ephemeral_owner: node.owner,
        data_length: content.len() as i32,
        num_children: counts.counts.children,
        pzxid: counts.pzxid,
    }
}

/// What watches see of the setData.
fn set_triggers(alloc: Global, path: &Path) -> Result<Seq<Trigger>, Memory>
    ensures { IfOk result (λ ts. ts ≡ Changed path.now ∷ []) }
{
    let mut triggers = Seq::new(alloc);
    triggers.push(Trigger::Changed(path.copy(alloc)?))?;
    Ok(triggers)
}

/// The update of a setData that is not refused.
fn set_update(
    alloc: Global,
    path: &Path,
    content: &[u8],
    now: u64,
    node: &SeenData,
    counts: &SeenCounts,
) -> Result<Update, Memory>
    requires valid { IsTrue (is_path path.now) }
    requires time { now < 2 ^ 62 }
    requires short { length content.now ≤ max_frame }
    requires within { IsDataWithin node.now }
    requires room { int_eq node.now.version max_version ≡ false }
    requires counted { IsCountRec counts.now.counts }
    ensures { IfOk result (IsMade (set_changes path.now node.now content.now now) (Changed path.now ∷ []) (PartResult.Set (set_stat_of node.now counts.now content.now now))) }
{
    let mut acts = Seq::new(alloc);
    acts.push(put_data(alloc, path, &set_record(alloc, node, now), content)?)?;
    Ok(Update {
        acts,
        triggers: set_triggers(alloc, path)?,
        draft: PartResult::Set(set_stat(node, counts, content, now)),
    })
}

/// Decides a setData by the node's record and counts. Refused with NoNode where one of them is missing, with BadVersion, and with
/// SystemError where the version can rise no more. `now` is in milliseconds since 1970.
#[tactic(auto, unfolding(crate::specs::Choices::set_data_choice))]
pub fn choose_set_data(
    alloc: Global,
    path: &Path,
    content: &[u8],
    version: i32,
    now: u64,
    node: Option<&SeenData>,
    counts: Option<&SeenCounts>,
) -> Result<Chosen, Memory>
    requires valid { IsTrue (is_path path.now) }
    requires time { now < 2 ^ 62 }
    requires short { length content.now ≤ max_frame }
    requires within { IfSome (option_copied node) IsDataWithin }
    requires counted { IfSome (option_copied counts) (λ c. IsCountRec c.counts) }
    ensures { IfOk result (λ c. c ≡ chosen_of (set_data_choice path.now content.now version now (option_copied node.entry) (option_copied counts.entry))) }
{
    let Some(node) = node else {
        return Ok(Chosen::Refused(NO_NODE));
    };
    let Some(counts) = counts else {
        return Ok(Chosen::Refused(NO_NODE));
    };
    if !matches(version, node.version) {
        return Ok(Chosen::Refused(BAD_VERSION));
    }
    if node.version == MAX_VERSION {
        return Ok(Chosen::Refused(SYSTEM_ERROR));
    }
    Ok(Chosen::Made(set_update(alloc, path, content, now, node, counts)?))
}

/// Decides a setData of a valid path.
fn set_data_at(
    alloc: Global,
    path: &Path,
    content: &[u8],
    version: i32,
    session: i64,
    now: u64,
    view: &View,
) -> Result<Decision, Memory>
    requires valid { IsTrue (is_path path.now) }
    requires real { pos 1 ≤ℤ session }
    requires time { now < 2 ^ 62 }
    requires short { length content.now ≤ max_frame }
    requires node { HasSeen view.now (DataKey path.now) }
    requires counts { HasSeen view.now (CountsKey path.now) }
    ensures { IfOk result (IsSetData view.now path.now content.now version now session) }
{
    let node = data_seen(view, path)?;
    let counts = counts_seen(view, path, node.as_ref())?;
    let chosen = choose_set_data(
        alloc,
        path,
        content,
        version,
        now,
        node.as_ref(),
        counts.as_ref(),
    )?;
    let keys = set_data_keys(alloc, session, path)?;
    decision(alloc, view, keys.as_slice(), chosen)
}

/// Decides a setData.
pub(crate) fn decide_set_data(
    alloc: Global,
    path: &[u8],
    content: &[u8],
    version: i32,
    who: Who,
    now: u64,
    view: &View,
) -> Result<Decision, Memory>
    requires real { pos 1 ≤ℤ who.session }
    requires time { now < 2 ^ 62 }
    requires short { length content.now ≤ max_frame }
    requires whole { IsWhole (req.SetData path.now content.now version) who view.now }
    ensures form { IfOk result (IsToldByForm (req.SetData path.now content.now version)) }
    ensures sound { IfOk result (IsBySound (req.SetData path.now content.now version) who view.now) }
    ensures tree { IfOk result (λ d. is_by_tree d ≡ true) }
    ensures plan { IfOk result (IfPlanned (IsGuarded (req.SetData path.now content.now version) who now view.now)) }
    ensures writes { IfOk result (IfPlanned (WritesAs (req.SetData path.now content.now version) who view.now)) }
{
    match read_path(alloc, path, false)? {
        Some(path) => set_data_at(alloc, &path, content, version, who.session, now, view),
        None => Ok(refused(BAD_ARGUMENTS)),
    }
}

/// What a setData still has to look up: nothing where its form is refused.
pub(crate) fn set_data_needs(
    alloc: Global,
    path: &[u8],
    who: Who,
    view: &View,
) -> Result<Seq<Want>, Memory>
    requires real { pos 1 ≤ℤ who.session }
    ensures { IfOk result (λ ws. (content : ByteList) → (version : ℤ) → AreNeeds (req.SetData path.now content version) who view.now ws) }
{
    match read_path(alloc, path, false)? {
        Some(path) => set_data_wants(alloc, view, who.session, &path),
        None => Ok(Seq::new(alloc)),
    }
}
