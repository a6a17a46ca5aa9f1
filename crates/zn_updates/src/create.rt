//! create (ZooKeeper API, `create`; Programmer's Guide, "Ephemeral Nodes", "Sequence Nodes"), decided on the records of the
//! parent and of the session, and on whether the node is there.

ghost use Rattle.std.specs.Prelude.{◌≡◌, ◌≤◌, ◌≤ℤ◌, ◌<◌, [], ◌^◌, ◌-◌, pos, true, false, length, IfOk, IfSome, IsTrue};
ghost use Rattle.std.specs.Ordering.{int_eq};
ghost use Rattle.zk_model.specs.Limits.{max_creates, max_frame, max_path};
ghost use Rattle.zk_model.specs.Paths.{is_path};
ghost use Rattle.zk_model.specs.declared.reply.PartResult.TheVariants as results;
ghost use Rattle.zn_layout.specs.Begin.{new_record as record_of_new};
ghost use Rattle.zn_layout.specs.Changes.{acts_of};
ghost use Rattle.zn_layout.specs.Records.{IsCountRec, IsLongCount, IsNodeRec, IsSessionRec};
ghost use Rattle.zn_updates.specs.Choices.{changes_with, with_content, create_choice, create_here as creates_here, create_owned as creates_owned, create_triggers as triggers_of_create};
ghost use Rattle.zn_updates.specs.Making.{IsMade, chosen_of};
ghost use Rattle.std.specs.Prelude.{nat_abs, IsFalse};
ghost use Rattle.zk_model.specs.Paths.{is_sequence_prefix};
ghost use Rattle.zn_layout.specs.Keys.{CountsKey, DataKey, SessionKey};
ghost use Rattle.zn_view.specs.Lookups.{HasSeen};
ghost use Rattle.zn_view.specs.Deciding.{IfPlanned, IsToldByForm, is_by_tree};
ghost use Rattle.zn_updates.specs.Deciding.{IsBySound, IsCreate, IsCreateBelow, IsGuarded, AreOwnNodes, IsUpLookedUp, creates_seen, path_for};
ghost use Rattle.zn_updates.specs.Writing.{WritesAs};
ghost use Rattle.zk_model.specs.Paths.{parent as parent_of};
ghost use Rattle.zk_model.specs.declared.request.Request.TheVariants as req;
ghost use Rattle.zn_view.specs.Needs.{AreNeeds, IsWhole};
ghost use Rattle.zx_base.specs.Maps.{Bytes as ByteList};

use crate::asked::{CreateAsked, NewNode};
use crate::changes::{put_data, put_owned};
use crate::chosen::{Chosen, Update};
use crate::form::{Form, create_form};
use crate::keys::{create_keys, create_wants};
use crate::owned::with_node;
use crate::plan::decision;
use crate::seen::{SeenCounts, SeenNode, counts_seen, data_seen, is_there, nodes_seen};
use ev_types::Act;
use std::alloc::Global;
use zk_model::code::{NO_CHILDREN_FOR_EPHEMERALS, NO_NODE, NODE_EXISTS, SYSTEM_ERROR};
use zk_model::flags::{is_ephemeral, is_sequential};
use zk_model::limit::MAX_CREATES;
use zk_model::{Acl, PartResult, Path, Trigger};
use zn_layout::{CountRec, FIRST_COUNTS, NodeRec, SessionRec, has_counts, one_more, put_counts};
use zn_view::{Decision, View, Want, Who, refused};
use zx_base::{Memory, Seq};

/// A new node's record but for its content. Its czxid is 0: that is the revision of the put.
fn new_record(alloc: Global, now: u64, owner: i64) -> NodeRec
    requires time { now < 2 ^ 62 }
    requires owned { IsLongCount owner }
    ensures is { result ≡ record_of_new [] now owner }
    ensures within { IsNodeRec result }
{
    NodeRec {
        czxid: 0,
        version: 0,
        ctime: now as i64,
        mtime: now as i64,
        owner,
        content: Seq::new(alloc),
    }
}

/// Puts the node's record, that of its counts where it `has_counts`, and the parent's counts with one child and one create more.
fn create_acts(
    alloc: Global,
    path: &Path,
    parent: &Path,
    content: &[u8],
    node: &NodeRec,
    has_counts: bool,
    above: &CountRec,
) -> Result<Seq<Act>, Memory>
    requires valid { IsTrue (is_path path.now) }
    requires parent { IsTrue (is_path parent.now) }
    requires within { IsNodeRec node.now }
    requires empty { length node.now.content ≡ 0 }
    requires counted { IsCountRec above.now }
    requires room { int_eq above.now.creates max_creates ≡ false }
    ensures { IfOk result (λ acts. acts ≡ acts_of (changes_with path.now parent.now (with_content node.now content.now) has_counts above.now)) }
{
    let mut acts = Seq::new(alloc);
    acts.push(put_data(alloc, path, node, content)?)?;
    if has_counts {
        acts.push(put_counts(alloc, path.bytes(), &FIRST_COUNTS)?)?;
    }
    acts.push(put_counts(alloc, parent.bytes(), &one_more(above))?)?;
    Ok(acts)
}

/// What watches see of the create.
fn create_triggers(alloc: Global, path: &Path, parent: &Path) -> Result<Seq<Trigger>, Memory>
    ensures { IfOk result (λ ts. ts ≡ triggers_of_create path.now parent.now) }
{
    let mut triggers = Seq::new(alloc);
    triggers.push(Trigger::Created(path.copy(alloc)?))?;
    triggers.push(Trigger::Children(parent.copy(alloc)?))?;
    Ok(triggers)
}

/// Creates a node with this record.
fn create_node(
    alloc: Global,
    path: &Path,
    parent: &Path,
    content: &[u8],
    node: &NodeRec,
    has_counts: bool,
    above: &CountRec,
) -> Result<Update, Memory>
    requires valid { IsTrue (is_path path.now) }
    requires parent { IsTrue (is_path parent.now) }
    requires within { IsNodeRec node.now }
    requires empty { length node.now.content ≡ 0 }
    requires counted { IsCountRec above.now }
    requires room { int_eq above.now.creates max_creates ≡ false }
    ensures { IfOk result (IsMade (changes_with path.now parent.now (with_content node.now content.now) has_counts above.now) (triggers_of_create path.now parent.now) (results.Created path.now)) }
{
    Ok(Update {
        acts: create_acts(alloc, path, parent, content, node, has_counts, above)?,
        triggers: create_triggers(alloc, path, parent)?,
        draft: PartResult::Created(Seq::copy_of(alloc, path.bytes())?),
    })
}

/// Creates a node that joins the session's list, where that has room.
fn create_owned(
    alloc: Global,
    path: &Path,
    parent: &Path,
    new: &NewNode<'_>,
    above: &CountRec,
    nodes: Option<SessionRec>,
) -> Result<Chosen, Memory>
    requires valid { IsTrue (is_path path.now) }
    requires parent { IsTrue (is_path parent.now) }
    requires time { new.now.time < 2 ^ 62 }
    requires short { length new.now.content.now ≤ max_frame }
    requires real { pos 1 ≤ℤ new.now.session }
    requires owned { IsLongCount new.now.session }
    requires counted { IsCountRec above.now }
    requires room { int_eq above.now.creates max_creates ≡ false }
    requires listed { IfSome nodes IsSessionRec }
    ensures { IfOk result (λ c. c ≡ chosen_of (creates_owned path.now parent.now new.now.content.now new.now.time above.now new.now.session nodes)) }
{
    let Some(nodes) = nodes else {
        return Ok(Chosen::Refused(SYSTEM_ERROR));
    };
    if nodes.paths.len() >= nodes.layout.max_owned() {
        return Ok(Chosen::Refused(SYSTEM_ERROR));
    }
    let node = new_record(alloc, new.time, new.session);
    let counted = has_counts(nodes.layout);
    let mut update = create_node(alloc, path, parent, new.content, &node, counted, above)?;
    let nodes = with_node(alloc, nodes, path)?;
    update.acts.push(put_owned(alloc, new.session, &nodes)?)?;
    Ok(Chosen::Made(update))
}

fn create_here(
    alloc: Global,
    path: &Path,
    parent: &Path,
    new: &NewNode<'_>,
    above: &CountRec,
    nodes: Option<SessionRec>,
) -> Result<Chosen, Memory>
    requires valid { IsTrue (is_path path.now) }
    requires parent { IsTrue (is_path parent.now) }
    requires time { new.now.time < 2 ^ 62 }
    requires short { length new.now.content.now ≤ max_frame }
    requires real { pos 1 ≤ℤ new.now.session }
    requires owned { IsLongCount new.now.session }
    requires counted { IsCountRec above.now }
    requires room { int_eq above.now.creates max_creates ≡ false }
    requires listed { IfSome nodes IsSessionRec }
    ensures { IfOk result (λ c. c ≡ chosen_of (creates_here path.now parent.now new.now.content.now new.now.time above.now new.now.ephemeral new.now.session nodes)) }
{
    if new.ephemeral {
        return create_owned(alloc, path, parent, new, above, nodes);
    }
    let node = new_record(alloc, new.time, 0);
    Ok(Chosen::Made(create_node(alloc, path, parent, new.content, &node, true, above)?))
}

/// Decides a create at `path` by what was seen of the parent, by whether the path is `taken`, and for an ephemeral node by the record
/// of the session's nodes. Refused with NoNode, NodeExists or NoChildrenForEphemerals, and with SystemError where the parent or the
/// session can have no more, or the paths are missing.
#[tactic(auto, unfolding(crate::specs::Choices::create_choice))]
pub fn choose_create(
    alloc: Global,
    path: &Path,
    parent: &Path,
    new: &NewNode<'_>,
    up: &SeenNode,
    taken: bool,
    nodes: Option<SessionRec>,
) -> Result<Chosen, Memory>
    requires valid { IsTrue (is_path path.now) }
    requires parent { IsTrue (is_path parent.now) }
    requires time { new.now.time < 2 ^ 62 }
    requires short { length new.now.content.now ≤ max_frame }
    requires real { pos 1 ≤ℤ new.now.session }
    requires owned { IsLongCount new.now.session }
    requires counted { IfSome up.now.counts (λ c. IsCountRec c.counts) }
    requires listed { IfSome nodes IsSessionRec }
    ensures { IfOk result (λ c. c ≡ chosen_of (create_choice path.now parent.now new.now.content.now new.now.time new.now.ephemeral new.now.session up.now.data up.now.counts taken nodes)) }
{
    let Some(data) = &up.data else {
        return Ok(Chosen::Refused(NO_NODE));
    };
    let Some(above) = &up.counts else {
        return Ok(Chosen::Refused(NO_NODE));
    };
    if taken {
        return Ok(Chosen::Refused(NODE_EXISTS));
    }
    if data.owner != 0 {
        return Ok(Chosen::Refused(NO_CHILDREN_FOR_EPHEMERALS));
    }
    if above.counts.creates == MAX_CREATES {
        return Ok(Chosen::Refused(SYSTEM_ERROR));
    }
    create_here(alloc, path, parent, new, &above.counts, nodes)
}

/// The path of the new node: a sequence node's ends in the parent's count of creates, 0 where the parent is not there.
pub(crate) fn path_of(
    alloc: Global,
    path: &[u8],
    named: Path,
    sequential: bool,
    above: &Option<SeenCounts>,
) -> Result<Path, Memory>
    requires prefix { IsTrue sequential → IsTrue (is_sequence_prefix path.now) }
    requires named { IsFalse sequential → named ≡ path.now }
    ensures { IfOk result (λ p. p ≡ path_for sequential path.now above.now) }
{
    if !sequential {
        return Ok(named);
    }
    let creates = match above {
        Some(above) => above.counts.creates.unsigned_abs(),
        None => 0,
    };
    Path::numbered(alloc, path, creates)
}

/// The parent's count of creates, where the parent is there.
fn creates_of(above: &Option<SeenCounts>) -> Option<u32>
    ensures { result ≡ creates_seen above.now }
{
    match above {
        Some(above) => Some(above.counts.creates.unsigned_abs()),
        None => None,
    }
}

/// The record of the session's nodes, for an ephemeral node.
fn own_nodes(view: &View, session: i64, ephemeral: bool) -> Result<Option<SessionRec>, Memory>
    requires real { pos 1 ≤ℤ session }
    requires seen { IsTrue ephemeral → HasSeen view.now (SessionKey (nat_abs session)) }
    ensures is { IfOk result (AreOwnNodes view.now ephemeral session) }
    ensures within { IfOk result (λ o. IfSome o IsSessionRec) }
{
    if ephemeral {
        nodes_seen(view, session)
    } else {
        Ok(None)
    }
}

/// Decides a create below a parent.
fn create_at(
    alloc: Global,
    new: &NewNode<'_>,
    named: Path,
    parent: &Path,
    view: &View,
) -> Result<Decision, Memory>
    requires parent { IsTrue (is_path parent.now) }
    requires time { new.now.time < 2 ^ 62 }
    requires short { length new.now.content.now ≤ max_frame }
    requires real { pos 1 ≤ℤ new.now.session }
    requires prefix { IsTrue new.now.sequential → IsTrue (is_sequence_prefix new.now.path.now) }
    requires named { IsFalse new.now.sequential → named ≡ new.now.path.now }
    requires long { IsFalse new.now.sequential → length new.now.path.now ≤ max_path }
    requires up { HasSeen view.now (DataKey parent.now) }
    requires above { HasSeen view.now (CountsKey parent.now) }
    requires own { IsTrue new.now.ephemeral → HasSeen view.now (SessionKey (nat_abs new.now.session)) }
    ensures { IfOk result (IsCreateBelow view.now new.now.path.now new.now.content.now new.now.time new.now.sequential new.now.ephemeral new.now.session parent.now) }
{
    let up = data_seen(view, parent)?;
    let above = counts_seen(view, parent, up.as_ref())?;
    let keys = create_keys(
        alloc,
        new.session,
        new.path,
        parent,
        new.sequential,
        new.ephemeral,
        creates_of(&above),
    )?;
    let path = path_of(alloc, new.path, named, new.sequential, &above)?;
    let taken = is_there(alloc, view, &path)?;
    let nodes = own_nodes(view, new.session, new.ephemeral)?;
    let seen = SeenNode {
        data: up,
        counts: above,
    };
    let chosen = choose_create(alloc, &path, parent, new, &seen, taken, nodes)?;
    decision(alloc, view, keys.as_slice(), chosen)
}

/// Decides a create; `named` is its path, with `1` after it for a sequence node. The root has no parent, and is there.
fn create_named(
    alloc: Global,
    new: &NewNode<'_>,
    named: Path,
    view: &View,
) -> Result<Decision, Memory>
    requires time { new.now.time < 2 ^ 62 }
    requires short { length new.now.content.now ≤ max_frame }
    requires real { pos 1 ≤ℤ new.now.session }
    requires prefix { IsTrue new.now.sequential → IsTrue (is_sequence_prefix new.now.path.now) }
    requires named { IsFalse new.now.sequential → named ≡ new.now.path.now }
    requires long { IsFalse new.now.sequential → length new.now.path.now ≤ max_path }
    requires up { IsUpLookedUp view.now (parent_of named) }
    requires own { IsTrue new.now.ephemeral → HasSeen view.now (SessionKey (nat_abs new.now.session)) }
    ensures { IfOk result (IsCreate view.now new.now.path.now new.now.content.now new.now.time new.now.sequential new.now.ephemeral new.now.session (parent_of named)) }
{
    match named.parent(alloc)? {
        Some(parent) => create_at(alloc, new, named, &parent, view),
        None => Ok(refused(NODE_EXISTS)),
    }
}

/// Decides a create.
pub(crate) fn decide_create(
    alloc: Global,
    asked: &CreateAsked<'_>,
    who: Who,
    now: u64,
    view: &View,
) -> Result<Decision, Memory>
    requires real { pos 1 ≤ℤ who.session }
    requires time { now < 2 ^ 62 }
    requires short { length asked.now.content.now ≤ max_frame }
    requires whole { IsWhole (req.Create asked.now.path.now asked.now.content.now asked.now.acl.now asked.now.flags) who view.now }
    ensures form { IfOk result (IsToldByForm (req.Create asked.now.path.now asked.now.content.now asked.now.acl.now asked.now.flags)) }
    ensures sound { IfOk result (IsBySound (req.Create asked.now.path.now asked.now.content.now asked.now.acl.now asked.now.flags) who view.now) }
    ensures tree { IfOk result (λ d. is_by_tree d ≡ true) }
    ensures plan { IfOk result (IfPlanned (IsGuarded (req.Create asked.now.path.now asked.now.content.now asked.now.acl.now asked.now.flags) who now view.now)) }
    ensures writes { IfOk result (IfPlanned (WritesAs (req.Create asked.now.path.now asked.now.content.now asked.now.acl.now asked.now.flags) who view.now)) }
{
    let sequential = is_sequential(asked.flags);
    let ephemeral = is_ephemeral(asked.flags);
    match create_form(alloc, asked.path, asked.acl, asked.flags)? {
        Form::Valid(named) => {
            let new = NewNode {
                path: asked.path,
                content: asked.content,
                sequential,
                ephemeral,
                session: who.session,
                time: now,
            };
            create_named(alloc, &new, named, view)
        }
        Form::Refused(code) => Ok(refused(code)),
    }
}

/// What a create still has to look up: nothing where its form is refused.
pub(crate) fn create_needs(
    alloc: Global,
    path: &[u8],
    acl: &[Acl],
    flags: i32,
    who: Who,
    view: &View,
) -> Result<Seq<Want>, Memory>
    requires real { pos 1 ≤ℤ who.session }
    ensures { IfOk result (λ ws. (content : ByteList) → AreNeeds (req.Create path.now content acl.now flags) who view.now ws) }
{
    let sequential = is_sequential(flags);
    let ephemeral = is_ephemeral(flags);
    match create_form(alloc, path, acl, flags)? {
        Form::Valid(named) => create_wants(
            alloc,
            view,
            who.session,
            path,
            &named.parent(alloc)?,
            sequential,
            ephemeral,
        ),
        Form::Refused(_) => Ok(Seq::new(alloc)),
    }
}
