//! A part of a multi, chosen on a view over which the keys are laid that the earlier parts wrote.

ghost use Rattle.std.specs.Prelude.{◌<◌, ◌^◌, ◌≡◌, ◌≤◌, ◌≤ℤ◌, Some, pos, length, IfOk, IfSome, IsTrue, IsFalse, option_copied};
ghost use Rattle.zk_model.specs.Limits.{max_frame};
ghost use Rattle.zk_model.specs.Paths.{is_path, is_sequence_prefix};
ghost use Rattle.zk_model.specs.declared.request.Part.TheVariants as parts;
ghost use Rattle.zn_updates.specs.Layers.{layered};
ghost use Rattle.zn_updates.specs.Making.{chosen_of};
ghost use Rattle.zn_updates.specs.Parts.{check_choice, part_content, IsCreatedBelow, IsDeletedBelow, IsPartChoice, IfNodes};
ghost use Rattle.zn_updates.specs.Seen.{IsDataWithin};
ghost use Rattle.zn_layout.specs.Records.{IsSessionRec};
ghost use Rattle.zn_view.specs.declared.plan.Who.{Who as AnyWho};
ghost use Rattle.std.specs.Prelude.{true};

use crate::asked::{CreateAsked, NewNode, asked};
use crate::chosen::{Chosen, Update};
use crate::create::{choose_create, path_of};
use crate::delete::choose_delete;
use crate::form::{Form, create_form, inner_path};
use crate::layers::{counts_over, data_over, is_there_over, nodes_over};
use crate::seen::{SeenData, SeenNode};
use crate::set_data::choose_set_data;
use std::alloc::Global;
use zk_model::code::{BAD_ARGUMENTS, BAD_VERSION, NO_NODE, NODE_EXISTS};
use zk_model::flags::{is_ephemeral, is_sequential};
use zk_model::version::matches;
use zk_model::{Part, PartResult, Path, read_path};
use zn_layout::SessionRec;
use zn_view::{View, Who};
use zx_base::{Memory, Seq};

/// The record of the session's nodes, for an ephemeral node.
fn own_nodes_over(
    alloc: Global,
    over: &View,
    view: &View,
    session: i64,
    ephemeral: bool,
) -> Result<Option<SessionRec>, Memory>
    requires real { pos 1 ≤ℤ session }
    ensures is { IfOk result (λ o. ephemeral ≡ true → IfNodes (layered over.now view.now) session o) }
    ensures within { IfOk result (λ o. IfSome o IsSessionRec) }
{
    if ephemeral {
        nodes_over(alloc, over, view, session)
    } else {
        Ok(None)
    }
}

/// Chooses a create below a parent.
fn created_below(
    alloc: Global,
    new: &NewNode<'_>,
    named: Path,
    parent: &Path,
    over: &View,
    view: &View,
) -> Result<Chosen, Memory>
    requires parent { IsTrue (is_path parent.now) }
    requires time { new.now.time < 2 ^ 62 }
    requires short { length new.now.content.now ≤ max_frame }
    requires real { pos 1 ≤ℤ new.now.session }
    requires prefix { IsTrue new.now.sequential → IsTrue (is_sequence_prefix new.now.path.now) }
    requires named { IsFalse new.now.sequential → named ≡ new.now.path.now }
    ensures { IfOk result (IsCreatedBelow (layered over.now view.now) new.now.path.now new.now.content.now new.now.time new.now.sequential new.now.ephemeral new.now.session parent.now) }
{
    let up = data_over(alloc, over, view, parent)?;
    let above = counts_over(alloc, over, view, parent, up.as_ref())?;
    let path = path_of(alloc, new.path, named, new.sequential, &above)?;
    let taken = is_there_over(alloc, over, view, &path)?;
    let nodes = own_nodes_over(alloc, over, view, new.session, new.ephemeral)?;
    let seen = SeenNode {
        data: up,
        counts: above,
    };
    choose_create(alloc, &path, parent, new, &seen, taken, nodes)
}

fn created(
    alloc: Global,
    asked: &CreateAsked<'_>,
    who: Who,
    now: u64,
    over: &View,
    view: &View,
) -> Result<Chosen, Memory>
    requires time { now < 2 ^ 62 }
    requires short { length asked.now.content.now ≤ max_frame }
    requires real { pos 1 ≤ℤ who.session }
    ensures { IfOk result (IsPartChoice (parts.Create asked.now.path.now asked.now.content.now asked.now.acl.now asked.now.flags) who now (layered over.now view.now)) }
{
    let named = match create_form(alloc, asked.path, asked.acl, asked.flags)? {
        Form::Valid(named) => named,
        Form::Refused(code) => return Ok(Chosen::Refused(code)),
    };
    match named.parent(alloc)? {
        Some(parent) => {
            let new = NewNode {
                path: asked.path,
                content: asked.content,
                sequential: is_sequential(asked.flags),
                ephemeral: is_ephemeral(asked.flags),
                session: who.session,
                time: now,
            };
            created_below(alloc, &new, named, &parent, over, view)
        }
        None => Ok(Chosen::Refused(NODE_EXISTS)),
    }
}

/// The record of the nodes of a node's owner, none where it has no owner.
fn owner_nodes_over(
    alloc: Global,
    over: &View,
    view: &View,
    node: &Option<SeenData>,
) -> Result<Option<SessionRec>, Memory>
    requires within { IfSome node.now IsDataWithin }
    ensures is { IfOk result (λ o. IfSome node.now (λ x. (x.owner ≡ pos 0 → ⊥) → IfNodes (layered over.now view.now) x.owner o)) }
    ensures within { IfOk result (λ o. IfSome o IsSessionRec) }
{
    match node {
        Some(node) if node.owner != 0 => nodes_over(alloc, over, view, node.owner),
        Some(_) | None => Ok(None),
    }
}

fn deleted_below(
    alloc: Global,
    path: &Path,
    parent: &Path,
    version: i32,
    over: &View,
    view: &View,
) -> Result<Chosen, Memory>
    requires valid { IsTrue (is_path path.now) }
    requires parent { IsTrue (is_path parent.now) }
    ensures { IfOk result (IsDeletedBelow (layered over.now view.now) path.now version parent.now) }
{
    let node = data_over(alloc, over, view, path)?;
    let counts = counts_over(alloc, over, view, path, node.as_ref())?;
    let above = counts_over(alloc, over, view, parent, None)?;
    let nodes = owner_nodes_over(alloc, over, view, &node)?;
    let here = SeenNode { data: node, counts };
    choose_delete(alloc, path, parent, version, &here, above.as_ref(), nodes)
}

fn deleted(
    alloc: Global,
    path: &[u8],
    version: i32,
    who: Who,
    now: u64,
    over: &View,
    view: &View,
) -> Result<Chosen, Memory>
    ensures { IfOk result (IsPartChoice (parts.Delete path.now version) who now (layered over.now view.now)) }
{
    let _whose = (who, now);
    match inner_path(alloc, path)? {
        Some(path) => match path.parent(alloc)? {
            Some(parent) => deleted_below(alloc, &path, &parent, version, over, view),
            None => Ok(Chosen::Refused(NO_NODE)),
        },
        None => Ok(Chosen::Refused(BAD_ARGUMENTS)),
    }
}

fn set(
    alloc: Global,
    path: &[u8],
    content: &[u8],
    version: i32,
    now: u64,
    over: &View,
    view: &View,
) -> Result<Chosen, Memory>
    requires time { now < 2 ^ 62 }
    requires short { length content.now ≤ max_frame }
    ensures { (who : AnyWho) → IfOk result (IsPartChoice (parts.SetData path.now content.now version) who now (layered over.now view.now)) }
{
    match read_path(alloc, path, false)? {
        Some(path) => {
            let node = data_over(alloc, over, view, &path)?;
            let counts = counts_over(alloc, over, view, &path, node.as_ref())?;
            choose_set_data(
                alloc,
                &path,
                content,
                version,
                now,
                node.as_ref(),
                counts.as_ref(),
            )
        }
        None => Ok(Chosen::Refused(BAD_ARGUMENTS)),
    }
}

/// Decides a check by its node's record.
#[tactic(auto, unfolding(crate::specs::Parts::check_choice))]
fn choose_check(alloc: Global, version: i32, node: Option<&SeenData>) -> Chosen
    ensures { result ≡ chosen_of (check_choice version (option_copied node.entry)) }
{
    let Some(node) = node else {
        return Chosen::Refused(NO_NODE);
    };
    if !matches(version, node.version) {
        return Chosen::Refused(BAD_VERSION);
    }
    Chosen::Made(Update {
        acts: Seq::new(alloc),
        triggers: Seq::new(alloc),
        draft: PartResult::Checked,
    })
}

fn checked(
    alloc: Global,
    path: &[u8],
    version: i32,
    who: Who,
    now: u64,
    over: &View,
    view: &View,
) -> Result<Chosen, Memory>
    ensures { IfOk result (IsPartChoice (parts.Check path.now version) who now (layered over.now view.now)) }
{
    let _whose = (who, now);
    match read_path(alloc, path, false)? {
        Some(path) => {
            let node = data_over(alloc, over, view, &path)?;
            Ok(choose_check(alloc, version, node.as_ref()))
        }
        None => Ok(Chosen::Refused(BAD_ARGUMENTS)),
    }
}

/// Chooses what comes of a part of a multi, by its form and by what `view` shows with `over` laid over it. A key that neither view
/// saw counts as absent. `now` is in milliseconds since 1970, below 2^62; the session's number is at least 1.
pub fn choose_part(
    alloc: Global,
    part: &Part,
    who: Who,
    now: u64,
    over: &View,
    view: &View,
) -> Result<Chosen, Memory>
    requires time { now < 2 ^ 62 }
    requires short { length (part_content part.now) ≤ max_frame }
    requires real { pos 1 ≤ℤ who.session }
    ensures { IfOk result (IsPartChoice part.now who now (layered over.now view.now)) }
{
    match part {
        Part::Create {
            path,
            content,
            acl,
            flags,
        } => created(
            alloc,
            &asked(path, content, acl, *flags),
            who,
            now,
            over,
            view,
        ),
        Part::Delete { path, version } => {
            deleted(alloc, path.as_slice(), *version, who, now, over, view)
        }
        Part::SetData {
            path,
            content,
            version,
        } => set(
            alloc,
            path.as_slice(),
            content.as_slice(),
            *version,
            now,
            over,
            view,
        ),
        Part::Check { path, version } => {
            checked(alloc, path.as_slice(), *version, who, now, over, view)
        }
    }
}
