//! One request that may be part of a transaction, on the tree that the parts before it left.

#![tactic(auto, unfolding(zk_model::specs::Single::single, zk_model::specs::Single::form_refusal, zk_model::specs::Single::effect))]

ghost use Rattle.std.specs.Prelude.{◌≡◌, ◌≤◌, length, IfOk, IfErr};
ghost use Rattle.zk_model.specs.declared.request.Part.TheVariants as part;
ghost use Rattle.zk_model.specs.Single.{single};
ghost use Rattle.zk_model.specs.Multi.{data_len};
ghost use Rattle.zk_machine.specs.Faults.{BeyondUnless, IsWithin};
ghost use Rattle.zk_machine.specs.Outcomes.{outcome_of};
ghost use Rattle.zk_model.specs.Limits.{max_frame};

use crate::create::create;
use crate::delete::delete;
use crate::draft::Draft;
use crate::fault::Fault;
use crate::outcome::Outcome;
use crate::turn::Turn;
use crate::update::{check, set_data};
use std::alloc::Global;
use zk_model::access::is_open_acl;
use zk_model::code::{BAD_ARGUMENTS, INVALID_ACL};
use zk_model::flags::{is_create_mode, is_sequential};
use zk_model::{Acl, Part, read_path};
use zx_base::Memory;

/// A create (Programmer's Guide, "ZNodes", "Sequence Nodes -- Unique Naming").
pub fn single_create(
    alloc: Global,
    tree: &Draft,
    turn: &Turn,
    text: &[u8],
    content: &[u8],
    acl: &[Acl],
    flags: i32,
) -> Result<Outcome, Fault>
    ensures ok { IfOk result (λ o. outcome_of tree.now o ≡ single tree.now turn.now.limit turn.now.session (part.Create text.now content.now acl.now flags) turn.now.zxid turn.now.time) }
    ensures beyond { IfErr result (BeyondUnless (IsWithin tree.now)) }
{
    let Some(named) = read_path(alloc, text, is_sequential(flags))? else {
        return Ok(Outcome::Refused(BAD_ARGUMENTS));
    };
    if !is_create_mode(flags) {
        return Ok(Outcome::Refused(BAD_ARGUMENTS));
    }
    if !is_open_acl(acl) {
        return Ok(Outcome::Refused(INVALID_ACL));
    }
    Ok(create(alloc, tree, turn, flags, content, text, named)?)
}

/// A delete.
pub fn single_delete(
    alloc: Global,
    tree: &Draft,
    turn: &Turn,
    text: &[u8],
    version: i32,
) -> Result<Outcome, Memory>
    ensures { IfOk result (λ o. outcome_of tree.now o ≡ single tree.now turn.now.limit turn.now.session (part.Delete text.now version) turn.now.zxid turn.now.time) }
{
    match read_path(alloc, text, false)? {
        Some(path) if path.bytes() != b"/".as_slice() => Ok(delete(
            alloc, tree, path, version, turn.zxid,
        )?),
        _ => Ok(Outcome::Refused(BAD_ARGUMENTS)),
    }
}

/// A setData.
pub fn single_set_data(
    alloc: Global,
    tree: &Draft,
    turn: &Turn,
    text: &[u8],
    content: &[u8],
    version: i32,
) -> Result<Outcome, Fault>
    ensures ok { IfOk result (λ o. outcome_of tree.now o ≡ single tree.now turn.now.limit turn.now.session (part.SetData text.now content.now version) turn.now.zxid turn.now.time) }
    ensures beyond { IfErr result (BeyondUnless (IsWithin tree.now × (length content.now ≤ max_frame))) }
{
    match read_path(alloc, text, false)? {
        Some(path) => Ok(set_data(alloc, tree, turn, path, content, version)?),
        None => Ok(Outcome::Refused(BAD_ARGUMENTS)),
    }
}

/// A check, which changes nothing.
pub fn single_check(
    alloc: Global,
    tree: &Draft,
    turn: &Turn,
    text: &[u8],
    version: i32,
) -> Result<Outcome, Memory>
    ensures { IfOk result (λ o. outcome_of tree.now o ≡ single tree.now turn.now.limit turn.now.session (part.Check text.now version) turn.now.zxid turn.now.time) }
{
    match read_path(alloc, text, false)? {
        Some(path) => Ok(check(alloc, tree, path, version)?),
        None => Ok(Outcome::Refused(BAD_ARGUMENTS)),
    }
}

/// What one create, delete, setData or check makes of the tree.
pub fn single(alloc: Global, tree: &Draft, turn: &Turn, part: &Part) -> Result<Outcome, Fault>
    ensures ok { IfOk result (λ o. outcome_of tree.now o ≡ single tree.now turn.now.limit turn.now.session part.now turn.now.zxid turn.now.time) }
    ensures beyond { IfErr result (BeyondUnless (IsWithin tree.now × (data_len part.now ≤ max_frame))) }
{
    match part {
        Part::Create {
            path,
            content,
            acl,
            flags,
        } => Ok(single_create(
            alloc,
            tree,
            turn,
            path.as_slice(),
            content.as_slice(),
            acl.as_slice(),
            *flags,
        )?),
        Part::Delete { path, version } => {
            let text = path.as_slice();
            Ok(single_delete(alloc, tree, turn, text, *version)?)
        }
        Part::SetData {
            path,
            content,
            version,
        } => Ok(single_set_data(
            alloc,
            tree,
            turn,
            path.as_slice(),
            content.as_slice(),
            *version,
        )?),
        Part::Check { path, version } => {
            let text = path.as_slice();
            Ok(single_check(alloc, tree, turn, text, *version)?)
        }
    }
}
