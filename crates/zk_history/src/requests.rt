//! What a request does to the tree.

ghost use Rattle.std.specs.Prelude.{◌≡◌, ◌≤◌, length, option_map, IfOk, IfErr};
ghost use Rattle.zk_service.specs.States.{commit_single, commit_several, commit_with_stat, commit, made_stat};
ghost use Rattle.zk_model.specs.declared.request.Part.TheVariants as parts;
ghost use Rattle.zk_model.specs.declared.request.Request.TheVariants as requests;
ghost use Rattle.zk_model.specs.Single.{single};
ghost use Rattle.zk_model.specs.Multi.{several};
ghost use Rattle.zk_model.specs.Znodes.{Tree as Nodes};
ghost use Rattle.zk_machine.specs.Faults.{BeyondUnless, StaysWithin};
ghost use Rattle.zk_machine.specs.Outcomes.{outcome_of, several_as};
ghost use Rattle.zk_history.specs.Commits.{commit_of};
ghost use Rattle.zk_history.specs.Fits.{PartFits, RequestFits};

use crate::outcome::{Change, Commit};
use std::alloc::Global;
use zk_machine::{Fault, Outcome, Transaction, Tree, Turn, several, single};
use zk_model::flags::owner_of;
use zk_model::{Acl, Body, Part, Request, Stat};
use zk_service::{body_with_stat, response_of};
use zx_base::{Bytes, Seq, Text};

/// The Stat of the node that a create makes; `Beyond` where its data are too long for an `int`.
fn made_stat(content: &[u8], flags: i32, turn: &Turn) -> Result<Stat, Fault>
    ensures ok { IfOk result (λ s. s ≡ made_stat flags content.now turn.now.session turn.now.zxid turn.now.time) }
    ensures beyond { IfErr result (BeyondUnless (length content.now ≤ 2147483647)) }
{
    let Ok(data_length) = i32::try_from(content.len()) else {
        return Err(Fault::Beyond);
    };
    Ok(Stat {
        czxid: turn.zxid,
        mzxid: turn.zxid,
        ctime: turn.time as i64,
        mtime: turn.time as i64,
        version: 0,
        cversion: 0,
        aversion: 0,
        ephemeral_owner: owner_of(flags, turn.session),
        data_length,
        num_children: 0,
        pzxid: turn.zxid,
    })
}

/// What an outcome does, where it is not a refusal.
fn done(outcome: Outcome) -> Option<Commit>
    ensures { (t : Nodes) → option_map (commit_of t) result ≡ commit_single (outcome_of t outcome) }
{
    match outcome {
        Outcome::Refused(_) => None,
        Outcome::Done {
            result: given,
            edit,
            triggers,
        } => Some(Commit {
            response: response_of(given),
            change: Change::Edited(edit),
            triggers,
        }),
    }
}

fn commit_single(
    alloc: Global,
    tree: &Tree,
    turn: &Turn,
    part: &Part,
) -> Result<Option<Commit>, Fault>
    ensures ok { IfOk result (λ o. option_map (commit_of tree.now) o ≡ commit_single (single tree.now turn.now.limit turn.now.session part.now turn.now.zxid turn.now.time)) }
    ensures beyond { IfErr result (BeyondUnless (PartFits tree.now part.now)) }
{
    Ok(done(single(alloc, tree, turn, part)?))
}

/// What an outcome of a create2 does, where it is not a refusal.
fn done_with_stat(outcome: Outcome, stat: Stat) -> Option<Commit>
    ensures { (t : Nodes) → option_map (commit_of t) result ≡ commit_with_stat stat (outcome_of t outcome) }
{
    match outcome {
        Outcome::Refused(_) => None,
        Outcome::Done {
            result: given,
            edit,
            triggers,
        } => Some(Commit {
            response: body_with_stat(response_of(given), stat),
            change: Change::Edited(edit),
            triggers,
        }),
    }
}

fn commit_with_stat(
    alloc: Global,
    tree: &Tree,
    turn: &Turn,
    part: &Part,
    stat: Stat,
) -> Result<Option<Commit>, Fault>
    ensures ok { IfOk result (λ o. option_map (commit_of tree.now) o ≡ commit_with_stat stat (single tree.now turn.now.limit turn.now.session part.now turn.now.zxid turn.now.time)) }
    ensures beyond { IfErr result (BeyondUnless (PartFits tree.now part.now)) }
{
    Ok(done_with_stat(single(alloc, tree, turn, part)?, stat))
}

/// What a create2 does, where it is not refused.
#[tactic(auto, unfolding(zk_service::specs::States::commit))]
fn commit_create2(
    alloc: Global,
    tree: &Tree,
    turn: &Turn,
    path: Text,
    content: Bytes,
    acl: Seq<Acl>,
    flags: i32,
) -> Result<Option<Commit>, Fault>
    ensures ok { IfOk result (λ o. option_map (commit_of tree.now) o ≡ commit tree.now turn.now.limit turn.now.session (requests.Create2 path content acl flags) turn.now.zxid turn.now.time) }
    ensures beyond { IfErr result (BeyondUnless (PartFits tree.now (parts.Create path content acl flags))) }
{
    let stat = made_stat(content.as_slice(), flags, turn)?;
    let part = Part::Create {
        path,
        content,
        acl,
        flags,
    };
    Ok(commit_with_stat(alloc, tree, turn, &part, stat)?)
}

/// What a transaction does, where all its parts succeed.
fn all_done(transaction: Transaction) -> Option<Commit>
    ensures { (t : Nodes) → option_map (commit_of t) result ≡ commit_several (several_as t transaction) }
{
    match transaction {
        Transaction::Denied(_) => None,
        Transaction::Codes(_) => None,
        Transaction::All {
            results,
            writes,
            triggers,
        } => Some(Commit {
            response: Body::Parts(results),
            change: Change::Written(writes),
            triggers,
        }),
    }
}

fn commit_several(
    alloc: Global,
    tree: &Tree,
    turn: &Turn,
    parts: &[Part],
) -> Result<Option<Commit>, Fault>
    ensures ok { IfOk result (λ o. option_map (commit_of tree.now) o ≡ commit_several (several tree.now turn.now.limit turn.now.session parts.now turn.now.zxid turn.now.time)) }
    ensures beyond { IfErr result (BeyondUnless (StaysWithin tree.now turn.now.limit turn.now.session parts.now turn.now.zxid turn.now.time)) }
{
    Ok(all_done(several(alloc, tree, turn, parts)?))
}

/// What a create, create2, delete, setData or multi does, where it is not refused; any other request does nothing. Faults as
/// [`crate::change`] does.
#[tactic(auto, unfolding(zk_service::specs::States::commit))]
pub fn commit(
    alloc: Global,
    tree: &Tree,
    turn: &Turn,
    request: Request,
) -> Result<Option<Commit>, Fault>
    ensures ok { IfOk result (λ o. option_map (commit_of tree.now) o ≡ commit tree.now turn.now.limit turn.now.session request turn.now.zxid turn.now.time) }
    ensures beyond { IfErr result (BeyondUnless (RequestFits tree.now turn.now.limit turn.now.session request turn.now.zxid turn.now.time)) }
{
    match request {
        Request::Create {
            path,
            content,
            acl,
            flags,
        } => {
            let part = Part::Create {
                path,
                content,
                acl,
                flags,
            };
            Ok(commit_single(alloc, tree, turn, &part)?)
        }
        Request::Create2 {
            path,
            content,
            acl,
            flags,
        } => commit_create2(alloc, tree, turn, path, content, acl, flags),
        Request::Delete { path, version } => {
            let part = Part::Delete { path, version };
            Ok(commit_single(alloc, tree, turn, &part)?)
        }
        Request::SetData {
            path,
            content,
            version,
        } => {
            let part = Part::SetData {
                path,
                content,
                version,
            };
            Ok(commit_single(alloc, tree, turn, &part)?)
        }
        Request::Multi { parts } => Ok(commit_several(alloc, tree, turn, parts.as_slice())?),
        _ => Ok(None),
    }
}
