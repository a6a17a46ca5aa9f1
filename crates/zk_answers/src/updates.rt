//! What the tree answers: reads, and refusals of updates.

ghost use Rattle.std.specs.Prelude.{◌≡◌, Some, option_map, pos, IfOk, IfErr, IsTrue};
ghost use Rattle.zk_model.specs.declared.reply.Body.TheVariants as body;
ghost use Rattle.zk_model.specs.declared.reply.Reply.TheVariants as reply;
ghost use Rattle.zk_service.specs.Answers.{told, checked, refusal_of, refusal_of_several, rearmed, tree_reply};
ghost use Rattle.zk_model.specs.Watches.{set_watches};
ghost use Rattle.zk_model.specs.Znodes.{Tree as Nodes};
ghost use Rattle.zk_machine.specs.Faults.{BeyondUnless};
ghost use Rattle.zk_machine.specs.Outcomes.{outcome_of, several_as};
ghost use Rattle.zk_answers.specs.Fits.{FitsRequest};
ghost use Rattle.zk_model.specs.Kinds.{is_update};
ghost use Rattle.zk_answers.specs.Outcomes.{seen_of, told_of};

use crate::reads::{exists, get_acl, get_children, get_children2, get_data};
use crate::rearm::set_watches;
use crate::told::{Told, good, refused};
use crate::watches::{Seen, Watches};
use std::alloc::Global;
use zk_machine::{
    Fault, Outcome, Transaction, Tree, Turn, several, single_check, single_create, single_delete,
    single_set_data,
};
use zk_model::{Body, Reply, Request};
use zx_base::{Memory, Seq, Text};

/// The refusal of an update; one that succeeds is not answered here, but by what it commits.
fn refusal_of(alloc: Global, watches: &Watches, outcome: Outcome) -> Result<Option<Told>, Memory>
    ensures { IfOk result (λ o. (t : Nodes) → option_map told_of o ≡ refusal_of watches.now (outcome_of t outcome)) }
{
    match outcome {
        Outcome::Refused(code) => Ok(Some(refused(alloc, watches.copy()?, code))),
        Outcome::Done { .. } => Ok(None),
    }
}

/// The answer to a check, which by itself is a read.
fn checked(alloc: Global, watches: &Watches, outcome: Outcome) -> Result<Told, Memory>
    ensures { IfOk result (λ t. (nodes : Nodes) → Some (told_of t) ≡ checked watches.now (outcome_of nodes outcome)) }
{
    match outcome {
        Outcome::Refused(code) => Ok(refused(alloc, watches.copy()?, code)),
        Outcome::Done { .. } => Ok(good(alloc, watches.copy()?, Body::Empty)),
    }
}

fn refusal_of_several(
    alloc: Global,
    watches: &Watches,
    transaction: Transaction,
) -> Result<Option<Told>, Memory>
    ensures { IfOk result (λ o. (t : Nodes) → option_map told_of o ≡ refusal_of_several watches.now (several_as t transaction)) }
{
    match transaction {
        Transaction::Denied(code) => Ok(Some(refused(alloc, watches.copy()?, code))),
        Transaction::Codes(row) => Ok(Some(good(alloc, watches.copy()?, Body::Parts(row)))),
        Transaction::All { .. } => Ok(None),
    }
}

fn sync(alloc: Global, watches: &Watches, path: &Text) -> Result<Told, Memory>
    ensures { IfOk result (λ t. Some (told_of t) ≡ told watches.now (reply.Good (body.Path path.now))) }
{
    let path = Text::copy_of(alloc, path.as_slice())?;
    Ok(good(alloc, watches.copy()?, Body::Path(path)))
}

/// The reply to a setWatches.
fn rearmed(seen: Seen) -> Told
    ensures { Some (told_of result) ≡ rearmed (seen_of seen) }
{
    Told {
        reply: Reply::Good(Body::Empty),
        notices: seen.notices,
        watches: seen.watches,
    }
}

/// The answer to a setWatches: it tells and arms what a client missed since `since`, a zxid.
fn rearm(
    alloc: Global,
    tree: &Tree,
    watches: &Watches,
    since: i64,
    datas: &Seq<Text>,
    exists: &Seq<Text>,
    children: &Seq<Text>,
) -> Result<Told, Memory>
    ensures { IfOk result (λ t. Some (told_of t) ≡ rearmed (set_watches tree.now since datas.now exists.now children.now watches.now)) }
{
    let seen = set_watches(
        alloc,
        tree,
        since,
        datas.as_slice(),
        exists.as_slice(),
        children.as_slice(),
        watches,
    )?;
    Ok(rearmed(seen))
}

/// The turn of an update of which only a refusal is asked: that depends on neither its zxid nor its time.
fn looking(limit: usize, session: i64) -> Turn
    ensures { (result.limit ≡ limit) × (result.session ≡ session) × (result.zxid ≡ pos 0) × (result.time ≡ 0) }
{
    Turn {
        limit,
        session,
        zxid: 0,
        time: 0,
    }
}

/// The refusal of a create, with or without Stat, a delete or a setData; one that succeeds has none.
#[tactic(auto, unfolding(zk_service::specs::Answers::tree_reply))]
fn update_refusal(
    alloc: Global,
    tree: &Tree,
    limit: usize,
    session: i64,
    watches: &Watches,
    request: &Request,
) -> Result<Option<Told>, Fault>
    requires update { IsTrue (is_update request.now) }
    ensures ok { IfOk result (λ o. option_map told_of o ≡ tree_reply tree.now limit session watches.now request.now) }
    ensures beyond { IfErr result (BeyondUnless (FitsRequest tree.now limit session request.now (pos 0) 0)) }
{
    let turn = looking(limit, session);
    match request {
        Request::Create {
            path,
            content,
            acl,
            flags,
        }
        | Request::Create2 {
            path,
            content,
            acl,
            flags,
        } => {
            let path = path.as_slice();
            let content = content.as_slice();
            let acl = acl.as_slice();
            let outcome = single_create(alloc, tree, &turn, path, content, acl, *flags)?;
            Ok(refusal_of(alloc, watches, outcome)?)
        }
        Request::Delete { path, version } => {
            let outcome = single_delete(alloc, tree, &turn, path.as_slice(), *version)?;
            Ok(refusal_of(alloc, watches, outcome)?)
        }
        Request::SetData {
            path,
            content,
            version,
        } => {
            let path = path.as_slice();
            let content = content.as_slice();
            let outcome = single_set_data(alloc, tree, &turn, path, content, *version)?;
            Ok(refusal_of(alloc, watches, outcome)?)
        }
        _ => unreachable!(),
    }
}

/// The tree's answer to a session that may own `limit` ephemeral nodes: to a read, to a setWatches, and to an update that is
/// refused. One that succeeds has no answer here, and neither has a request that needs no tree.
#[tactic(auto, unfolding(zk_service::specs::Answers::tree_reply))]
pub fn tree_reply(
    alloc: Global,
    tree: &Tree,
    limit: usize,
    session: i64,
    watches: &Watches,
    request: &Request,
) -> Result<Option<Told>, Fault>
    ensures ok { IfOk result (λ o. option_map told_of o ≡ tree_reply tree.now limit session watches.now request.now) }
    ensures beyond { IfErr result (BeyondUnless (FitsRequest tree.now limit session request.now (pos 0) 0)) }
{
    let turn = looking(limit, session);
    match request {
        Request::Exists { path, watch } => Ok(Some(exists(alloc, tree, watches, path, *watch)?)),
        Request::GetData { path, watch } => Ok(Some(get_data(alloc, tree, watches, path, *watch)?)),
        Request::GetAcl { path } => Ok(Some(get_acl(alloc, tree, watches, path)?)),
        Request::GetChildren { path, watch } => Ok(Some(get_children(
            alloc, tree, watches, path, *watch,
        )?)),
        Request::GetChildren2 { path, watch } => Ok(Some(get_children2(
            alloc, tree, watches, path, *watch,
        )?)),
        Request::Sync { path } => Ok(Some(sync(alloc, watches, path)?)),
        Request::SetWatches {
            relative,
            exists,
            datas,
            children,
        } => Ok(Some(rearm(alloc, tree, watches, *relative, datas, exists, children)?)),
        Request::Check { path, version } => {
            let outcome = single_check(alloc, tree, &turn, path.as_slice(), *version)?;
            Ok(Some(checked(alloc, watches, outcome)?))
        }
        Request::Create { .. }
        | Request::Create2 { .. }
        | Request::Delete { .. }
        | Request::SetData { .. } => {
            update_refusal(alloc, tree, limit, session, watches, request)
        }
        Request::Multi { parts } => {
            let transaction = several(alloc, tree, &turn, parts.as_slice())?;
            Ok(refusal_of_several(alloc, watches, transaction)?)
        }
        Request::Ping
        | Request::Auth { .. }
        | Request::Close
        | Request::CheckWatches { .. }
        | Request::RemoveWatches { .. } => Ok(None),
    }
}
