//! What is done at each answer.

ghost use Rattle.std.specs.Prelude.{pos, ◌≤ℤ◌, true, false, [], IfOk, IfErr};
ghost use Rattle.ev_types.specs.declared.ask.Ask.TheVariants as asks;
ghost use Rattle.zn_view.specs.Adding.{AreNumbers};
ghost use Rattle.zn_view.specs.Asks.{reading as reading_ask};
ghost use Rattle.zn_view.specs.Seen.{IsCountNumber};
ghost use Rattle.zs_session.specs.Answering.{IsAnswerTo, IsLookFault, OfTxn, OfAlive};
ghost use Rattle.zs_session.specs.Connecting.{ConnectLooked, Created, Kept, ConnectLookedAgain, Attached, IsResumable, IsFaultOfConnect, timeout_in};
ghost use Rattle.zs_session.specs.Sessions.{first_wants as wants_of_first, attach_wants as wants_of_attach, session_wants as wants_of_session, new_session_txn, attach_txn};
ghost use Rattle.zs_session.specs.declared.connect.Phase.TheVariants as phases;

use crate::asks::{attach_wants, first_wants, granted_timeout, session_wants};
use crate::attached::attached;
use crate::connect::{Connect, ConnectStep};
use crate::fault::StepFault;
use crate::first::{attached_by_view, begun};
use crate::looks::{is_taken, look};
use crate::moves::{Move, attach, create, end, look_again};
use ev_types::{ActAns, Answer};
use std::alloc::Global;
use zn_layout::LeaseRec;

fn looked_at(
    alloc: Global,
    connect: &Connect,
    revision: i64,
    parts: &[ActAns],
) -> Result<Move, StepFault>
    requires revision { IsCountNumber revision }
    requires numbers { AreNumbers parts.now }
    ensures ok { IfOk result (λ m. ConnectLooked connect.now revision parts.now m.phase m.step) }
    ensures fault { IfErr result (IsLookFault (wants_of_first connect.now.request) parts.now) }
{
    let wants = first_wants(alloc, &connect.request)?;
    let view = look(alloc, wants.as_slice(), revision, parts)?;
    Ok(begun(alloc, connect, &view)?)
}

/// What follows the first look, at the head and at the life of the session that is to be resumed.
pub(crate) fn looked(alloc: Global, connect: &Connect, answer: &Answer) -> Result<Move, StepFault>
    requires { IsAnswerTo (reading_ask (pos 0) (wants_of_first connect.now.request)) answer.now }
    ensures ok { IfOk result (λ m. OfTxn answer.now (λ revision succeeded parts. ConnectLooked connect.now revision parts m.phase m.step)) }
    ensures fault { IfErr result (IsFaultOfConnect connect.now phases.Looking answer.now) }
{
    match answer {
        Answer::Txn {
            revision,
            parts,
            ..
        } => looked_at(alloc, connect, *revision, parts.as_slice()),
        Answer::Range { .. } | Answer::Granted { .. } | Answer::Alive { .. } => unreachable!(),
    }
}

fn taken(
    alloc: Global,
    connect: &Connect,
    revision: i64,
    parts: &[ActAns],
) -> Result<Move, StepFault>
    requires least { pos 1 ≤ℤ connect.now.fresh.id }
    requires revision { IsCountNumber revision }
    requires numbers { AreNumbers parts.now }
    ensures ok { IfOk result (λ m. Created connect.now revision false parts.now m.phase m.step) }
    ensures fault { IfErr result (IsLookFault (wants_of_session connect.now.fresh.id) parts.now) }
{
    let id = connect.fresh.id;
    let wants = session_wants(alloc, id)?;
    let view = look(alloc, wants.as_slice(), revision, parts)?;
    if is_taken(alloc, id, &view)? {
        return Ok(end(ConnectStep::Taken { rev: revision }));
    }
    Ok(create(alloc, connect)?)
}

fn new_session(connect: &Connect, revision: i64, parts: &[ActAns]) -> Move
    ensures { Created connect.now revision true parts.now result.phase result.step }
{
    let fresh = &connect.fresh;
    let timeout = granted_timeout(connect.request.timeout);
    end(attached(
        &connect.request,
        fresh.id,
        timeout,
        fresh.passwd,
        revision,
        parts,
    ))
}

/// What follows the transaction of a new session: it is there, or a guard failed and its keys were read.
pub(crate) fn created(alloc: Global, connect: &Connect, answer: &Answer) -> Result<Move, StepFault>
    requires least { pos 1 ≤ℤ connect.now.fresh.id }
    requires awaited { IsAnswerTo (asks.Txn (new_session_txn connect.now.fresh (timeout_in connect.now))) answer.now }
    ensures ok { IfOk result (λ m. OfTxn answer.now (λ revision succeeded parts. Created connect.now revision succeeded parts m.phase m.step)) }
    ensures fault { IfErr result (IsFaultOfConnect connect.now phases.Creating answer.now) }
{
    match answer {
        Answer::Txn {
            revision,
            succeeded: true,
            parts,
        } => Ok(new_session(connect, *revision, parts.as_slice())),
        Answer::Txn {
            revision,
            succeeded: false,
            parts,
        } => taken(alloc, connect, *revision, parts.as_slice()),
        Answer::Range { .. } | Answer::Granted { .. } | Answer::Alive { .. } => unreachable!(),
    }
}

/// What follows a keepalive, whose answer has the seconds that the lease has left.
pub(crate) fn kept_alive(
    alloc: Global,
    connect: &Connect,
    seen: i64,
    life: LeaseRec,
    answer: &Answer,
) -> Result<Move, StepFault>
    requires resumable { IsResumable connect.now.request life }
    requires awaited { IsAnswerTo (asks.Alive connect.now.request.session) answer.now }
    ensures ok { IfOk result (λ m. OfAlive answer.now (λ seconds. Kept connect.now seen life seconds m.phase m.step)) }
    ensures fault { IfErr result (IsLookFault [] []) }
{
    match answer {
        Answer::Alive { ttl: 0, .. } => Ok(look_again(alloc, connect)?),
        Answer::Alive { .. } => Ok(attach(alloc, connect, seen, life)?),
        Answer::Txn { .. } | Answer::Range { .. } | Answer::Granted { .. } => unreachable!(),
    }
}

fn looked_again_at(
    alloc: Global,
    connect: &Connect,
    revision: i64,
    parts: &[ActAns],
) -> Result<Move, StepFault>
    requires session { pos 1 ≤ℤ connect.now.request.session }
    requires revision { IsCountNumber revision }
    requires numbers { AreNumbers parts.now }
    ensures ok { IfOk result (λ m. ConnectLookedAgain connect.now revision parts.now m.phase m.step) }
    ensures fault { IfErr result (IsLookFault (wants_of_attach connect.now.request.session) parts.now) }
{
    let wants = attach_wants(alloc, connect.request.session)?;
    let view = look(alloc, wants.as_slice(), revision, parts)?;
    Ok(attached_by_view(alloc, connect, &view)?)
}

/// What follows the second look, at the life of the session and at the head.
pub(crate) fn looked_again(
    alloc: Global,
    connect: &Connect,
    answer: &Answer,
) -> Result<Move, StepFault>
    requires session { pos 1 ≤ℤ connect.now.request.session }
    requires awaited { IsAnswerTo (reading_ask (pos 0) (wants_of_attach connect.now.request.session)) answer.now }
    ensures ok { IfOk result (λ m. OfTxn answer.now (λ revision succeeded parts. ConnectLookedAgain connect.now revision parts m.phase m.step)) }
    ensures fault { IfErr result (IsFaultOfConnect connect.now phases.LookingAgain answer.now) }
{
    match answer {
        Answer::Txn {
            revision,
            parts,
            ..
        } => looked_again_at(alloc, connect, *revision, parts.as_slice()),
        Answer::Range { .. } | Answer::Granted { .. } | Answer::Alive { .. } => unreachable!(),
    }
}

fn old_session(connect: &Connect, life: &LeaseRec, revision: i64, parts: &[ActAns]) -> Move
    ensures { Attached connect.now life.now revision true parts.now result.phase result.step }
{
    end(attached(
        &connect.request,
        connect.request.session,
        life.timeout,
        life.passwd,
        revision,
        parts,
    ))
}

/// What follows the transaction of an attachment: the session is attached, or the guard failed and its life was read again.
pub(crate) fn attached_anew(
    alloc: Global,
    connect: &Connect,
    seen: i64,
    life: LeaseRec,
    answer: &Answer,
) -> Result<Move, StepFault>
    requires resumable { IsResumable connect.now.request life }
    requires awaited { IsAnswerTo (asks.Txn (attach_txn connect.now.request.session seen life)) answer.now }
    ensures ok { IfOk result (λ m. OfTxn answer.now (λ revision succeeded parts. Attached connect.now life revision succeeded parts m.phase m.step)) }
    ensures fault { IfErr result (IsFaultOfConnect connect.now (phases.Attaching seen life) answer.now) }
{
    let _seen = seen;
    match answer {
        Answer::Txn {
            revision,
            succeeded: true,
            parts,
        } => Ok(old_session(connect, &life, *revision, parts.as_slice())),
        Answer::Txn {
            revision,
            succeeded: false,
            parts,
        } => looked_again_at(alloc, connect, *revision, parts.as_slice()),
        Answer::Range { .. } | Answer::Granted { .. } | Answer::Alive { .. } => unreachable!(),
    }
}
