//! What follows the answer to a round of a request.

ghost use Rattle.std.specs.Prelude.{◌≡◌, ◌≤◌, ◌≤ℤ◌, pos, true, IfOk, IfErr, IsTrue, OnOk, ◌<◌, ◌^◌};
ghost use Rattle.zn_view.specs.Adding.{AreNumbers, AreRecords, IsOtherRevision, IsViewFault, at_revision};
ghost use Rattle.zn_view.specs.Needs.{AreNeeds};
ghost use Rattle.zn_view.specs.Seen.{IsCountNumber};
ghost use Rattle.zn_view.specs.Asks.{reading as reading_of, with_parts};
ghost use Rattle.ev_types.specs.declared.answer.Answer.TheVariants as answers;
ghost use Rattle.zs_session.specs.Answering.{IsAnswerTo};
ghost use Rattle.zp_step.specs.Plans.{ReadOn};
ghost use Rattle.zp_core.specs.Held.{IsRequest};
ghost use Rattle.zp_core.specs.Left.{is_set_watches};
ghost use Rattle.zp_core.specs.Meanings.{Leads, ready};

use crate::asks::lacking_of;
use crate::client::Client;
use crate::looks::look_by;
use crate::moves::{Move, close};
use crate::round::{Opened, Round};
use crate::stage::Task;
use ev_types::{ActAns, Answer};
use std::alloc::Global;
use std::collections::VecDeque;
use zk_model::Request;
use zk_service::Cause;
use zn_view::{View, ViewFault, Want, Who};
use zx_base::Memory;

/// The revision of a view after a round at this one: that of its first round.
fn revision_with(view: &View, revision: i64) -> i64
    requires first { IsCountNumber view.now.revision }
    requires revision { IsCountNumber revision }
    ensures count { IsCountNumber result }
    ensures same { at_revision view.now result ≡ at_revision view.now revision }
    ensures fits { IsOtherRevision view.now result → ⊥ }
{
    if view.is_new() {
        return revision;
    }
    view.revision()
}

/// A task, and what it still lacks.
#[derive(Drop)]
struct Lacking {
    task: Box<Task>,
    wants: VecDeque<Want>,
}

/// Adds what a round found to the view.
fn add(task: &mut Task, revision: i64, parts: &[ActAns]) -> Result<(), ViewFault>
    requires revision { IsCountNumber revision }
    requires numbers { AreNumbers parts.now }
    ensures ok { OnOk result (task.new ≡ record task.old { view = with_parts (at_revision task.old.view revision) task.old.asked parts.now }) }
    ensures same_revision { OnOk result (IsOtherRevision task.old.view revision → ⊥) }
    ensures records { OnOk result (AreRecords task.old.asked parts.now) }
    ensures fault { IfErr result (IsViewFault task.old.view task.old.asked revision parts.now) }
{
    task.view.add(task.asked.as_slice(), revision, parts)
}

/// Whether an answer with this number of parts leaves no more to look up than was left to ask. So it is of a setWatches, which
/// names its paths itself, where there is a part for each want that was asked.
fn is_left(request: &Request, asked: usize, parts: usize) -> bool
    ensures is { IsTrue result → is_set_watches request.now ≡ true }
    ensures each { IsTrue result → asked ≤ parts }
{
    matches!(request, Request::SetWatches { .. }) && asked <= parts
}

/// Adds what a round found to the view, and gives what is lacking then.
fn added(
    alloc: Global,
    who: Who,
    round: Round,
    revision: i64,
    parts: &[ActAns],
) -> Result<Lacking, ViewFault>
    requires real { pos 1 ≤ℤ who.session }
    requires revision { IsCountNumber revision }
    requires numbers { AreNumbers parts.now }
    ensures task { IfOk result (λ l. l.task.value ≡ record round { view = with_parts (at_revision round.view revision) round.asked parts.now }) }
    ensures needs { IfOk result (λ l. AreNeeds l.task.value.request who l.task.value.view l.wants.items) }
    ensures same_revision { OnOk result (IsOtherRevision round.view revision → ⊥) }
    ensures records { OnOk result (AreRecords round.asked parts.now) }
    ensures fault { IfErr result (IsViewFault round.view round.asked revision parts.now) }
{
    let Opened {
        mut task,
        who: asked_for,
        left,
    } = round.open();
    add(&mut task, revision, parts)?;
    if asked_for.session == who.session && is_left(&task.request, task.asked.len(), parts.len()) {
        return Ok(Lacking { task, wants: left });
    }
    let wants = lacking_of(alloc, who, &task)?;
    Ok(Lacking { task, wants })
}

fn read_at(
    alloc: Global,
    client: &mut Client,
    round: Round,
    now: u64,
    revision: i64,
    parts: &[ActAns],
) -> Result<Move, Memory>
    requires request { IsRequest round.request }
    requires real { pos 1 ≤ℤ client.old.who.session }
    requires time { now < 2 ^ 62 }
    requires first { IsCountNumber round.view.revision }
    requires revision { IsCountNumber revision }
    requires numbers { AreNumbers parts.now }
    ensures { IfOk result (Leads (λ c out. ReadOn (ready client.old) round.xid round.request round.view round.asked now c out (answers.Txn revision true parts.now)) client.new) }
{
    let revision = revision_with(round.view(), revision);
    match added(alloc, client.who, round, revision, parts) {
        Ok(Lacking { task, wants }) => look_by(alloc, client, task, wants, now),
        Err(ViewFault::Damaged { key, value }) => close(alloc, Cause::Damaged { key, value }),
        Err(ViewFault::Memory) => Err(Memory),
        Err(ViewFault::OtherRevision { .. }) => unreachable!(),
    }
}

/// Adds what was found to the view, and looks at it.
pub(crate) fn read_on(
    alloc: Global,
    client: &mut Client,
    round: Box<Round>,
    now: u64,
    answer: &Answer,
) -> Result<Move, Memory>
    requires awaited { IsAnswerTo (reading_of round.value.view.revision round.value.asked) answer.now }
    requires request { IsRequest round.value.request }
    requires real { pos 1 ≤ℤ client.old.who.session }
    requires time { now < 2 ^ 62 }
    requires first { IsCountNumber round.value.view.revision }
    ensures { IfOk result (Leads (λ c out. ReadOn (ready client.old) round.value.xid round.value.request round.value.view round.value.asked now c out answer.now) client.new) }
{
    match answer {
        Answer::Txn {
            revision,
            parts,
            ..
        } => read_at(
            alloc,
            client,
            Box::into_inner(round),
            now,
            *revision,
            parts.as_slice(),
        ),
        Answer::Range { .. } | Answer::Granted { .. } | Answer::Alive { .. } => unreachable!(),
    }
}
