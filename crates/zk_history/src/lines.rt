//! What one line of a transcript does to the state.

ghost use Rattle.std.specs.Prelude.{◌≡◌, ℕ, List, None, option_map, IfOk, IfErr};
ghost use Rattle.zk_service.specs.declared.update.UpdateKind.TheVariants as kind;
ghost use Rattle.zk_service.specs.States.{State, attached_anew, committed, attached_session, lapsed_in, session_at};
ghost use Rattle.zk_transcript.specs.History.{asked_commit, change, request, updated};
ghost use Rattle.zk_machine.specs.Faults.{BeyondUnless};
ghost use Rattle.zk_history.specs.Commits.{commit_of, response_in, response_to};
ghost use Rattle.zk_history.specs.Pasts.{lines_of};
ghost use Rattle.zk_history.specs.Fits.{AskedFits, Fits, IsCountable, IsTime, UpdateFits};

use crate::ended::session_ended;
use crate::outcome::Commit;
use crate::past::Past;
use crate::requests::commit;
use crate::session::Session;
use crate::state::State;
use std::alloc::Global;
use zk_machine::{Fault, Turn, begin};
use zk_model::Body;
use zk_service::{UpdateKind, UpdateRec};
use zk_transcript::TranscriptLine;
use zx_base::{Memory, Seq};

/// The latest time that a node can hold, in milliseconds: the greatest `long`.
const MAX_LONG: u64 = 9223372036854775807;

/// Who makes an update, and when. `Beyond` where the time, in milliseconds, is above the greatest `long`.
fn turn(limit: usize, session: i64, zxid: i64, time: u64) -> Result<Turn, Fault>
    ensures limit { IfOk result (λ t. t.limit ≡ limit) }
    ensures session { IfOk result (λ t. t.session ≡ session) }
    ensures zxid { IfOk result (λ t. t.zxid ≡ zxid) }
    ensures time { IfOk result (λ t. t.time ≡ time) }
    ensures beyond { IfErr result (BeyondUnless (IsTime time)) }
{
    if MAX_LONG < time {
        return Err(Fault::Beyond);
    }
    Ok(Turn {
        limit,
        session,
        zxid,
        time,
    })
}

/// The state after the first update.
#[tactic(auto, unfolding(zk_transcript::specs::History::updated))]
fn begun(alloc: Global, zxid: i64, time: u64) -> Result<State, Fault>
    ensures ok { IfOk result (λ s. (before : List TranscriptLine) (state : State) → s ≡ updated before state zxid (kind.Begin time)) }
    ensures beyond { IfErr result (BeyondUnless (IsTime time)) }
{
    let tree = begin(alloc, &turn(0, 0, zxid, time)?)?;
    Ok(State::begun(alloc, tree, zxid))
}

/// The state after a connection began a session.
#[tactic(auto, unfolding(zk_transcript::specs::History::updated))]
fn session_begun(
    alloc: Global,
    before: &Past,
    state: State,
    zxid: i64,
    id: i64,
    connection: u32,
) -> Result<State, Fault>
    ensures ok { IfOk result (λ s. s ≡ updated (lines_of before.now) state zxid (kind.Session id connection)) }
    ensures beyond { IfErr result (BeyondUnless (IsCountable state)) }
{
    let asked = before.connect(alloc, connection)?;
    let session = Session::new(alloc, before.opening(connection), &asked, connection, zxid)?;
    state
        .with_session(id, session)?
        .advanced(zxid, Seq::new(alloc))
}

/// The state with a session attached to another connection, or as it was where the session is not open.
fn with_attached(
    alloc: Global,
    state: State,
    zxid: i64,
    id: i64,
    connection: u32,
) -> Result<State, Memory>
    ensures { IfOk result (λ s. s ≡ record state { sessions = attached_anew state zxid id connection (session_at id state) }) }
{
    match state.session(id) {
        None => Ok(state),
        Some(session) => {
            let session = session.attached_anew(alloc, connection, zxid)?;
            state.with_session(id, session)
        }
    }
}

/// The state after a session was attached to another connection.
#[tactic(auto, unfolding(zk_transcript::specs::History::updated))]
fn attached(
    alloc: Global,
    state: State,
    zxid: i64,
    id: i64,
    connection: u32,
) -> Result<State, Fault>
    ensures ok { IfOk result (λ s. (before : List TranscriptLine) → s ≡ updated before state zxid (kind.Attach id connection)) }
    ensures beyond { IfErr result (BeyondUnless (IsCountable state)) }
{
    with_attached(alloc, state, zxid, id, connection)?.advanced(zxid, Seq::new(alloc))
}

/// What the create, create2, delete, setData or multi of a frame does at this zxid and time, in milliseconds, where it is not refused.
/// Faults as [`change`] does.
pub fn planned_commit(
    alloc: Global,
    before: &Past,
    state: &State,
    zxid: i64,
    connection: u32,
    index: u64,
    time: u64,
) -> Result<Option<Commit>, Fault>
    ensures ok { IfOk result (λ o. option_map (commit_of state.now.tree) o ≡ asked_commit (lines_of before.now) state.now zxid connection index time) }
    ensures beyond { IfErr result (BeyondUnless (IsTime time × AskedFits state.now.tree (attached_session connection state.now) (request connection index (lines_of before.now)) zxid time)) }
{
    let Some((id, session)) = state.attached_to(connection) else {
        return Ok(None);
    };
    let Some(asked) = before.request(alloc, connection, index)? else {
        return Ok(None);
    };
    let turn = turn(session.limit(), id, zxid, time)?;
    Ok(commit(alloc, state.tree(), &turn, asked)?)
}

/// The state after a line, and what the line answers.
#[derive(Drop)]
pub struct Applied {
    pub state: State,
    /// The body of the reply to the create, create2, delete, setData or multi that the line carried out; `None` for any other line.
    pub response: Option<Body>,
}

/// The state after a line that carried out no create, create2, delete, setData or multi.
fn silent(state: State) -> Applied
    ensures { (result.state ≡ state) × (result.response ≡ None) }
{
    Applied {
        state,
        response: None,
    }
}

/// The state after what a request did, or as it was where the request was refused.
fn committed(alloc: Global, state: State, zxid: i64, done: Option<Commit>) -> Result<Applied, Fault>
    ensures ok { IfOk result (λ a. a.state ≡ committed state zxid (option_map (commit_of state.tree) done)) }
    ensures response { IfOk result (λ a. a.response ≡ option_map (λ c. c.response) (option_map (commit_of state.tree) done)) }
    ensures beyond { IfErr result (BeyondUnless (IsCountable state)) }
{
    match done {
        None => Ok(silent(state)),
        Some(
            Commit {
                response,
                change,
                triggers,
            },
        ) => Ok(Applied {
            state: state.changed(alloc, change)?.advanced(zxid, triggers)?,
            response: Some(response),
        }),
    }
}

/// The state after a create, create2, delete, setData or multi was carried out.
#[tactic(auto, unfolding(zk_transcript::specs::History::updated))]
fn asked(
    alloc: Global,
    before: &Past,
    state: State,
    zxid: i64,
    connection: u32,
    index: u64,
    time: u64,
) -> Result<Applied, Fault>
    ensures ok { IfOk result (λ a. a.state ≡ updated (lines_of before.now) state zxid (kind.Asked connection index time)) }
    ensures response { IfOk result (λ a. a.response ≡ response_in (lines_of before.now) state zxid (kind.Asked connection index time)) }
    ensures beyond { IfErr result (BeyondUnless (IsCountable state × IsTime time × AskedFits state.tree (attached_session connection state) (request connection index (lines_of before.now)) zxid time)) }
{
    let done = planned_commit(alloc, before, &state, zxid, connection, index, time)?;
    Ok(committed(alloc, state, zxid, done)?)
}

/// The state after a session was closed or reaped.
#[tactic(auto, unfolding(zk_transcript::specs::History::updated))]
fn ended(alloc: Global, state: State, zxid: i64, id: i64) -> Result<State, Fault>
    ensures closed { IfOk result (λ s. (before : List TranscriptLine) (connection index : ℕ) → s ≡ updated before state zxid (kind.Closed id connection index)) }
    ensures reaped { IfOk result (λ s. (before : List TranscriptLine) → s ≡ updated before state zxid (kind.Reaped id)) }
    ensures beyond { IfErr result (BeyondUnless (IsCountable state)) }
{
    Ok(session_ended(alloc, state, zxid, id)?)
}

/// The state after an update.
fn updated(alloc: Global, before: &Past, state: State, update: &UpdateRec) -> Result<Applied, Fault>
    ensures ok { IfOk result (λ a. a.state ≡ updated (lines_of before.now) state update.now.zxid update.now.kind) }
    ensures response { IfOk result (λ a. a.response ≡ response_in (lines_of before.now) state update.now.zxid update.now.kind) }
    ensures beyond { IfErr result (BeyondUnless (IsCountable state × UpdateFits (lines_of before.now) state update.now.zxid update.now.kind)) }
{
    let zxid = update.zxid;
    match update.kind {
        UpdateKind::Begin { now } => Ok(silent(begun(alloc, zxid, now)?)),
        UpdateKind::Session { id, connection } => Ok(silent(session_begun(
            alloc, before, state, zxid, id, connection,
        )?)),
        UpdateKind::Attach { id, connection } => {
            Ok(silent(attached(alloc, state, zxid, id, connection)?))
        }
        UpdateKind::Asked {
            connection,
            index,
            now,
        } => Ok(asked(alloc, before, state, zxid, connection, index, now)?),
        UpdateKind::Closed { id, .. } => Ok(silent(ended(alloc, state, zxid, id)?)),
        UpdateKind::Reaped { id } => Ok(silent(ended(alloc, state, zxid, id)?)),
    }
}

/// The state after the lapse of a session, or as it was where the session is not open.
fn lapsed(alloc: Global, state: State, id: i64) -> Result<State, Memory>
    ensures { IfOk result (λ s. s ≡ lapsed_in state id (session_at id state)) }
{
    match state.session(id) {
        None => Ok(state),
        Some(session) => {
            let session = session.lapsed(alloc)?;
            state.with_session(id, session)
        }
    }
}

/// What a line makes of the state before it, which is changed in place; `before` are the lines before it. `Beyond` where a time, a
/// number of the tree or the number of updates does not fit its field, which happens in no transcript of a run.
pub fn apply(
    alloc: Global,
    before: &Past,
    state: State,
    line: &TranscriptLine,
) -> Result<Applied, Fault>
    ensures ok { IfOk result (λ a. a.state ≡ change (lines_of before.now) state line.now) }
    ensures response { IfOk result (λ a. a.response ≡ response_to (lines_of before.now) state line.now) }
    ensures beyond { IfErr result (BeyondUnless (IsCountable state × Fits (lines_of before.now) state line.now)) }
{
    match line {
        TranscriptLine::Update(update) => Ok(updated(alloc, before, state, update)?),
        TranscriptLine::Lapse { id, .. } => Ok(silent(lapsed(alloc, state, *id)?)),
        _ => Ok(silent(state)),
    }
}

/// The state after a line. `before` are the lines before it, `state` is the state before it. Faults as [`apply`] does.
pub fn change(
    alloc: Global,
    before: &Past,
    state: State,
    line: &TranscriptLine,
) -> Result<State, Fault>
    ensures ok { IfOk result (λ s. s ≡ change (lines_of before.now) state line.now) }
    ensures beyond { IfErr result (BeyondUnless (IsCountable state × Fits (lines_of before.now) state line.now)) }
{
    Ok(apply(alloc, before, state, line)?.state)
}
