//! Updates that the service could make in the state before them.

ghost use Rattle.std.specs.Prelude.{◌≡◌, ◌≤◌, ◌&&◌, true, is_none, is_some, IfOk};
ghost use Rattle.zk_model.specs.Limits.{max_time};
ghost use Rattle.zk_transcript.specs.History.{asked_commit as asked_commit_of, frame as frame_of, opening as opening_of, request as request_of};
ghost use Rattle.zk_service.specs.States.{attached_session, session_at};
ghost use Rattle.zk_transcript.specs.Legal.{asks_anew as asks_anew_of, is_close as is_close_of, is_id as is_id_of, is_lapsed as is_lapsed_of, is_legal_line as is_legal_line_of, is_live as is_live_of, is_live_as as is_live_as_of, is_next_zxid as is_next_zxid_of, is_resumed_by as is_resumed_by_of, is_small_frame as is_small_frame_of, is_within_parts as is_within_parts_of, may_attach as may_attach_of, may_update as may_update_of, offers as offers_of};
ghost use Rattle.zk_service.specs.declared.update.UpdateKind.TheVariants as kind;
ghost use Rattle.zk_history.specs.Fits.{AskedFits, IsTime};
ghost use Rattle.zk_history.specs.Pasts.{lines_of};
ghost use Rattle.zk_legal.specs.Faults.{IsRunTo, is_in_range, is_timely};

use std::alloc::Global;
use zk_history::{Fault, Past, State, planned_commit};
use zk_model::limit::{MAX_FRAME, MAX_PARTS};
use zk_model::{ConnectRequest, Request};
use zk_service::{Fresh, UpdateKind};
use zk_transcript::TranscriptLine;
use zx_base::Memory;

/// Whether a frame is there, and is no longer than a frame may be.
fn is_small_frame(before: &Past, connection: u32, index: u64) -> bool
    ensures { result ≡ is_small_frame_of (frame_of connection index (lines_of before.now)) }
{
    match before.frame(connection, index) {
        None => false,
        Some(bytes) => bytes.len() <= MAX_FRAME,
    }
}

/// Whether a connection has no own line yet, its connect is no longer than a frame may be, and its client has seen only zxids below
/// this one.
fn may_attach(before: &Past, connection: u32, zxid: i64, asked: &Option<ConnectRequest>) -> bool
    ensures { result ≡ may_attach_of (lines_of before.now) connection zxid asked.now }
{
    match asked {
        None => false,
        Some(request) => {
            before.is_unattached(connection)
                && is_small_frame(before, connection, 0)
                && request.last_zxid < zxid
        }
    }
}

fn offers(id: i64, opened: Option<Fresh>) -> bool
    ensures { result ≡ offers_of id opened }
{
    match opened {
        None => false,
        Some(opened) => id == opened.id,
    }
}

fn asks_anew(asked: &Option<ConnectRequest>) -> bool
    ensures { result ≡ asks_anew_of asked.now }
{
    match asked {
        None => false,
        Some(request) => request.session == 0,
    }
}

/// Whether a session may have this number.
fn is_id(id: i64) -> bool
    ensures { result ≡ is_id_of id }
{
    0 < id
}

/// Whether the session of this number is open and has not lapsed, and the connect names it and shows its password.
fn is_resumed_by(id: i64, asked: &Option<ConnectRequest>, state: &State) -> bool
    ensures { result ≡ is_resumed_by_of id asked.now (session_at id state.now) }
{
    let Some(request) = asked else {
        return false;
    };
    match state.session(id) {
        None => false,
        Some(session) => {
            id == request.session && request.passwd.is(session.passwd()) && !session.is_lapsed()
        }
    }
}

/// Whether a session is attached to the connection and has not lapsed.
fn is_live(connection: u32, state: &State) -> bool
    ensures { result ≡ is_live_of (attached_session connection state.now) }
{
    match state.attached_to(connection) {
        None => false,
        Some((_, session)) => !session.is_lapsed(),
    }
}

/// Whether this session is attached to the connection and has not lapsed.
fn is_live_as(id: i64, connection: u32, state: &State) -> bool
    ensures { result ≡ is_live_as_of id (attached_session connection state.now) }
{
    match state.attached_to(connection) {
        None => false,
        Some((attached, session)) => id == attached && !session.is_lapsed(),
    }
}

fn is_within_parts(asked: &Option<Request>) -> bool
    ensures { result ≡ is_within_parts_of asked.now }
{
    match asked {
        Some(Request::Multi { parts }) => parts.len() <= MAX_PARTS,
        _ => true,
    }
}

fn is_close(asked: &Option<Request>) -> bool
    ensures { result ≡ is_close_of asked.now }
{
    match asked {
        Some(Request::Close) => true,
        _ => false,
    }
}

fn is_lapsed(id: i64, state: &State) -> bool
    ensures { result ≡ is_lapsed_of (session_at id state.now) }
{
    match state.session(id) {
        None => false,
        Some(session) => session.is_lapsed(),
    }
}

/// Whether a connect asks for a new session, and one may be attached to its connection.
fn may_attach_anew(
    before: &Past,
    connection: u32,
    zxid: i64,
    asked: &Option<ConnectRequest>,
) -> bool
    ensures { result ≡ (asks_anew_of asked.now && may_attach_of (lines_of before.now) connection zxid asked.now) }
{
    asks_anew(asked) && may_attach(before, connection, zxid, asked)
}

/// Whether a session may have this number, no open one has it, and the connection offers it.
fn is_offered(before: &Past, state: &State, id: i64, connection: u32) -> bool
    ensures { result ≡ (is_none (session_at id state.now) && is_id_of id && offers_of id (opening_of connection (lines_of before.now))) }
{
    state.session(id).is_none() && is_id(id) && offers(id, before.opening(connection))
}

/// Whether a new session may begin on a connection.
#[tactic(auto, unfolding(zk_transcript::specs::Legal::may_update))]
fn may_begin_session(
    alloc: Global,
    before: &Past,
    state: &State,
    zxid: i64,
    id: i64,
    connection: u32,
) -> Result<bool, Memory>
    ensures { IfOk result (λ b. b ≡ may_update_of (lines_of before.now) state.now zxid (kind.Session id connection)) }
{
    let asked = before.connect(alloc, connection)?;
    Ok(
        is_offered(before, state, id, connection)
            && may_attach_anew(before, connection, zxid, &asked),
    )
}

/// Whether a session may be attached to a connection.
#[tactic(auto, unfolding(zk_transcript::specs::Legal::may_update))]
fn may_attach_session(
    alloc: Global,
    before: &Past,
    state: &State,
    zxid: i64,
    id: i64,
    connection: u32,
) -> Result<bool, Memory>
    ensures { IfOk result (λ b. b ≡ may_update_of (lines_of before.now) state.now zxid (kind.Attach id connection)) }
{
    let asked = before.connect(alloc, connection)?;
    Ok(is_resumed_by(id, &asked, state) && may_attach(before, connection, zxid, &asked))
}

/// Whether the request of a frame is a create, create2, delete, setData or multi that is not refused.
fn is_committed(
    alloc: Global,
    before: &Past,
    state: &State,
    zxid: i64,
    connection: u32,
    index: u64,
    now: u64,
) -> Result<bool, Memory>
    requires { IsTime now × AskedFits state.now.tree (attached_session connection state.now) (request_of connection index (lines_of before.now)) zxid now }
    ensures { IfOk result (λ b. b ≡ is_some (asked_commit_of (lines_of before.now) state.now zxid connection index now)) }
{
    match planned_commit(alloc, before, state, zxid, connection, index, now) {
        Ok(None) => Ok(false),
        Ok(Some(_)) => Ok(true),
        Err(Fault::Memory) => Err(Memory),
        Err(Fault::Beyond) => unreachable!(),
    }
}

/// Whether the request of a frame may be carried out, other than a closeSession.
#[tactic(auto, unfolding(zk_transcript::specs::Legal::may_update))]
fn may_ask(
    alloc: Global,
    before: &Past,
    state: &State,
    zxid: i64,
    connection: u32,
    index: u64,
    now: u64,
) -> Result<bool, Memory>
    requires run { IsRunTo (lines_of before.now) state.now }
    requires time { now ≤ max_time }
    ensures { IfOk result (λ b. b ≡ may_update_of (lines_of before.now) state.now zxid (kind.Asked connection index now)) }
{
    let asked = before.request(alloc, connection, index)?;
    if is_live(connection, state)
        && 0 < index
        && is_small_frame(before, connection, index)
        && is_within_parts(&asked)
    {
        is_committed(alloc, before, state, zxid, connection, index, now)
    } else {
        Ok(false)
    }
}

/// Whether the request of a frame may close this session.
#[tactic(auto, unfolding(zk_transcript::specs::Legal::may_update))]
fn may_close(
    alloc: Global,
    before: &Past,
    state: &State,
    zxid: i64,
    id: i64,
    connection: u32,
    index: u64,
) -> Result<bool, Memory>
    ensures { IfOk result (λ b. b ≡ may_update_of (lines_of before.now) state.now zxid (kind.Closed id connection index)) }
{
    let asked = before.request(alloc, connection, index)?;
    Ok(
        is_id(id)
            && is_live_as(id, connection, state)
            && 0 < index
            && is_small_frame(before, connection, index)
            && is_close(&asked),
    )
}

/// Whether an update may be made in this state.
#[tactic(auto, unfolding(zk_transcript::specs::Legal::may_update))]
fn may_update(
    alloc: Global,
    before: &Past,
    state: &State,
    zxid: i64,
    kind: UpdateKind,
) -> Result<bool, Memory>
    requires run { IsRunTo (lines_of before.now) state.now }
    requires time { is_timely kind ≡ true }
    ensures { IfOk result (λ b. b ≡ may_update_of (lines_of before.now) state.now zxid kind) }
{
    match kind {
        UpdateKind::Begin { .. } => Ok(state.updates() == 0),
        UpdateKind::Session { id, connection } => {
            may_begin_session(alloc, before, state, zxid, id, connection)
        }
        UpdateKind::Attach { id, connection } => {
            may_attach_session(alloc, before, state, zxid, id, connection)
        }
        UpdateKind::Asked {
            connection,
            index,
            now,
        } => may_ask(alloc, before, state, zxid, connection, index, now),
        UpdateKind::Closed {
            id,
            connection,
            index,
        } => may_close(alloc, before, state, zxid, id, connection, index),
        UpdateKind::Reaped { id } => Ok(is_lapsed(id, state)),
    }
}

/// Whether a zxid is above that of the last update, if there was one.
fn is_next_zxid(state: &State, zxid: i64) -> bool
    ensures { result ≡ is_next_zxid_of state.now zxid }
{
    state.updates() == 0 || state.zxid() < zxid
}

/// Whether the service could make the update of this line after the lines `before`, which lead to `state`; a line that is no update
/// passes.
pub fn is_legal_line(
    alloc: Global,
    before: &Past,
    state: &State,
    line: &TranscriptLine,
) -> Result<bool, Memory>
    requires run { IsRunTo (lines_of before.now) state.now }
    requires range { is_in_range line.now ≡ true }
    ensures { IfOk result (λ b. b ≡ is_legal_line_of (lines_of before.now) state.now line.now) }
{
    match line {
        TranscriptLine::Update(update) => {
            if is_next_zxid(state, update.zxid) {
                may_update(alloc, before, state, update.zxid, update.kind)
            } else {
                Ok(false)
            }
        }
        _ => Ok(true),
    }
}
