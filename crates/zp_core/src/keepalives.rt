//! The keepalive before a frame is taken up, and the look at the session that may follow it.

ghost use Rattle.std.specs.Prelude.{◌≡◌, ◌≤ℤ◌, pos, IfOk, option_map, ◌<◌, ◌^◌};
ghost use Rattle.zk_jute.specs.Requests.{read_request as read_as};
ghost use Rattle.zk_service.specs.Answers.{xid_of as xid_in};
ghost use Rattle.zn_view.specs.Lookups.{found_at};
ghost use Rattle.zn_view.specs.Adding.{AreNumbers};
ghost use Rattle.zn_view.specs.Seen.{IsCountNumber};
ghost use Rattle.zs_session.specs.Answering.{IsAnswerTo};
ghost use Rattle.zs_session.specs.Sessions.{attach_wants as wants_of, life_key};
ghost use Rattle.ev_types.specs.declared.ask.Ask.TheVariants as asks;
ghost use Rattle.zn_view.specs.Asks.{reading as reading_of};
ghost use Rattle.zp_step.specs.Keepalives.{TakesUp, KeptAlive, Checked, Looked, checks, keeps_alive};
ghost use Rattle.zp_step.specs.Looking.{expired as expired_of, moved as moved_of};
ghost use Rattle.zp_step.specs.Replies.{Is, waits};
ghost use Rattle.zp_core.specs.Held.{IsFrame};
ghost use Rattle.zp_core.specs.Handling.{ByLook, ByPut};
ghost use Rattle.zp_core.specs.Meanings.{Leads, ready};

use crate::client::Client;
use crate::decisions::{expired, moved};
use crate::frames::{take, xid_of};
use crate::moves::{Move, close, only};
use crate::replies::reply_in_turn;
use crate::stage::Stage;
use ev_types::{ActAns, Answer, Ask};
use std::alloc::Global;
use zk_service::Cause;
use zn_layout::lease_key;
use zn_view::{View, reading};
use zp_step::Action;
use zs_session::{StepFault, alive_due, attach_wants, look};
use zx_base::{Bytes, Memory};

/// Asks for a keepalive, before this frame.
fn keep_alive(alloc: Global, client: &mut Client, frame: Bytes, now: u64) -> Result<Move, Memory>
    ensures { IfOk result (Leads (Is (keeps_alive (ready client.old) frame now)) client.new) }
{
    client.kept = now;
    let ask = Ask::Alive {
        id: client.who.session,
    };
    Ok(Move {
        stage: Stage::KeepingAlive { frame },
        actions: only(alloc, Action::Ask(ask))?,
    })
}

/// Takes up a frame, or asks for a keepalive before it.
pub(crate) fn take_up(
    alloc: Global,
    client: &mut Client,
    frame: Bytes,
    now: u64,
) -> Result<Move, Memory>
    requires frame { IsFrame frame }
    requires real { pos 1 ≤ℤ client.old.who.session }
    requires time { now < 2 ^ 62 }
    ensures { IfOk result (Leads (TakesUp (ready client.old) frame now) client.new) }
{
    if alive_due(client.kept, now, client.timeout) {
        return keep_alive(alloc, client, frame, now);
    }
    take(alloc, client, frame.as_slice(), now)
}

/// Asks for the record of the session's life, and for the head.
fn check(alloc: Global, client: &Client, frame: Bytes) -> Result<Move, Memory>
    requires { pos 1 ≤ℤ client.now.who.session }
    ensures { IfOk result (Leads (Is (checks (ready client.now) frame)) client.now) }
{
    let wants = attach_wants(alloc, client.who.session)?;
    let ask = reading(alloc, 0, wants.as_slice())?;
    Ok(Move {
        stage: Stage::Checking { frame },
        actions: only(alloc, Action::Ask(ask))?,
    })
}

/// At the keepalive's answer: takes up the frame, or looks at the session where the lease had no seconds left.
pub(crate) fn kept_alive(
    alloc: Global,
    client: &mut Client,
    frame: Bytes,
    now: u64,
    answer: &Answer,
) -> Result<Move, Memory>
    requires awaited { IsAnswerTo (asks.Alive client.old.who.session) answer.now }
    requires frame { IsFrame frame }
    requires real { pos 1 ≤ℤ client.old.who.session }
    requires time { now < 2 ^ 62 }
    ensures { IfOk result (Leads (λ c out. KeptAlive (ready client.old) frame now c out answer.now) client.new) }
{
    match answer {
        Answer::Alive { ttl: 0, .. } => check(alloc, client, frame),
        Answer::Alive { .. } => take(alloc, client, frame.as_slice(), now),
        Answer::Txn { .. } | Answer::Range { .. } | Answer::Granted { .. } => unreachable!(),
    }
}

/// The revision at which the record of a session's life was put, where the view saw it.
fn life_seen(alloc: Global, view: &View, session: i64) -> Result<Option<i64>, Memory>
    requires { pos 1 ≤ℤ session }
    ensures { IfOk result (λ o. o ≡ option_map (λ kv. kv.mod_revision) (found_at view.now (life_key session))) }
{
    let key = lease_key(alloc, session)?;
    match view.found(key.as_slice()) {
        Some(Some(life)) => Ok(Some(life.mod_revision)),
        Some(None) | None => Ok(None),
    }
}

/// Refuses the frame: the session is closed or has lapsed.
fn refuse_expired(
    alloc: Global,
    client: &mut Client,
    frame: &[u8],
    view: &View,
) -> Result<Move, Memory>
    ensures { IfOk result (Leads (Is (waits (ready client.old) (expired_of view.now (xid_in (read_as frame.now))))) client.new) }
{
    let xid = xid_of(alloc, frame)?;
    reply_in_turn(alloc, client, expired(view, xid))
}

/// Refuses the frame: the session was attached to another connection, by the update with zxid `found`.
fn refuse_moved(
    alloc: Global,
    client: &mut Client,
    frame: &[u8],
    view: &View,
    found: i64,
) -> Result<Move, Memory>
    ensures { IfOk result (Leads (Is (waits (ready client.old) (moved_of client.old.who view.now found (xid_in (read_as frame.now))))) client.new) }
{
    let xid = xid_of(alloc, frame)?;
    let pending = moved(client.who, view, found, xid);
    reply_in_turn(alloc, client, pending)
}

/// Takes up the frame where this connection's attachment put the record of the session's life, and refuses it where another did.
fn take_or_refuse(
    alloc: Global,
    client: &mut Client,
    frame: &[u8],
    view: &View,
    now: u64,
    found: i64,
) -> Result<Move, Memory>
    requires frame { IsFrame frame.now }
    requires real { pos 1 ≤ℤ client.old.who.session }
    requires time { now < 2 ^ 62 }
    ensures { IfOk result (Leads (λ c out. ByPut (ready client.old) frame.now view.now now c out found) client.new) }
{
    if found != client.who.mine {
        return refuse_moved(alloc, client, frame, view, found);
    }
    take(alloc, client, frame, now)
}

/// Takes up the frame or refuses it, by the record of the session's life.
fn look_at(
    alloc: Global,
    client: &mut Client,
    frame: &[u8],
    view: &View,
    now: u64,
) -> Result<Move, Memory>
    requires frame { IsFrame frame.now }
    requires real { pos 1 ≤ℤ client.old.who.session }
    requires time { now < 2 ^ 62 }
    ensures { IfOk result (Leads (λ c out. Looked (ready client.old) frame.now now c out view.now) client.new) }
{
    let life = life_seen(alloc, view, client.who.session)?;
    match life {
        None => refuse_expired(alloc, client, frame, view),
        Some(found) => take_or_refuse(alloc, client, frame, view, now, found),
    }
}

fn check_at(
    alloc: Global,
    client: &mut Client,
    frame: &[u8],
    now: u64,
    revision: i64,
    parts: &[ActAns],
) -> Result<Move, Memory>
    requires frame { IsFrame frame.now }
    requires real { pos 1 ≤ℤ client.old.who.session }
    requires time { now < 2 ^ 62 }
    requires revision { IsCountNumber revision }
    requires numbers { AreNumbers parts.now }
    ensures { IfOk result (Leads (λ c out. ByLook (ready client.old) frame.now now revision parts.now c out) client.new) }
{
    let wants = attach_wants(alloc, client.who.session)?;
    match look(alloc, wants.as_slice(), revision, parts) {
        Ok(view) => look_at(alloc, client, frame, &view, now),
        Err(StepFault::Damaged { key, value }) => close(alloc, Cause::Damaged { key, value }),
        Err(StepFault::Memory) => Err(Memory),
    }
}

/// At the answer to the look at the session.
pub(crate) fn checked(
    alloc: Global,
    client: &mut Client,
    frame: &Bytes,
    now: u64,
    answer: &Answer,
) -> Result<Move, Memory>
    requires awaited { IsAnswerTo (reading_of (pos 0) (wants_of client.old.who.session)) answer.now }
    requires frame { IsFrame frame.now }
    requires real { pos 1 ≤ℤ client.old.who.session }
    requires time { now < 2 ^ 62 }
    ensures { IfOk result (Leads (λ c out. Checked (ready client.old) frame.now now c out answer.now) client.new) }
{
    match answer {
        Answer::Txn {
            revision,
            parts,
            ..
        } => check_at(
            alloc,
            client,
            frame.as_slice(),
            now,
            *revision,
            parts.as_slice(),
        ),
        Answer::Range { .. } | Answer::Granted { .. } | Answer::Alive { .. } => unreachable!(),
    }
}
