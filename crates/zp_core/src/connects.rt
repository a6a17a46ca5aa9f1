//! How the connection gets its session.

ghost use Rattle.std.specs.Prelude.{◌≡◌, ◌≤ℤ◌, ◌∷◌, [], pos, None, option_copied, IfOk};
ghost use Rattle.zk_service.specs.Answers.{refusal as refusal_of};
ghost use Rattle.zs_session.specs.Connecting.{MayStepConnect};
ghost use Rattle.zp_step.specs.Connects.{Connects, Opens, attached_core, connected, kept_by};
ghost use Rattle.zp_step.specs.Replies.{Is};
ghost use Rattle.zp_step.specs.declared.action.Action.TheVariants as action;
ghost use Rattle.zk_service.specs.declared.cause.Cause.TheVariants as causes;
ghost use Rattle.zs_session.specs.declared.connect.ConnectStep.TheVariants as steps;
ghost use Rattle.zp_step.specs.Stages.{Shut};
ghost use Rattle.zk_jute.specs.Packets.{connect_packet};
ghost use Rattle.zk_jute.specs.Connects.{read_connect as read_as};
ghost use Rattle.zp_core.specs.Meanings.{Leads, ready, stage_of};

use crate::client::Client;
use crate::moves::{Move, close, only};
use crate::packets::send_connect;
use crate::stage::Stage;
use ev_types::{Answer, Ask};
use std::alloc::Global;
use zk_model::{ConnectRequest, ConnectResponse};
use zk_service::Cause;
use zk_wire::{WireFault, read_connect};
use zn_view::Who;
use zp_kept::KeptViews;
use zp_step::{Action, Fresh};
use zs_session::{ConnectStep, Connecting, StepFault};
use zw_watch::Armed;
use zx_base::Memory;

/// The time of the last grant or keepalive, once this is asked too.
fn kept_by(now: u64, kept: u64, ask: &Ask) -> u64
    ensures { result ≡ kept_by now kept ask.now }
{
    match ask {
        Ask::Grant { .. } | Ask::Alive { .. } => now,
        Ask::Txn(_) | Ask::Range(_) => kept,
    }
}

fn ask(
    alloc: Global,
    client: &mut Client,
    connecting: Box<Connecting>,
    ask: Ask,
    now: u64,
) -> Result<Move, Memory>
    ensures { IfOk result (Leads (Is (connected (ready client.old) now connecting.value (steps.Ask ask))) client.new) }
{
    client.kept = kept_by(now, client.kept, &ask);
    Ok(Move {
        stage: Stage::Connecting(connecting),
        actions: only(alloc, Action::Ask(ask))?,
    })
}

/// The session is attached, by the update of this number and zxid, and the client is welcomed. No view is kept yet.
fn attach(
    alloc: Global,
    client: &mut Client,
    response: &ConnectResponse,
    who: Who,
    timeout: i32,
    number: i64,
    zxid: i64,
) -> Result<Move, Memory>
    ensures { IfOk result (Leads (Is (attached_core (ready client.old) who timeout number zxid, action.Send (connect_packet response.now) ∷ [])) client.new) }
{
    let actions = only(alloc, send_connect(alloc, response)?)?;
    client.zxid = zxid;
    client.cursor = number;
    client.watches = Armed::new(alloc);
    client.who = who;
    client.timeout = timeout;
    client.views = KeptViews::new(alloc);
    Ok(Move {
        stage: Stage::Ready,
        actions,
    })
}

/// The answer to a resume that is refused: timeout, session and password are 0.
fn refusal(request: &ConnectRequest) -> ConnectResponse
    ensures { result ≡ refusal_of request.now }
{
    ConnectResponse {
        timeout: 0,
        session: 0,
        passwd: [0; 16],
        read_only: match request.read_only {
            Some(_) => Some(false),
            None => None,
        },
    }
}

fn refuse(alloc: Global, request: &ConnectRequest) -> Result<Move, Memory>
    ensures stage { IfOk result (λ m. stage_of m.stage ≡ Shut) }
    ensures actions { IfOk result (λ m. m.actions ≡ action.Send (connect_packet (refusal_of request.now)) ∷ action.Close causes.Unknown ∷ []) }
{
    let mut actions = only(alloc, send_connect(alloc, &refusal(request))?)?;
    actions.push(Action::Close(Cause::Unknown))?;
    Ok(Move {
        stage: Stage::Shut,
        actions,
    })
}

/// What comes of a step of the connect.
fn connected(
    alloc: Global,
    client: &mut Client,
    connecting: Box<Connecting>,
    step: ConnectStep,
    now: u64,
) -> Result<Move, Memory>
    ensures { IfOk result (Leads (Is (connected (ready client.old) now connecting.value step)) client.new) }
{
    match step {
        ConnectStep::Ask(next) => ask(alloc, client, connecting, next, now),
        ConnectStep::Attached {
            response,
            who,
            timeout,
            number,
            zxid,
        } => attach(alloc, client, &response, who, timeout, number, zxid),
        ConnectStep::Ahead { client, head } => close(alloc, Cause::ZxidAhead { client, head }),
        ConnectStep::Unknown => refuse(alloc, &connecting.connect().request),
        ConnectStep::Taken { rev } => close(alloc, Cause::Taken { rev }),
    }
}

/// A step of the connect, with the answer to what it asked last.
pub(crate) fn connect(
    alloc: Global,
    client: &mut Client,
    mut connecting: Box<Connecting>,
    answer: Option<&Answer>,
    now: u64,
) -> Result<Move, Memory>
    requires { MayStepConnect connecting.value (option_copied answer) }
    ensures { IfOk result (Leads (Connects (ready client.old) connecting.value (option_copied answer.entry) now) client.new) }
{
    match connecting.step(answer) {
        Ok(step) => connected(alloc, client, connecting, step, now),
        Err(StepFault::Damaged { key, value }) => close(alloc, Cause::Damaged { key, value }),
        Err(StepFault::Memory) => Err(Memory),
    }
}

/// The first frame, at a place of the client's stream: a connect, or the connection is closed.
pub(crate) fn open(
    alloc: Global,
    client: &mut Client,
    place: u64,
    fresh: Fresh,
    frame: &[u8],
    now: u64,
) -> Result<Move, Memory>
    requires { pos 1 ≤ℤ fresh.id }
    ensures { IfOk result (Leads (λ c out. Opens (ready client.old) place fresh now c out (read_as frame.now)) client.new) }
{
    match read_connect(alloc, frame) {
        Ok(request) => {
            let connecting = Box::new(alloc, Connecting::new(alloc, request, fresh))?;
            connect(alloc, client, connecting, None, now)
        }
        Err(WireFault::NoHeader) => close(alloc, Cause::NoHeader { place }),
        Err(WireFault::Memory) => Err(Memory),
        Err(WireFault::Unreadable { .. } | WireFault::Unknown { .. }) => unreachable!(),
    }
}
