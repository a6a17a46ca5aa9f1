//! How a frame is taken up: what needs no tree is answered at once, and anything else is looked up.

ghost use Rattle.std.specs.Prelude.{◌≡◌, ◌≤ℤ◌, pos, IfOk, ◌<◌, ◌^◌};
ghost use Rattle.zk_jute.specs.Requests.{Asks, read_request as read_as};
ghost use Rattle.zk_model.specs.Watches.{no_watches};
ghost use Rattle.zk_service.specs.Answers.{only, plain_request, told_of_watches, xid_of as xid_in, is_auth_refusal};
ghost use Rattle.zp_step.specs.Replies.{Is};
ghost use Rattle.zp_step.specs.Taking.{TakesFrame, TakesReadable, plainly, end_of_plain};
ghost use Rattle.zp_core.specs.Held.{IsFrame, IsRequest};
ghost use Rattle.zp_core.specs.Meanings.{Leads, ready, told_with};

use crate::at_once::{begun, look_first};
use crate::client::Client;
use crate::moves::{Move, end_after, only as just};
use crate::packets::send_reply;
use std::alloc::Global;
use zk_model::code::{AUTH_FAILED, BAD_ARGUMENTS, MARSHALLING_ERROR, NO_WATCHER, UNIMPLEMENTED};
use zk_model::watcher::is_watcher_type;
use zk_model::{Body, Reply, Request, read_path};
use zk_service::Cause;
use zk_wire::{WireFault, read_request};
use zn_ops::plain_reply;
use zw_watch::Armed;
use zx_base::Memory;

/// The connection is closed after it has refused an `auth`.
fn end_of(reply: &Reply) -> Option<Cause>
    ensures { result ≡ end_of_plain (is_auth_refusal reply.now) }
{
    match reply {
        Reply::Refused(AUTH_FAILED) => Some(Cause::AuthRefused),
        Reply::Refused(_) | Reply::Good(_) => None,
    }
}

/// Sends a reply that needs no tree, and changes nothing that is armed.
fn answer_plainly(
    alloc: Global,
    client: &mut Client,
    xid: i32,
    reply: &Reply,
) -> Result<Move, Memory>
    ensures { IfOk result (Leads (Is (plainly (ready client.old) xid (only client.old.watches reply.now))) client.new) }
{
    let actions = just(alloc, send_reply(alloc, xid, client.zxid, reply)?)?;
    client.next = client.next.saturating_add(1);
    end_after(actions, end_of(reply))
}

/// The reply to a checkWatches or, where `removes`, to a removeWatches, which takes the watches away that it names.
fn watcher_reply(
    alloc: Global,
    watches: &mut Armed,
    text: &[u8],
    kind: i32,
    removes: bool,
) -> Result<Reply, Memory>
    ensures { IfOk result (λ r. only watches.new r ≡ told_of_watches watches.old text.now kind removes) }
{
    let Some(path) = read_path(alloc, text, false)? else {
        return Ok(Reply::Refused(BAD_ARGUMENTS));
    };
    let is_type = is_watcher_type(kind);
    if !is_type {
        return Ok(Reply::Refused(BAD_ARGUMENTS));
    }
    let is_armed = watches.has(&path, kind);
    if !is_armed {
        return Ok(Reply::Refused(NO_WATCHER));
    }
    if removes {
        watches.remove(&path, kind);
        return Ok(Reply::Good(Body::Empty));
    }
    Ok(Reply::Good(Body::Empty))
}

/// Answers a checkWatches or, where `removes`, a removeWatches.
fn answer_watcher(
    alloc: Global,
    client: &mut Client,
    xid: i32,
    text: &[u8],
    kind: i32,
    removes: bool,
) -> Result<Move, Memory>
    ensures { IfOk result (Leads (Is (plainly (ready client.old) xid (told_of_watches client.old.watches text.now kind removes))) client.new) }
{
    let reply = watcher_reply(alloc, &mut client.watches, text, kind, removes)?;
    answer_plainly(alloc, client, xid, &reply)
}

/// Takes up a request as where nothing is armed, and leaves armed what is.
fn take_other(
    alloc: Global,
    client: &mut Client,
    xid: i32,
    request: Request,
    now: u64,
) -> Result<Move, Memory>
    requires request { IsRequest request }
    requires real { pos 1 ≤ℤ client.old.who.session }
    requires time { now < 2 ^ 62 }
    ensures { IfOk result (Leads (λ c out. TakesReadable (ready client.old) now c out (Asks xid request) (told_with client.old.watches (plain_request no_watches request))) client.new) }
{
    match plain_reply(alloc, &request)? {
        Some(reply) => answer_plainly(alloc, client, xid, &reply),
        None => look_first(alloc, client, begun(alloc, xid, request)?, now),
    }
}

#[tactic(auto, unfolding(zk_service::specs::Answers::plain_request))]
fn take_request(
    alloc: Global,
    client: &mut Client,
    xid: i32,
    request: Request,
    now: u64,
) -> Result<Move, Memory>
    requires request { IsRequest request }
    requires real { pos 1 ≤ℤ client.old.who.session }
    requires time { now < 2 ^ 62 }
    ensures { IfOk result (Leads (λ c out. TakesReadable (ready client.old) now c out (Asks xid request) (plain_request client.old.watches request)) client.new) }
{
    match request {
        Request::CheckWatches { path, kind } => {
            answer_watcher(alloc, client, xid, path.as_slice(), kind, false)
        }
        Request::RemoveWatches { path, kind } => {
            answer_watcher(alloc, client, xid, path.as_slice(), kind, true)
        }
        other => take_other(alloc, client, xid, other, now),
    }
}

/// Takes up a frame: answers it at once where it needs no tree, and begins to look it up otherwise.
pub(crate) fn take(
    alloc: Global,
    client: &mut Client,
    frame: &[u8],
    now: u64,
) -> Result<Move, Memory>
    requires frame { IsFrame frame.now }
    requires real { pos 1 ≤ℤ client.old.who.session }
    requires time { now < 2 ^ 62 }
    ensures { IfOk result (Leads (TakesFrame (ready client.old) frame.now now) client.new) }
{
    match read_request(alloc, frame) {
        Ok((xid, request)) => take_request(alloc, client, xid, request, now),
        Err(WireFault::Unreadable { xid, .. }) => {
            answer_plainly(alloc, client, xid, &Reply::Refused(MARSHALLING_ERROR))
        }
        Err(WireFault::Unknown { xid, .. }) => {
            answer_plainly(alloc, client, xid, &Reply::Refused(UNIMPLEMENTED))
        }
        Err(WireFault::NoHeader) => unreachable!(),
        Err(WireFault::Memory) => Err(Memory),
    }
}

/// The xid of a frame, 0 where it has no header. Reads the whole frame.
pub(crate) fn xid_of(alloc: Global, frame: &[u8]) -> Result<i32, Memory>
    ensures { IfOk result (λ xid. xid ≡ xid_in (read_as frame.now)) }
{
    match read_request(alloc, frame) {
        Ok((xid, _)) => Ok(xid),
        Err(WireFault::Unreadable { xid, .. }) => Ok(xid),
        Err(WireFault::Unknown { xid, .. }) => Ok(xid),
        Err(WireFault::NoHeader) => Ok(0),
        Err(WireFault::Memory) => Err(Memory),
    }
}
