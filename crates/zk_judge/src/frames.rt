//! The frames of a connection as requests, and their answers without the tree.

ghost use Rattle.std.specs.Prelude.{◌≡◌, ℤ, false, Some, option_map, IfOk};
ghost use Rattle.zk_model.specs.Watches.{no_watches};
ghost use Rattle.zk_jute.specs.Requests.{Asks, read_request as read_request_of};
ghost use Rattle.zk_service.specs.Answers.{asks_of_watches as asks_of_watches_of, told_of_watches, plain_reply as plain_reply_of, plain_request as plain_request_of, xid_of as xid_of_of, has_header as has_header_of};
ghost use Rattle.zk_transcript.specs.History.{asked_in};
ghost use Rattle.zk_judge.specs.Seen.{frame_as, reply_in, said_of};

use std::alloc::Global;
use zk_answers::{Watches, plain_request, watcher_answer};
use zk_model::code::{MARSHALLING_ERROR, UNIMPLEMENTED};
use zk_model::{Reply, Request};
use zk_wire::{WireFault, read_request};
use zx_base::Memory;

/// What a frame is read as.
#[derive(Drop)]
pub enum FrameRead {
    /// It is too short for a header (`RequestHeader`).
    NoHeader,
    /// Its request cannot be read; `place` is the offset in the frame of the first byte to blame.
    Unreadable { xid: i32, place: u64 },
    /// The type of its request is not served.
    Unknown { xid: i32, kind: i32 },
    /// It asks for `request`.
    Asks { xid: i32, request: Box<Request> },
}

/// What the bytes of a frame are read as.
pub fn frame_of(alloc: Global, bytes: &[u8]) -> Result<FrameRead, Memory>
    ensures { IfOk result (λ f. frame_as f ≡ read_request_of bytes.now) }
{
    match read_request(alloc, bytes) {
        Ok((xid, request)) => Ok(FrameRead::Asks {
            xid,
            request: Box::new(alloc, request)?,
        }),
        Err(WireFault::NoHeader) => Ok(FrameRead::NoHeader),
        Err(WireFault::Unreadable { xid, place }) => Ok(FrameRead::Unreadable { xid, place }),
        Err(WireFault::Unknown { xid, kind }) => Ok(FrameRead::Unknown { xid, kind }),
        Err(WireFault::Memory) => Err(Memory),
    }
}

/// The xid of a frame, or 0 where it has no header.
pub fn xid_of(frame: &FrameRead) -> i32
    ensures { result ≡ xid_of_of (frame_as frame.now) }
{
    match frame {
        FrameRead::NoHeader => 0,
        FrameRead::Unreadable { xid, .. } => *xid,
        FrameRead::Unknown { xid, .. } => *xid,
        FrameRead::Asks { xid, .. } => *xid,
    }
}

/// The request of a frame, where it can be read.
pub fn asked(frame: &FrameRead) -> Option<&Request>
    ensures { option_map (λ r. r.now) result ≡ asked_in (frame_as frame.now) }
{
    match frame {
        FrameRead::Asks { request, .. } => Some(request),
        FrameRead::NoHeader => None,
        FrameRead::Unreadable { .. } => None,
        FrameRead::Unknown { .. } => None,
    }
}

/// Whether a frame has a header; one without is never answered.
pub fn has_header(frame: &FrameRead) -> bool
    ensures { result ≡ has_header_of (frame_as frame.now) }
{
    match frame {
        FrameRead::NoHeader => false,
        FrameRead::Unreadable { .. } => true,
        FrameRead::Unknown { .. } => true,
        FrameRead::Asks { .. } => true,
    }
}

/// The reply to a request where the tree does not decide it.
fn plain_answer(alloc: Global, request: &Request) -> Result<Option<Reply>, Memory>
    ensures { IfOk result (λ o. o ≡ reply_in (plain_request_of no_watches request.now)) }
{
    match plain_request(alloc, &Watches::new(alloc), request)? {
        Some(told) => Ok(Some(told.reply)),
        None => Ok(None),
    }
}

/// The reply to a frame where the tree does not decide it and nothing is armed.
pub fn plain_reply(alloc: Global, frame: &FrameRead) -> Result<Option<Reply>, Memory>
    ensures { IfOk result (λ o. o ≡ reply_in (plain_reply_of no_watches (frame_as frame.now))) }
{
    match frame {
        FrameRead::NoHeader => Ok(None),
        FrameRead::Unreadable { .. } => Ok(Some(Reply::Refused(MARSHALLING_ERROR))),
        FrameRead::Unknown { .. } => Ok(Some(Reply::Refused(UNIMPLEMENTED))),
        FrameRead::Asks { request, .. } => plain_answer(alloc, request),
    }
}

/// Whether a frame is a checkWatches or a removeWatches, whose answer depends on what is armed.
pub fn asks_of_watches(frame: &FrameRead) -> bool
    ensures { result ≡ asks_of_watches_of (frame_as frame.now) }
{
    match frame {
        FrameRead::Asks { request, .. } => match &**request {
            Request::CheckWatches { .. } | Request::RemoveWatches { .. } => true,
            _ => false,
        },
        FrameRead::NoHeader => false,
        FrameRead::Unreadable { .. } => false,
        FrameRead::Unknown { .. } => false,
    }
}

/// A reply to a frame that the tree does not decide, and the watches after it.
#[derive(Drop)]
pub struct Said {
    pub reply: Reply,
    pub watches: Watches,
}

/// What is said to a checkWatches or, where `removes`, to a removeWatches.
fn watcher_said(
    alloc: Global,
    watches: Watches,
    text: &[u8],
    kind: i32,
    removes: bool,
) -> Result<Option<Said>, Memory>
    ensures { IfOk result (λ o. option_map said_of o ≡ Some (told_of_watches watches text.now kind removes)) }
{
    let told = watcher_answer(alloc, watches, text, kind, removes)?;
    Ok(Some(Said {
        reply: told.reply,
        watches: told.watches,
    }))
}

/// What is said to a request that is not about watches, where the tree does not decide it.
fn other_said(alloc: Global, request: &Request, watches: Watches) -> Result<Option<Said>, Memory>
    requires { (xid : ℤ) → asks_of_watches_of (Asks xid request.now) ≡ false }
    ensures { IfOk result (λ o. option_map said_of o ≡ plain_request_of watches request.now) }
{
    match plain_answer(alloc, request)? {
        Some(reply) => Ok(Some(Said { reply, watches })),
        None => Ok(None),
    }
}

#[tactic(auto, unfolding(zk_service::specs::Answers::plain_request))]
fn request_said(alloc: Global, request: &Request, watches: Watches) -> Result<Option<Said>, Memory>
    ensures { IfOk result (λ o. option_map said_of o ≡ plain_request_of watches request.now) }
{
    match request {
        Request::CheckWatches { path, kind } => Ok(watcher_said(
            alloc,
            watches,
            path.as_slice(),
            *kind,
            false,
        )?),
        Request::RemoveWatches { path, kind } => Ok(watcher_said(
            alloc,
            watches,
            path.as_slice(),
            *kind,
            true,
        )?),
        _ => other_said(alloc, request, watches),
    }
}

/// The reply to a frame where the tree does not decide it and these watches are armed, and the watches after it. They are not
/// copied.
pub fn plain_said(
    alloc: Global,
    frame: &FrameRead,
    watches: Watches,
) -> Result<Option<Said>, Memory>
    ensures { IfOk result (λ o. option_map said_of o ≡ plain_reply_of watches (frame_as frame.now)) }
{
    match frame {
        FrameRead::NoHeader => Ok(None),
        FrameRead::Unreadable { .. } => Ok(Some(Said {
            reply: Reply::Refused(MARSHALLING_ERROR),
            watches,
        })),
        FrameRead::Unknown { .. } => Ok(Some(Said {
            reply: Reply::Refused(UNIMPLEMENTED),
            watches,
        })),
        FrameRead::Asks { request, .. } => request_said(alloc, request, watches),
    }
}
