//! What a line of a transcript shows of a connection, and the first line that shows it.

ghost use Rattle.std.specs.Prelude.{◌≡◌, option_map, IfOk};
ghost use Rattle.zk_transcript.specs.History.{open_shown, frame_shown, connect, request, asked_in};
ghost use Rattle.zk_transcript.specs.Conversations.{close_shown};
ghost use Rattle.zk_transcript.specs.Legal.{attach_in, attach_shown};
ghost use Rattle.zk_transcript.specs.Walks.{own_update_shown};
ghost use Rattle.zk_history.specs.Shown.{attachment_of};
ghost use Rattle.zk_jute.specs.Connects.{read_connect};
ghost use Rattle.zk_jute.specs.Requests.{read_request};

use crate::past::Past;
use std::alloc::Global;
use zk_model::{ConnectRequest, Request};
use zk_service::{Fresh, UpdateKind, UpdateRec};
use zk_transcript::TranscriptLine;
use zk_wire::{WireFault, read_connect, read_request};
use zx_base::Memory;

/// What a connection offers for a new session, where this is its open line.
pub fn open_shown(line: &TranscriptLine, connection: u32) -> Option<Fresh>
    ensures { result ≡ open_shown connection line.now }
{
    match line {
        TranscriptLine::Open {
            connection: opened,
            id,
            passwd,
            layout,
            ..
        } if connection == *opened => Some(Fresh {
            id: *id,
            passwd: *passwd,
            layout: *layout,
        }),
        _ => None,
    }
}

/// The bytes of a connection's frame with this index, where this is its line.
pub fn frame_shown(line: &TranscriptLine, connection: u32, index: u64) -> Option<&[u8]>
    ensures { option_map (λ b. b.now) result ≡ frame_shown connection index line.now }
{
    match line {
        TranscriptLine::Frame {
            connection: sender,
            index: place,
            bytes,
            ..
        } if connection == *sender && index == *place => Some(bytes.as_slice()),
        _ => None,
    }
}

/// The connection, where this is its close line.
pub fn close_shown(line: &TranscriptLine, connection: u32) -> Option<u32>
    ensures { result ≡ close_shown connection line.now }
{
    match line {
        TranscriptLine::Close {
            connection: closed,
            ..
        } if connection == *closed => Some(connection),
        _ => None,
    }
}

/// The zxid and the session of an attachment to a connection, where an update of this kind is one.
fn attach_in(zxid: i64, kind: UpdateKind, connection: u32) -> Option<(i64, i64)>
    ensures { option_map attachment_of result ≡ attach_in connection zxid kind }
{
    match kind {
        UpdateKind::Session {
            id,
            connection: opened,
        } if connection == opened => Some((zxid, id)),
        UpdateKind::Attach {
            id,
            connection: opened,
        } if connection == opened => Some((zxid, id)),
        _ => None,
    }
}

/// The zxid and the session of an attachment to a connection, where this line is one.
pub fn attach_shown(line: &TranscriptLine, connection: u32) -> Option<(i64, i64)>
    ensures { option_map attachment_of result ≡ attach_shown connection line.now }
{
    match line {
        TranscriptLine::Update(update) => attach_in(update.zxid, update.kind, connection),
        _ => None,
    }
}

/// The update that carries out a connection's request with this index, where this line is that.
pub fn own_update_shown(line: &TranscriptLine, connection: u32, index: u64) -> Option<UpdateRec>
    ensures { result ≡ own_update_shown connection index line.now }
{
    let TranscriptLine::Update(update) = line else {
        return None;
    };
    match update.kind {
        UpdateKind::Asked {
            connection: asker,
            index: asked,
            ..
        } if connection == asker && index == asked => Some(*update),
        UpdateKind::Closed {
            connection: asker,
            index: asked,
            ..
        } if connection == asker && index == asked => Some(*update),
        _ => None,
    }
}

/// The connect request that a frame's bytes spell, if they spell one.
fn connect_of(alloc: Global, bytes: &[u8]) -> Result<Option<ConnectRequest>, Memory>
    ensures { IfOk result (λ r. r ≡ read_connect bytes.now) }
{
    match read_connect(alloc, bytes) {
        Ok(request) => Ok(Some(request)),
        Err(WireFault::Memory) => Err(Memory),
        Err(_) => Ok(None),
    }
}

/// The request that a frame's bytes spell, if they spell one.
fn request_of(alloc: Global, bytes: &[u8]) -> Result<Option<Request>, Memory>
    ensures { IfOk result (λ r. r ≡ asked_in (read_request bytes.now)) }
{
    match read_request(alloc, bytes) {
        Ok((_, request)) => Ok(Some(request)),
        Err(WireFault::Memory) => Err(Memory),
        Err(_) => Ok(None),
    }
}

impl<'a> Past<'a> {
    ghost use Rattle.zk_history.specs.Pasts.{lines_of};

    /// The connect request of a connection, where it can be read.
    pub fn connect(&self, alloc: Global, connection: u32) -> Result<Option<ConnectRequest>, Memory>
        ensures { IfOk result (λ r. r ≡ connect connection (lines_of self.now)) }
    {
        match self.frame(connection, 0) {
            Some(bytes) => connect_of(alloc, bytes),
            None => Ok(None),
        }
    }

    /// The request of a connection's frame, where it can be read.
    pub fn request(
        &self,
        alloc: Global,
        connection: u32,
        index: u64,
    ) -> Result<Option<Request>, Memory>
        ensures { IfOk result (λ r. r ≡ request connection index (lines_of self.now)) }
    {
        match self.frame(connection, index) {
            Some(bytes) => request_of(alloc, bytes),
            None => Ok(None),
        }
    }
}
