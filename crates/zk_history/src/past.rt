//! The lines of a transcript before a place, with tables of what they show.

ghost use Rattle.std.specs.Prelude.{◌≡◌, ◌≤◌, ◌<◌, ◌+◌, length, take, get_or, is_none, is_some, option_map, IfOk, IfSome};
ghost use Rattle.zk_transcript.specs.History.{first_place, first_shown, frame, opening};
ghost use Rattle.zk_transcript.specs.Conversations.{close_shown};
ghost use Rattle.zk_transcript.specs.Legal.{attach_of};
ghost use Rattle.zk_transcript.specs.Walks.{own_update, placed_frame, update_shown};
ghost use Rattle.zk_history.specs.Shown.{AreFirsts, AreUpdates, attach_mark, close_mark, frame_mark, open_mark, own_mark, placed_attachment, placed_bytes, update_zxid};

use crate::firsts::{Firsts, Mark};
use crate::shown::{attach_shown, close_shown, frame_shown, open_shown, own_update_shown};
use crate::zxids::Zxids;
use std::alloc::Global;
use zk_service::{Fresh, UpdateKind, UpdateRec};
use zk_transcript::TranscriptLine;
use zx_base::Memory;

fn open_mark(line: &TranscriptLine) -> Option<Mark>
    ensures { result ≡ open_mark line.now }
{
    match line {
        TranscriptLine::Open { connection, .. } => Some((*connection, 0)),
        _ => None,
    }
}

fn frame_mark(line: &TranscriptLine) -> Option<Mark>
    ensures { result ≡ frame_mark line.now }
{
    match line {
        TranscriptLine::Frame {
            connection,
            index,
            ..
        } => Some((*connection, *index)),
        _ => None,
    }
}

fn close_mark(line: &TranscriptLine) -> Option<Mark>
    ensures { result ≡ close_mark line.now }
{
    match line {
        TranscriptLine::Close { connection, .. } => Some((*connection, 0)),
        _ => None,
    }
}

fn attach_mark(line: &TranscriptLine) -> Option<Mark>
    ensures { result ≡ attach_mark line.now }
{
    let TranscriptLine::Update(update) = line else {
        return None;
    };
    match update.kind {
        UpdateKind::Session { connection, .. } => Some((connection, 0)),
        UpdateKind::Attach { connection, .. } => Some((connection, 0)),
        _ => None,
    }
}

/// The connection and the index of the request that a line carries out, also of a closeSession.
pub fn own_mark(line: &TranscriptLine) -> Option<Mark>
    ensures { result ≡ own_mark line.now }
{
    let TranscriptLine::Update(update) = line else {
        return None;
    };
    match update.kind {
        UpdateKind::Asked {
            connection,
            index,
            ..
        } => Some((connection, index)),
        UpdateKind::Closed {
            connection,
            index,
            ..
        } => Some((connection, index)),
        _ => None,
    }
}

/// The zxid of a line that is an update.
pub fn update_zxid(line: &TranscriptLine) -> Option<i64>
    ensures { result ≡ update_zxid line.now }
{
    match line {
        TranscriptLine::Update(update) => Some(update.zxid),
        _ => None,
    }
}

/// The line at a place.
pub fn line_at(lines: &[TranscriptLine], place: usize) -> &TranscriptLine
    requires { place < length lines.now }
    ensures { result.now ≡ get_or lines.now place result.now }
{
    &lines[place]
}

/// The lines of a transcript before a place, with the places of what they show first of each connection. A look-up takes the
/// logarithm of their number.
#[derive(Drop)]
pub struct Past<'a> {
    /// All lines of the transcript.
    pub all: &'a [TranscriptLine],
    /// How many of them stand before the place.
    pub len: usize,
    opens: Firsts,
    frames: Firsts,
    closes: Firsts,
    attachments: Firsts,
    owns: Firsts,
    updates: Zxids,
    ghost within: { len ≤ length all.now },
    ghost opens_stand: { AreFirsts open_mark (take len all.now) opens },
    ghost frames_stand: { AreFirsts frame_mark (take len all.now) frames },
    ghost closes_stand: { AreFirsts close_mark (take len all.now) closes },
    ghost attachments_stand: { AreFirsts attach_mark (take len all.now) attachments },
    ghost owns_stand: { AreFirsts own_mark (take len all.now) owns },
    ghost updates_stand: { AreUpdates (take len all.now) updates },
}

impl<'a> Past<'a> {
    ghost use Rattle.zk_history.specs.Pasts.{lines_of};

    /// The place before the first line.
    pub fn new(alloc: Global, all: &'a [TranscriptLine]) -> Past<'a>
        ensures len { result.len ≡ 0 }
        ensures all { result.all.now ≡ all.now }
    {
        Past {
            all,
            len: 0,
            opens: Firsts::new(alloc),
            frames: Firsts::new(alloc),
            closes: Firsts::new(alloc),
            attachments: Firsts::new(alloc),
            owns: Firsts::new(alloc),
            updates: Zxids::new(alloc),
        }
    }

    /// The place after the next line.
    pub fn advanced(self) -> Result<Past<'a>, Memory>
        requires { self.len < length self.all.now }
        ensures len { IfOk result (λ p. p.len ≡ self.entry.len + 1) }
        ensures all { IfOk result (λ p. p.all.now ≡ self.entry.all.now) }
    {
        let line = &self.all[self.len];
        Ok(Past {
            all: self.all,
            len: self.len + 1,
            opens: self.opens.noted(open_mark(line), self.len)?,
            frames: self.frames.noted(frame_mark(line), self.len)?,
            closes: self.closes.noted(close_mark(line), self.len)?,
            attachments: self.attachments.noted(attach_mark(line), self.len)?,
            owns: self.owns.noted(own_mark(line), self.len)?,
            updates: self.updates.noted(update_zxid(line), self.len)?,
        })
    }

    /// The place after the last line.
    pub fn at_end(alloc: Global, all: &'a [TranscriptLine]) -> Result<Past<'a>, Memory>
        ensures len { IfOk result (λ p. p.len ≡ length all.now) }
        ensures all { IfOk result (λ p. p.all.now ≡ all.now) }
    {
        let mut past = Past::new(alloc, all);
        for _place in 0..all.len() {
            past = past.advanced()?;
        }
        Ok(past)
    }

    /// The bytes of a frame; frame 0 is the connect.
    pub fn frame(&self, connection: u32, index: u64) -> Option<&'a [u8]>
        ensures { option_map (λ b. b.now) result ≡ frame connection index (lines_of self.now) }
    {
        match self.frames.place(connection, index) {
            Some(place) => frame_shown(line_at(self.all, place), connection, index),
            None => None,
        }
    }

    /// What a connection offers for a new session.
    pub fn opening(&self, connection: u32) -> Option<Fresh>
        ensures { result ≡ opening connection (lines_of self.now) }
    {
        match self.opens.place(connection, 0) {
            Some(place) => open_shown(line_at(self.all, place), connection),
            None => None,
        }
    }

    /// Whether an open line of the connection stands before the place.
    pub fn is_opened(&self, connection: u32) -> bool
        ensures { result ≡ is_some (opening connection (lines_of self.now)) }
    {
        self.opens.place(connection, 0).is_some()
    }

    /// Whether a close line of the connection stands before the place.
    pub fn is_closed(&self, connection: u32) -> bool
        ensures { result ≡ is_some (first_shown (close_shown connection) (lines_of self.now)) }
    {
        self.closes.place(connection, 0).is_some()
    }

    /// Whether no session was attached to a connection.
    pub fn is_unattached(&self, connection: u32) -> bool
        ensures { result ≡ is_none (attach_of connection (lines_of self.now)) }
    {
        !self.attachments.place(connection, 0).is_some()
    }

    /// A frame of a connection: its line's place and its bytes.
    pub fn placed_frame(&self, connection: u32, index: u64) -> Option<(usize, &'a [u8])>
        ensures placed { option_map placed_bytes result ≡ placed_frame connection index (lines_of self.now) }
        ensures within { IfSome result (λ x. x.0 < self.now.len) }
    {
        match self.frames.place(connection, index) {
            Some(place) => match frame_shown(line_at(self.all, place), connection, index) {
                Some(bytes) => Some((place, bytes)),
                None => None,
            },
            None => None,
        }
    }

    /// The line that carries out a request of a connection: its place, and the update.
    pub fn own_update(&self, connection: u32, index: u64) -> Option<(usize, UpdateRec)>
        ensures shown { result ≡ own_update connection index (lines_of self.now) }
        ensures within { IfSome result (λ x. x.0 < self.now.len) }
    {
        match self.owns.place(connection, index) {
            Some(place) => match own_update_shown(line_at(self.all, place), connection, index) {
                Some(update) => Some((place, update)),
                None => None,
            },
            None => None,
        }
    }

    /// A connection's own line, which attaches a session to it: its place, its zxid, and the session.
    pub fn attach_of(&self, connection: u32) -> Option<(usize, (i64, i64))>
        ensures { option_map placed_attachment result ≡ attach_of connection (lines_of self.now) }
    {
        match self.attachments.place(connection, 0) {
            Some(place) => match attach_shown(line_at(self.all, place), connection) {
                Some(attachment) => Some((place, attachment)),
                None => None,
            },
            None => None,
        }
    }

    /// The place of a connection's close.
    pub fn close_place(&self, connection: u32) -> Option<usize>
        ensures { option_map (λ k. (k, connection)) result ≡ first_place (close_shown connection) 0 (lines_of self.now) }
    {
        match self.closes.place(connection, 0) {
            Some(place) => match close_shown(line_at(self.all, place), connection) {
                Some(_) => Some(place),
                None => None,
            },
            None => None,
        }
    }

    /// The place of the update with a zxid.
    pub fn update_place(&self, zxid: i64) -> Option<usize>
        ensures placed { option_map (λ k. (k, zxid)) result ≡ first_place (update_shown zxid) 0 (lines_of self.now) }
        ensures within { IfSome result (λ k. k < self.now.len) }
    {
        self.updates.place(zxid)
    }
}
