//! How far a stream is shown.

ghost use Rattle.std.specs.Prelude.{◌≡◌, ◌+◌, ◌++◌, ◌≤◌, length, None, OnOk, IfOk, ℕ, List};
ghost use Rattle.zt_show.specs.Shown.{ending_line};
ghost use Rattle.zt_show.specs.Showing.{passed, showing, unshown, long_unless, Adds, AddsLines, AddsFrames, ShowingFinishes};
ghost use Rattle.zk_wire.specs.Putting.{counted};

use crate::draft::Draft;
use crate::ending::{Ending, push_ending};
use crate::frame_line::push_frame;
use std::alloc::Global;
use zk_wire::{CutFault, Cutter};
use zx_base::{Bytes, Memory};

/// The bytes of a frame's length.
const LENGTH: u64 = 4;

/// The most bytes of a stream that are shown.
const MAX_STREAM: u64 = 100_000_000;

/// How far a stream is shown.
#[derive(Clone, Copy)]
pub(crate) struct Progress {
    /// Whether the first frame came.
    pub(crate) is_begun: bool,
    /// The offset of the next frame's length.
    pub(crate) place: u64,
    /// How many more bytes may come before the stream is too long.
    pub(crate) room: u64,
    /// How many lines were added, the last included.
    pub(crate) lines: u64,
}

impl Progress {
    /// The progress of a stream of which nothing came yet.
    pub(crate) fn new() -> Progress
        ensures { result ≡ unshown.progress }
    {
        Progress {
            is_begun: false,
            place: 0,
            room: MAX_STREAM,
            lines: 0,
        }
    }

    /// Adds the last line.
    fn end(&mut self, ending: Ending, text: &mut Draft) -> Result<(), Memory>
        ensures text { OnOk result (text.new ≡ text.old ++ ending_line ending) }
        ensures lines { OnOk result (self.new.lines ≡ counted (self.old.lines + 1)) }
    {
        push_ending(text, ending)?;
        self.lines = self.lines.saturating_add(1);
        Ok(())
    }

    /// Goes on after a frame of this length, whose line was added.
    fn pass(&mut self, length: usize)
        ensures { self.new ≡ passed self.old length }
    {
        self.is_begun = true;
        self.place = self
            .place
            .saturating_add(LENGTH)
            .saturating_add(length as u64);
        self.lines = self.lines.saturating_add(1);
    }

    /// Adds the lines of frames, up to the first without a header, and says whether all have one.
    fn push_frames(
        &mut self,
        alloc: Global,
        frames: &[Bytes],
        text: &mut Draft,
    ) -> Result<bool, Memory>
        ensures { IfOk result (λ are_all. AddsLines are_all frames.now self.old text.old text.new self.new) }
    {
        for frame in frames {
            if !push_frame(alloc, text, self.is_begun, self.place, frame.as_slice())? {
                return Ok(false);
            }
            self.pass(frame.len());
        }
        Ok(true)
    }

    /// Adds the lines of the frames that these bytes make whole, and says how the stream ends in them, if it does.
    fn take_frames(
        &mut self,
        alloc: Global,
        cutter: &mut Cutter,
        bytes: &[u8],
        text: &mut Draft,
    ) -> Result<Option<Ending>, Memory>
        requires { length bytes.now ≤ self.old.room }
        ensures adds { IfOk result (λ found. AddsFrames found (showing cutter.old.rest self.old) bytes.now text.old text.new (showing cutter.new.rest self.new)) }
        ensures room { IfOk result (λ _. self.new.room + length bytes.now ≡ self.old.room) }
    {
        self.room -= bytes.len() as u64;
        match cutter.take(bytes) {
            Ok(frames) => {
                if !self.push_frames(alloc, frames.as_slice(), text)? {
                    return Ok(Some(Ending::NoHeader { place: self.place }));
                }
            }
            Err(CutFault::BadLength { length, .. }) => {
                return Ok(Some(Ending::Length {
                    place: self.place,
                    length,
                }));
            }
            Err(CutFault::Memory) => return Err(Memory),
        }
        // A length out of range after these frames is answered by the next call, which has no frame to hand out.
        match cutter.take(&[]) {
            Ok(_) => {}
            Err(CutFault::BadLength { length, .. }) => {
                return Ok(Some(Ending::Length {
                    place: self.place,
                    length,
                }));
            }
            Err(CutFault::Memory) => return Err(Memory),
        }
        Ok(None)
    }

    /// Adds the lines of the frames that this piece makes whole, and the last line where the stream ends in it.
    pub(crate) fn take_piece(
        &mut self,
        alloc: Global,
        cutter: &mut Cutter,
        piece: &[u8],
        text: &mut Draft,
    ) -> Result<Option<Ending>, Memory>
        ensures adds { IfOk result (λ ending. Adds ending (showing cutter.old.rest self.old) piece.now text.old text.new (showing cutter.new.rest self.new)) }
        ensures room { IfOk result (λ ending. ending ≡ None → self.new.room + length piece.now ≡ self.old.room) }
    {
        let room = self.room;
        if piece.len() as u64 > room {
            let front = &piece[..room as usize];
            let found = self.take_frames(alloc, cutter, front, text)?;
            let ending = or_long(found);
            self.end(ending, text)?;
            return Ok(Some(ending));
        }
        let found = self.take_frames(alloc, cutter, piece, text)?;
        let Some(ending) = found else {
            return Ok(None);
        };
        self.end(ending, text)?;
        Ok(Some(ending))
    }

    /// Adds the last line of a stream that has no more bytes.
    pub(crate) fn finish(&mut self, text: &mut Draft) -> Result<Ending, Memory>
        ensures { IfOk result (λ ending. (rest : List ℕ) → ShowingFinishes ending (showing rest self.old) text.old text.new (showing rest self.new)) }
    {
        let place = MAX_STREAM.saturating_sub(self.room);
        let ending = if place == self.place {
            Ending::End { place }
        } else {
            Ending::Cut { place }
        };
        self.end(ending, text)?;
        Ok(ending)
    }
}

/// How a stream ends that has more bytes than are shown: as was found within them, or by its length.
fn or_long(found: Option<Ending>) -> Ending
    ensures { result ≡ long_unless found }
{
    match found {
        Some(ending) => ending,
        None => Ending::Long,
    }
}
