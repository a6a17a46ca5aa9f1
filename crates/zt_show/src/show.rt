//! A stream that comes piece by piece.

ghost use Rattle.std.specs.Prelude.{◌≡◌, ◌+◌, length, None, IfOk, IsErr, IsTrue, OnErr};
ghost use Rattle.zt_show.specs.Showing.{Adds, ShowingFinishes, unshown};

use crate::draft::Draft;
use crate::ending::Ending;
use crate::lines::Lines;
use crate::progress::Progress;
use std::alloc::Global;
use std::marker::Model;
use zk_wire::Cutter;
use zx_base::Memory;

/// A stream of which some bytes came. The line of a frame is added once the frame is whole, so that between calls no more
/// than one frame is kept. Once a call has answered an ending, nothing is said of what later calls add. Once memory was
/// refused, every later call answers so too.
#[derive(Drop)]
pub struct Show {
    alloc: Global,
    cutter: Cutter,
    progress: Progress,
    /// The lines that a call adds, until all of them are made.
    draft: Draft,
    has_failed: bool,
}

impl Model for Show {
    ghost use Rattle.zt_show.specs.Showing.{Showing};

    ghost Value = { Showing };

    ghost view = { λ s. record { rest = s.cutter.rest; progress = s.progress; has_failed = s.has_failed } };
}

impl Show {
    /// A stream of which nothing came yet. Takes no memory.
    pub fn new(alloc: Global) -> Show
        ensures { result ≡ unshown }
    {
        Show {
            alloc,
            cutter: Cutter::new(alloc),
            progress: Progress::new(),
            draft: Draft::new(alloc),
            has_failed: false,
        }
    }

    /// How many lines were added, the last included.
    pub fn lines(&self) -> u64
        ensures { result ≡ self.now.progress.lines }
    {
        self.progress.lines
    }

    /// Adds the lines of the frames that this piece makes whole. If the stream ends in the piece, whatever comes after it,
    /// adds the last line and answers how: at a length out of range, a frame without a header, or the 100,000,001st byte.
    pub fn take(&mut self, piece: &[u8], text: &mut Lines) -> Result<Option<Ending>, Memory>
        ensures adds { IfOk result (λ ending. Adds ending self.old piece.now text.old text.new self.new) }
        ensures room { IfOk result (λ ending. ending ≡ None → self.new.progress.room + length piece.now ≡ self.old.progress.room) }

        // Without memory nothing is added, by this call and by each later one.
        ensures adds_none { OnErr result (text.new ≡ text.old) }
        ensures fails { OnErr result (IsTrue self.new.has_failed) }
        ensures for_good { IsTrue self.old.has_failed → IsErr result }
    {
        if self.has_failed {
            return Err(Memory);
        }
        self.has_failed = true;
        self.draft.clear();
        let ending = self
            .progress
            .take_piece(self.alloc, &mut self.cutter, piece, &mut self.draft)?;
        text.append(self.draft.as_slice())?;
        self.has_failed = false;
        Ok(ending)
    }

    /// Adds the last line of a stream that has no more bytes and has not ended before: at a frame's end or inside one.
    pub fn finish(&mut self, text: &mut Lines) -> Result<Ending, Memory>
        ensures adds { IfOk result (λ ending. ShowingFinishes ending self.old text.old text.new self.new) }

        // Without memory nothing is added, by this call and by each later one.
        ensures adds_none { OnErr result (text.new ≡ text.old) }
        ensures fails { OnErr result (IsTrue self.new.has_failed) }
        ensures for_good { IsTrue self.old.has_failed → IsErr result }
    {
        if self.has_failed {
            return Err(Memory);
        }
        self.has_failed = true;
        self.draft.clear();
        let ending = self.progress.finish(&mut self.draft)?;
        text.append(self.draft.as_slice())?;
        self.has_failed = false;
        Ok(ending)
    }
}
