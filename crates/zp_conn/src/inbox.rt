//! The client's frames, as they come.

ghost use Rattle.std.specs.Prelude.{◌≡◌, ◌<◌, length, []};
ghost use Rattle.zp_conn.specs.Inboxes.{Cuts, Holds, IsEndedAfter, IsQuiet, Pops, ReadsFrom, ReadsOn, came_by, faults_after, kept_by as kept_came};

use std::alloc::Global;
use std::collections::VecDeque;
use std::marker::Model;
use std::thread::yield_now;
use zk_wire::{CutFault, Cutter};
use zx_base::Bytes;
use zx_outside::{Got, Source};

/// How many bytes are read ahead at most while no frame is wanted.
pub(crate) const MOST_AHEAD: usize = 1_048_576;

/// What a look at the stream gives.
#[derive(Drop)]
pub(crate) enum Came {
    /// The next frame.
    Frame(Bytes),
    /// After `place` bytes stands a length out of range.
    BadLength { place: u64, length: i32 },
    /// The stream ended after `place` bytes.
    End { place: u64 },
    /// No frame yet.
    Nothing,
    /// The source failed.
    Failed,
    /// Memory was refused.
    Memory,
}

/// What came of a stream and was not handed in yet.
#[derive(Drop)]
pub(crate) struct Inbox {
    cutter: Cutter,
    frames: VecDeque<Bytes>,
    /// How many bytes came, at most 2^64 - 1.
    count: u64,
    /// How many bytes came since no whole frame was left.
    ahead: usize,
}

impl Model for Inbox {
    ghost use Rattle.zp_conn.specs.Inboxes.{InboxState};

    ghost Value = { InboxState };

    ghost view = { λ i. record { stream = i.cutter; frames = i.frames.items; count = i.count } };
}

impl Inbox {
    /// Nothing came yet.
    #[tactic(auto, using(crate::proofs::Firsts::holds_nothing))]
    pub(crate) fn new(alloc: Global) -> Inbox
        ensures { Holds [] [] result }
    {
        Inbox {
            cutter: Cutter::new(alloc),
            frames: VecDeque::new(alloc),
            count: 0,
            ahead: 0,
        }
    }

    /// How many bytes came, at most 2^64 - 1.
    pub(crate) fn count(&self) -> u64 {
        self.count
    }

    /// The next of the frames that are whole.
    pub(crate) fn first(&self) -> Option<&[u8]> {
        match self.frames.front() {
            Some(frame) => Some(frame.as_slice()),
            None => None,
        }
    }

    /// Takes the next of the frames that are whole.
    fn pop(&mut self) -> Option<Bytes>
        ensures { Pops result self.old self.new }
    {
        let frame = self.frames.pop_front();
        if frame.is_none() {
            self.ahead = 0;
        }
        frame
    }

    /// Takes a piece of the stream. A length out of range is answered by the next call with any piece.
    fn cut(&mut self, piece: &[u8]) -> Result<(), CutFault>
        ensures { Cuts result piece.now self.old self.new }
    {
        self.count = self.count.saturating_add(piece.len() as u64);
        self.ahead = self.ahead.saturating_add(piece.len());
        let mut frames = VecDeque::from(self.cutter.take(piece)?);
        match self.frames.append(&mut frames) {
            Ok(()) => Ok(()),
            Err(_refused) => Err(CutFault::Memory),
        }
    }

    /// The next frame, or what stands in its place. Reads the source at most once, into this room, and only where no whole frame
    /// is left.
    #[tactic(auto, using(crate::proofs::Coming::next_first, crate::proofs::Coming::next_bad, crate::proofs::Coming::next_second, crate::proofs::Coming::next_read, crate::proofs::Coming::cut_faults, crate::proofs::Coming::cut_ended))]
    pub(crate) fn next<S: Source>(&mut self, source: &mut S, room: &mut [u8]) -> Came
        requires { 0 < length room.old }
        ensures comes { ReadsOn result self.old self.new (S.given source.old) (S.given source.new) (S.left source.old) (S.left source.new) }
        ensures faults { (S.counts source.new).faults ≡ faults_after result (S.counts source.old).faults }
        ensures ended { IsEndedAfter result (S.ended source.new) }
        ensures named { S.name source.new ≡ S.name source.old }
    {
        if let Some(frame) = self.pop() {
            return Came::Frame(frame);
        }
        // A length out of range may stand after the frames that came before.
        match self.cut(&[]) {
            Ok(()) => {}
            Err(fault) => return outcome_of(Err(fault)),
        }
        if let Some(frame) = self.pop() {
            return Came::Frame(frame);
        }
        self.read(source, room)
    }

    /// Reads once, into this room, where no whole frame is left.
    #[tactic(auto, using(crate::proofs::Coming::read_bytes, crate::proofs::Coming::read_nothing, crate::proofs::Coming::read_failed, crate::proofs::Coming::read_end, crate::proofs::Coming::cut_faults, crate::proofs::Coming::cut_ended))]
    fn read<S: Source>(&mut self, source: &mut S, room: &mut [u8]) -> Came
        requires none { self.old.frames ≡ [] }
        requires room { 0 < length room.old }
        ensures comes { ReadsFrom result self.old self.new (S.given source.old) (S.given source.new) (S.left source.old) (S.left source.new) }
        ensures faults { (S.counts source.new).faults ≡ faults_after result (S.counts source.old).faults }
        ensures ended { IsEndedAfter result (S.ended source.new) }
        ensures named { S.name source.new ≡ S.name source.old }
    {
        match source.read(room) {
            Got::Bytes(count) => outcome_of(self.cut(&room[..count])),
            Got::End => Came::End { place: self.count },
            Got::Nothing => Came::Nothing,
            Got::Failed => Came::Failed,
        }
    }

    /// Reads once, into this room, while no frame is wanted, so that a read that waits can wait for the client or the bell. Where
    /// enough was read ahead, and after the end of the stream, it yields. Gives `Nothing`, `Failed` or `Memory`.
    #[tactic(auto, using(crate::proofs::Coming::kept_bytes, crate::proofs::Coming::waits_nothing, crate::proofs::Coming::waits_failed, crate::proofs::Coming::waits_unread, crate::proofs::Coming::kept_faults, crate::proofs::Coming::kept_quiet))]
    pub(crate) fn read_ahead<S: Source>(&mut self, source: &mut S, room: &mut [u8]) -> Came
        requires { 0 < length room.old }
        ensures comes { ReadsOn result self.old self.new (S.given source.old) (S.given source.new) (S.left source.old) (S.left source.new) }
        ensures faults { (S.counts source.new).faults ≡ faults_after result (S.counts source.old).faults }
        ensures quiet { IsQuiet result }
        ensures named { S.name source.new ≡ S.name source.old }
    {
        if self.ahead >= MOST_AHEAD {
            yield_now();
            return Came::Nothing;
        }
        match source.read(room) {
            Got::Bytes(count) => kept_by(self.cut(&room[..count])),
            Got::End => {
                yield_now();
                Came::Nothing
            }
            Got::Nothing => Came::Nothing,
            Got::Failed => Came::Failed,
        }
    }
}

/// What cutting a piece comes to.
fn outcome_of(cut: Result<(), CutFault>) -> Came
    ensures { result ≡ came_by cut }
{
    match cut {
        Ok(()) => Came::Nothing,
        Err(CutFault::BadLength { place, length }) => Came::BadLength { place, length },
        Err(CutFault::Memory) => Came::Memory,
    }
}

/// What cutting a piece ahead comes to. A length out of range stays where it is until a frame is wanted.
fn kept_by(cut: Result<(), CutFault>) -> Came
    ensures { result ≡ kept_came cut }
{
    match cut {
        Ok(()) | Err(CutFault::BadLength { .. }) => Came::Nothing,
        Err(CutFault::Memory) => Came::Memory,
    }
}
