//! The bytes of a client's stream that are no whole frame yet.

ghost use Rattle.std.specs.Prelude.{◌≡◌, ◌+◌, ◌++◌, ◌≤◌, ℕ, List, None, min, nat_lt, length, sum_by, IfOk, IsErr, IsTrue, All};
ghost use Rattle.zk_jute.specs.Frames.{bad_length, frame_at};
ghost use Rattle.zk_jute.specs.JuteWriting.{with_length};
ghost use Rattle.zk_model.specs.Limits.{max_frame};
ghost use Rattle.zp_script.specs.Arriving.{CutsFrames};
ghost use Rattle.zk_wire.specs.Cutting.{CutStands, Stream, unread};
ghost use Rattle.zp_step.specs.Stages.{counted_up};
ghost use Rattle.zp_world.specs.Framing.{framed_size};

use byteorder::{BigEndian, ByteOrder};
use std::alloc::Global;
use std::marker::Model;
use zk_model::limit::MAX_FRAME;
use zk_wire::{CutFault, Cutter};
use zx_base::{Bytes, Memory};

/// The bytes of a stream that are no whole frame yet, and how many bytes came before them.
#[derive(Drop)]
pub struct Inbox {
    alloc: Global,
    /// How many bytes came before `rest`. At 2^64 - 1 the count stays.
    place: u64,
    rest: Vec<u8>,
}

impl Model for Inbox {
    ghost use Rattle.zk_wire.specs.Cutting.{Stream};

    ghost Value = { Stream };

    ghost view = { λ i. record { place = i.place; rest = i.rest.items } };
}

/// What came with some bytes.
#[derive(Drop)]
pub struct Cut {
    /// The frames that are whole with them.
    pub frames: Vec<Bytes>,
    /// The length that follows those, if it is out of range.
    pub bad: Option<i32>,
    /// What is left.
    pub inbox: Inbox,
}

impl Inbox {
    /// Nothing came.
    pub fn new(alloc: Global) -> Inbox
        ensures { result ≡ unread }
    {
        Inbox {
            alloc,
            place: 0,
            rest: Vec::new(alloc),
        }
    }

    /// Whether a part of a frame has come.
    pub fn has_part(&self) -> bool
        ensures { result ≡ nat_lt 0 (length self.now.rest) }
    {
        0 < self.rest.len()
    }

    /// How many bytes came before those that are no whole frame yet.
    pub fn place(&self) -> u64
        ensures { result ≡ self.now.place }
    {
        self.place
    }

    /// How many bytes came in all. At 2^64 - 1 the count stays.
    pub fn end(&self) -> u64
        ensures { result ≡ counted_up (self.now.place + length self.now.rest) }
    {
        self.place.saturating_add(self.rest.len() as u64)
    }

    /// A whole frame comes, where no part of one has come. `bytes` lacks its length, which counts among the bytes that came.
    pub fn with_frame(&self, bytes: Bytes) -> Result<Cut, Memory>
        requires size { length bytes ≤ max_frame }
        requires none { length self.now.rest ≡ 0 }
        ensures cuts { IfOk result (λ cut. CutsFrames self.now (with_length bytes) cut.frames.items cut.bad cut.inbox) }
        ensures short { IfOk result (λ cut. All (λ frame. length frame ≤ max_frame) cut.frames.items) }
    {
        let size = 4 + bytes.len() as u64;
        let mut frames = Vec::new(self.alloc);
        frames.push(bytes)?;
        Ok(Cut {
            frames,
            bad: None,
            inbox: Inbox {
                alloc: self.alloc,
                place: self.place.saturating_add(size),
                rest: Vec::new(self.alloc),
            },
        })
    }

    /// These bytes come. While they make no frame whole they are added to the list of what came before, in amortized time linear in
    /// these bytes alone: only where the list grows, which at least doubles it, is what came before copied.
    pub fn with(self, bytes: &[u8]) -> Result<Cut, Memory>
        ensures cuts { IfOk result (λ cut. CutsFrames self bytes.now cut.frames.items cut.bad cut.inbox) }
        ensures short { IfOk result (λ cut. All (λ frame. length frame ≤ max_frame) cut.frames.items) }
    {
        let mut stream = self.rest;
        stream.extend_from_slice(bytes)?;
        if is_part(stream.as_slice()) {
            return Ok(Cut {
                frames: Vec::new(self.alloc),
                bad: None,
                inbox: Inbox {
                    alloc: self.alloc,
                    place: self.place,
                    rest: stream,
                },
            });
        }
        cut_whole(self.alloc, self.place, stream)
    }
}

/// Whether a stream is a part of a frame of which more has to come, and its length, where it is there, is in range.
fn is_part(stream: &[u8]) -> bool
    ensures rest { IsTrue result → IsErr (frame_at stream.now) }
    ensures good { IsTrue result → bad_length stream.now ≡ None }
{
    if stream.len() < 4 {
        return true;
    }
    let length = BigEndian::read_i32(stream);
    let rest = &stream[4..];
    match usize::try_from(length) {
        Ok(length) if length <= MAX_FRAME && rest.len() < length => true,
        _ => false,
    }
}

/// Cuts a stream, before which so many bytes came.
fn cut_whole(alloc: Global, place: u64, stream: Vec<u8>) -> Result<Cut, Memory>
    ensures cuts { IfOk result (λ cut. (old : Stream) (bytes : List ℕ) → old.place ≡ place → stream.items ≡ old.rest ++ bytes → CutsFrames old bytes cut.frames.items cut.bad cut.inbox) }
    ensures short { IfOk result (λ cut. All (λ frame. length frame ≤ max_frame) cut.frames.items) }
{
    let mut cutter = Cutter::new(alloc);
    let frames = frames_in(alloc, &mut cutter, stream.as_slice())?;
    let bad = bad_length_in(&mut cutter)?;
    let used = size_of_all(frames.as_slice()).min(stream.len());
    let rest = Vec::from_slice(alloc, &stream[used..])?;
    Ok(Cut {
        frames,
        bad,
        inbox: Inbox {
            alloc,
            place: place.saturating_add(used as u64),
            rest,
        },
    })
}

/// The whole frames from the front of a stream of which nothing came yet.
fn frames_in(alloc: Global, cutter: &mut Cutter, stream: &[u8]) -> Result<Vec<Bytes>, Memory>
    requires { cutter.old ≡ unread }
    ensures { IfOk result (λ frames. CutStands stream.now frames.items cutter.new) }
{
    match cutter.take(stream) {
        Ok(frames) => Ok(frames),
        Err(CutFault::BadLength { .. }) => Ok(Vec::new(alloc)),
        Err(CutFault::Memory) => Err(Memory),
    }
}

/// The length at the front of what is left, where it is out of range.
fn bad_length_in(cutter: &mut Cutter) -> Result<Option<i32>, Memory>
    ensures { IfOk result (λ bad. bad ≡ bad_length cutter.old.rest) }
{
    match cutter.take(&[]) {
        Ok(_) => Ok(None),
        Err(CutFault::BadLength { length, .. }) => Ok(Some(length)),
        Err(CutFault::Memory) => Err(Memory),
    }
}

/// The bytes of these frames, with their lengths.
fn size_of_all(frames: &[Bytes]) -> usize
    ensures { result ≡ min (sum_by framed_size frames.now) usize.MAX }
{
    let mut size: usize = 0;
    for frame in frames {
        size = size.saturating_add(4).saturating_add(frame.len());
    }
    size
}
