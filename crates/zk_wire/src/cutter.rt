//! Cutting a stream into frames.

ghost use Rattle.std.specs.Prelude.{◌≡◌, [], ℤ, MatchOption, Some, IfOk, Ok, Err, IsErr};
ghost use Rattle.zk_jute.specs.Frames.{Framed, bad_length as bad_length_of, frame_at};
ghost use Rattle.zk_wire.specs.Cutting.{Stream, unread, CutTakes};
ghost use Rattle.zk_wire.specs.declared.cutter.CutFault.TheVariants as faults;

use crate::reader::first_int;
use std::alloc::{AllocError, Global};
use std::marker::Model;
use zk_model::limit::MAX_FRAME;
use zx_base::Bytes;

/// Why a stream is not cut any further. A bad length is for good; memory may be there at a later call.
#[derive(Clone, Copy, PartialEq, Eq)]
pub enum CutFault {
    /// The length that stands after `place` bytes of the stream is below 0 or above [`MAX_FRAME`].
    BadLength { place: u64, length: i32 },
    /// Memory was refused. The cutter is as it was before the call.
    Memory,
}

/// A stream that comes in pieces. Contracts see the bytes of it that were not handed out yet, and how many bytes came before
/// them.
#[derive(Drop)]
pub struct Cutter {
    alloc: Global,
    /// How many bytes stand before `rest` in the stream, at most 2^64 - 1.
    place: u64,
    rest: Vec<u8>,
}

impl Model for Cutter {
    ghost Value = { Stream };

    ghost view = { λ c. record { place = c.place; rest = c.rest.items } };
}

impl Cutter {
    /// A stream of which nothing came yet. Takes no memory.
    pub fn new(alloc: Global) -> Cutter
        ensures { result ≡ unread }
    {
        Cutter {
            alloc,
            place: 0,
            rest: Vec::new(alloc),
        }
    }

    /// The frames that this piece of the stream makes whole, in order. A length out of range is answered only by a call
    /// that has no frame to hand out; from then on each call answers it, and keeps nothing of its piece. Without memory
    /// the piece is not taken, and the cutter is as it was. Copies each frame once; where bytes are held, the whole piece
    /// once more.
    pub fn take(&mut self, piece: &[u8]) -> Result<Vec<Bytes>, CutFault>
        ensures takes { CutTakes self.old piece.now result self.new }
        ensures for_good { (n : ℤ) → bad_length_of self.old.rest ≡ Some n → result ≡ Err (faults.BadLength self.old.place n) }
        ensures holds_no_more { (n : ℤ) → bad_length_of self.old.rest ≡ Some n → self.new ≡ self.old }
    {
        if self.rest.is_empty() {
            self.take_front(piece)
        } else {
            self.take_after(piece)
        }
    }

    /// [`Cutter::take`] where no bytes are held: the frames are copied straight from the piece.
    fn take_front(&mut self, piece: &[u8]) -> Result<Vec<Bytes>, CutFault>
        requires { self.old.rest ≡ [] }
        ensures { CutTakes self.old piece.now result self.new }
    {
        let Ok((frames, rest)) = cut(self.alloc, piece) else {
            return Err(CutFault::Memory);
        };
        if !frames.is_empty() {
            if self.rest.extend_from_slice(rest).is_err() {
                return Err(CutFault::Memory);
            }
            let cut_off = piece.len() - rest.len();
            self.place = self.place.saturating_add(cut_off as u64);
            return Ok(frames);
        }
        self.take_after(piece)
    }

    /// [`Cutter::take`] for any bytes held: the piece is added to them, and the frames are copied from there.
    fn take_after(&mut self, piece: &[u8]) -> Result<Vec<Bytes>, CutFault>
        ensures takes { CutTakes self.old piece.now result self.new }
        ensures for_good { (n : ℤ) → bad_length_of self.old.rest ≡ Some n → result ≡ Err (faults.BadLength self.old.place n) }
        ensures holds_no_more { (n : ℤ) → bad_length_of self.old.rest ≡ Some n → self.new ≡ self.old }
    {
        let place = self.place;
        if let Some(length) = bad_length(&self.rest) {
            return Err(CutFault::BadLength { place, length });
        }
        let held = self.rest.len();
        if self.rest.extend_from_slice(piece).is_err() {
            return Err(CutFault::Memory);
        }
        let Ok((frames, rest)) = cut(self.alloc, &self.rest) else {
            self.rest.truncate(held);
            return Err(CutFault::Memory);
        };
        if frames.is_empty() {
            if let Some(length) = bad_length(&self.rest) {
                return Err(CutFault::BadLength { place, length });
            }
            return Ok(frames);
        }
        let used = self.rest.len() - rest.len();
        let Ok(rest) = Vec::from_slice(self.alloc, rest) else {
            self.rest.truncate(held);
            return Err(CutFault::Memory);
        };
        self.rest = rest;
        self.place = place.saturating_add(used as u64);
        Ok(frames)
    }
}

/// The length at the front, where it is out of range.
fn bad_length(bytes: &[u8]) -> Option<i32>
    ensures { result ≡ bad_length_of bytes.now }
{
    if bytes.len() < 4 {
        return None;
    }
    match first_int(bytes) {
        0..=1_048_575 => None,
        length => Some(length),
    }
}

/// The frame at the front, and the bytes after it; `None` where no whole frame of a length in range stands there.
fn split_frame(bytes: &[u8]) -> Option<(&[u8], &[u8])>
    ensures { MatchOption result (IsErr (frame_at bytes.now)) (λ x. frame_at bytes.now ≡ Ok (x.0.now, x.1.now)) }
{
    if bytes.len() < 4 {
        return None;
    }
    let length = first_int(bytes);
    let rest = &bytes[4..];
    match usize::try_from(length) {
        Ok(length) if length <= MAX_FRAME && length <= rest.len() => Some(rest.split_at(length)),
        _ => None,
    }
}

/// The whole frames from the front, and the rest.
fn cut(alloc: Global, bytes: &[u8]) -> Result<(Vec<Bytes>, &[u8]), AllocError>
    ensures { IfOk result (λ x. Framed bytes.now x.0.items x.1.now) }
{
    let mut frames = Vec::new(alloc);
    let mut rest = bytes;
    while let Some((frame, after)) = split_frame(rest) {
        let frame = Bytes::from_vec(Vec::from_slice(alloc, frame)?);
        frames.push(frame)?;
        rest = after;
    }
    Ok((frames, rest))
}
