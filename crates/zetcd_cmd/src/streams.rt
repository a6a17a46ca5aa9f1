//! Reads the next piece of a source, and writes a whole piece to a sink.

ghost use Rattle.std.specs.Prelude.{◌≡◌, ◌≢◌, ◌<◌, length, IsTrue, true, false};
ghost use Rattle.zx_outside.specs.Counts.{InputCounts};
ghost use Rattle.zx_outside.specs.Writing.{Takes, counts_after_write};
ghost use Rattle.zx_outside.specs.declared.sink.Took.TheVariants.{Failed as TookFailed};
ghost use Rattle.zetcd_cmd.specs.Outcomes.{Failed, TakesSome};
ghost use Rattle.zetcd_cmd.specs.Streams.{PieceComes, PieceFits, Waited, MayWait};

use zx_outside::{Got, Sink, Source};

/// This many idle turns in one command are a fault of its input.
pub const PATIENCE: u32 = 1000;

/// What the next bytes of a source are.
#[derive(Clone, Copy, PartialEq, Eq)]
pub enum Piece {
    /// This many bytes, at the front of the buffer.
    Bytes(usize),
    /// There are no more.
    End,
    /// The source had a fault, or was idle for too long.
    Fault,
}

/// The next bytes of a source. `idle` counts the idle turns of the command so far; if there are [`PATIENCE`] of them, the source
/// is at fault.
pub fn next_piece<I: Source>(input: &mut I, buffer: &mut [u8], idle: &mut u32) -> Piece
    requires { 0 < length buffer.old }
    ensures size { PieceFits result (length buffer.new) }
    ensures bytes { PieceComes result buffer.new (I.given input.old) (I.given input.new) (I.left input.old) (I.left input.new) }
    ensures end { result ≡ Piece.End → I.ended input.new ≡ true }
    ensures fault { result ≡ Piece.Fault → (start : InputCounts) → Waited start idle.old (I.counts input.old) → Failed start (I.counts input.new) }
    ensures waited { result ≢ Piece.Fault → (start : InputCounts) → Waited start idle.old (I.counts input.old) → MayWait start idle.new (I.counts input.new) }
{
    'turns: while *idle < PATIENCE {
        match input.read(buffer) {
            Got::Bytes(count) => return Piece::Bytes(count),
            Got::End => return Piece::End,
            Got::Failed => return Piece::Fault,
            Got::Nothing => *idle += 1,
        }
    }
    Piece::Fault
}

/// Writes all of the bytes, and says whether the sink took them all. After a fault it took some front of them.
pub fn write_all<O: Sink>(out: &mut O, bytes: &[u8]) -> bool
    ensures taken { IsTrue result → Takes bytes.now (O.taken out.old) (O.taken out.new) }
    ensures front { result ≡ false → TakesSome bytes.now (O.taken out.old) (O.taken out.new) }
    ensures count { result ≡ false → O.counts out.new ≡ counts_after_write TookFailed (O.counts out.old) }
    ensures unharmed { IsTrue result → O.counts out.new ≡ O.counts out.old }
{
    zx_outside::write_all(out, bytes)
}
