//! The command `show`: a client's stream in, a line for each of its frames out.

ghost use Rattle.std.specs.Prelude.{◌≡◌, ◌≢◌, ◌+◌, ◌⊎◌, [], length, OnOk, IfErr};
ghost use Rattle.zx_outside.specs.Writing.{counts_after_write};
ghost use Rattle.zx_outside.specs.declared.sink.Took.TheVariants.{Failed as TookFailed};
ghost use Rattle.zt_show.specs.Showing.{unshown};
ghost use Rattle.zetcd_cmd.specs.Outcomes.{DidBetween, Shows, Failed, IsUnharmed};
ghost use Rattle.zetcd_cmd.specs.Streaming.{status_at, ShowPasses, Closes, ShowFinishes, counts_at};

use crate::replay::ROOM;
use crate::status::Status;
use crate::streams::{Piece, next_piece, write_all};
use std::alloc::Global;
use zt_show::{Ending, Lines, Show};
use zx_outside::{Sink, Source};

/// Why no more of a stream is shown.
#[derive(Clone, Copy, PartialEq, Eq)]
pub enum Close {
    /// The stream ended like this, and the last line was written.
    Ended(Ending),
    /// The source had a fault, or was idle for too long.
    ReadFault,
    /// The sink had a fault.
    WriteFault,
    /// Memory was refused.
    Memory,
}

/// Reads a stream to its end, or to where it cannot be read on, and writes a line for each of its frames and a last line
/// that says how it ended.
///
/// The time is linear in the stream and its text; one frame, one piece and the text of that piece are kept.
pub fn show<I: Source, O: Sink>(alloc: Global, input: &mut I, out: &mut O) -> Status
    ensures told { DidBetween I.ended I.given I.left O.taken (Shows result) input.old input.new out.old out.new }
    ensures read { result ≡ Status.ReadFault → Failed (I.counts input.old) (I.counts input.new) }
    ensures unless_read_fault { result ≢ Status.ReadFault → result ≢ Status.WriteFault → IsUnharmed (I.counts input.old) (I.counts input.new) }
    ensures once { IsUnharmed (I.counts input.old) (I.counts input.new) ⊎ Failed (I.counts input.old) (I.counts input.new) }
    ensures write { result ≡ Status.WriteFault → O.counts out.new ≡ counts_after_write TookFailed (O.counts out.old) }
    ensures unless_write_fault { result ≢ Status.WriteFault → O.counts out.new ≡ O.counts out.old }
{
    let mut show = Show::new(alloc);
    let close = show_pieces(alloc, input, out, &mut show);
    status_of(close, show.lines())
}

/// The status, by why no more is shown and how many lines there are.
fn status_of(close: Close, lines: u64) -> Status
    ensures { result ≡ status_at close lines }
{
    match close {
        Close::Ended(Ending::End { .. }) => Status::Done,
        Close::Ended(_) => Status::Script { line: lines },
        Close::ReadFault => Status::ReadFault,
        Close::WriteFault => Status::WriteFault,
        Close::Memory => Status::Memory,
    }
}

/// Shows a stream piece by piece, from its first byte on.
fn show_pieces<I: Source, O: Sink>(
    alloc: Global,
    input: &mut I,
    out: &mut O,
    show: &mut Show,
) -> Close
    requires { show.old ≡ unshown }
    ensures told { DidBetween I.ended I.given I.left O.taken (Shows (status_at result show.new.progress.lines)) input.old input.new out.old out.new }
    ensures fault { result ≡ Close.ReadFault → Failed (I.counts input.old) (I.counts input.new) }
    ensures unharmed { result ≢ Close.ReadFault → IsUnharmed (I.counts input.old) (I.counts input.new) }
    ensures count { O.counts out.new ≡ counts_at result (O.counts out.old) }
{
    let Ok(mut buffer) = vec![in alloc; 0u8; ROOM] else {
        return Close::Memory;
    };
    let mut text = Lines::new(alloc);
    let mut idle = 0;
    'pieces: loop {
        match next_piece(input, buffer.as_mut_slice(), &mut idle) {
            Piece::Bytes(count) => {
                if let Err(close) = show_piece(show, &buffer[..count], &mut text, out) {
                    return close;
                }
            }
            Piece::End => return show_end(show, &mut text, out),
            Piece::Fault => return Close::ReadFault,
        }
    }
}

/// Writes the lines that a piece adds.
fn show_piece<O: Sink>(
    show: &mut Show,
    piece: &[u8],
    text: &mut Lines,
    out: &mut O,
) -> Result<(), Close>
    requires { text.old ≡ [] }
    ensures ok { OnOk result (ShowPasses show.old piece.now (O.taken out.old) (O.taken out.new) show.new) }
    ensures empty { OnOk result (text.new ≡ []) }
    ensures room { OnOk result (show.new.progress.room + length piece.now ≡ show.old.progress.room) }
    ensures err { IfErr result (λ close. Closes close show.old piece.now (O.taken out.old) (O.taken out.new) show.new) }
    ensures unharmed { OnOk result (O.counts out.new ≡ O.counts out.old) }
    ensures count { IfErr result (λ close. O.counts out.new ≡ counts_at close (O.counts out.old)) }
{
    let Ok(ending) = show.take(piece, text) else {
        return Err(Close::Memory);
    };
    if !write_all(out, text.as_slice()) {
        return Err(Close::WriteFault);
    }
    text.clear();
    match ending {
        None => Ok(()),
        Some(ending) => Err(Close::Ended(ending)),
    }
}

/// Writes the last line of a stream whose last byte has come.
fn show_end<O: Sink>(show: &mut Show, text: &mut Lines, out: &mut O) -> Close
    requires { text.old ≡ [] }
    ensures told { ShowFinishes result show.old (O.taken out.old) (O.taken out.new) show.new }
    ensures count { O.counts out.new ≡ counts_at result (O.counts out.old) }
{
    let Ok(ending) = show.finish(text) else {
        return Close::Memory;
    };
    if write_all(out, text.as_slice()) {
        Close::Ended(ending)
    } else {
        Close::WriteFault
    }
}
