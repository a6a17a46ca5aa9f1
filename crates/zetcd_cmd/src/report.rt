//! What a replay writes: the lines of its transcript, and at last how the script ended.

ghost use Rattle.std.specs.Prelude.{◌≡◌, ◌++◌, [], OnOk, OnErr, IfErr};
ghost use Rattle.zt_text.specs.Transcripts.{line_text, transcript_text};
ghost use Rattle.zx_outside.specs.Writing.{Takes};
ghost use Rattle.zetcd_cmd.specs.Outcomes.{TakesSome};
ghost use Rattle.zetcd_cmd.specs.Reporting.{ReportPasses, ending_text, status_after, counts_unwritten};

use crate::script::Stop;
use crate::status::Status;
use crate::streams::write_all;
use std::alloc::Global;
use zk_transcript::TranscriptLine;
use zt_text::{push_done, push_fault, push_line, push_unread};
use zx_base::Memory;
use zx_outside::Sink;

/// The buffer is written out once it has this many bytes.
const MAX_KEPT: usize = 65_536;

/// How the reading of a script ended.
#[derive(Clone, Copy, PartialEq, Eq)]
pub enum End {
    /// All of it was applied.
    Whole,
    /// The next line was not applied, for this reason.
    Stopped(Stop),
    /// The source had a fault, or was idle for too long.
    ReadFault,
}

/// Why not all was written.
#[derive(Clone, Copy, PartialEq, Eq)]
pub enum Unwritten {
    /// The sink had a fault.
    Sink,
    /// Memory was refused.
    Memory,
}

impl From<Memory> for Unwritten {
    ghost use Rattle.std.specs.Prelude.{◌≡◌};
    ghost use Rattle.zetcd_cmd.specs.declared.report.Unwritten.TheVariants.{Memory};

    ghost from_gives = { λ _ e. e ≡ Memory };

    fn from(_refused: Memory) -> Unwritten {
        Unwritten::Memory
    }
}

/// The status of a replay whose report was written. `line` is the number of the next line, which was not applied.
pub fn status_of(end: End, line: u64) -> Status
    ensures { result ≡ status_after end line }
{
    match end {
        End::Whole => Status::Done,
        End::Stopped(Stop::Memory) => Status::Memory,
        End::Stopped(_) => Status::Script { line },
        End::ReadFault => Status::ReadFault,
    }
}

/// Writes lines, all of them before it returns.
pub fn write_whole<O: Sink>(
    alloc: Global,
    lines: &[TranscriptLine],
    out: &mut O,
) -> Result<(), Unwritten>
    ensures ok { OnOk result (Takes (transcript_text lines.now) (O.taken out.old) (O.taken out.new)) }
    ensures front { IfErr result (λ e. TakesSome (transcript_text lines.now) (O.taken out.old) (O.taken out.new)) }
    ensures unharmed { OnOk result (O.counts out.new ≡ O.counts out.old) }
    ensures err { IfErr result (λ e. O.counts out.new ≡ counts_unwritten e (O.counts out.old)) }
{
    let mut text = Vec::new(alloc);
    write_lines(lines, &mut text, out)?;
    write_out(&mut text, out)
}

/// Writes lines, and then how the script ended. `line` is the number of the next line, which was not applied.
pub fn report<O: Sink>(
    alloc: Global,
    lines: &[TranscriptLine],
    end: End,
    line: u64,
    out: &mut O,
) -> Result<(), Unwritten>
    ensures ok { OnOk result (Takes (transcript_text lines.now ++ ending_text end line) (O.taken out.old) (O.taken out.new)) }
    ensures front { IfErr result (λ e. TakesSome (transcript_text lines.now ++ ending_text end line) (O.taken out.old) (O.taken out.new)) }
    ensures unharmed { OnOk result (O.counts out.new ≡ O.counts out.old) }
    ensures err { IfErr result (λ e. O.counts out.new ≡ counts_unwritten e (O.counts out.old)) }
{
    let mut text = Vec::new(alloc);
    write_lines(lines, &mut text, out)?;
    push_end(&mut text, end, line)?;
    write_out(&mut text, out)
}

/// Writes lines. What is not written yet stays in `text`.
fn write_lines<O: Sink>(
    lines: &[TranscriptLine],
    text: &mut Vec<u8>,
    out: &mut O,
) -> Result<(), Unwritten>
    ensures ok { OnOk result (ReportPasses (transcript_text lines.now) text.old.items text.new.items (O.taken out.old) (O.taken out.new)) }
    ensures front { IfErr result (λ e. TakesSome (text.old.items ++ transcript_text lines.now) (O.taken out.old) (O.taken out.new)) }
    ensures unharmed { OnOk result (O.counts out.new ≡ O.counts out.old) }
    ensures err { IfErr result (λ e. O.counts out.new ≡ counts_unwritten e (O.counts out.old)) }
{
    for line in lines {
        write_line(line, text, out)?;
    }
    Ok(())
}

/// Adds a line to `text`, and writes all of that once it is long enough.
fn write_line<O: Sink>(
    line: &TranscriptLine,
    text: &mut Vec<u8>,
    out: &mut O,
) -> Result<(), Unwritten>
    ensures ok { OnOk result (ReportPasses (line_text line.now) text.old.items text.new.items (O.taken out.old) (O.taken out.new)) }
    ensures front { IfErr result (λ e. TakesSome (text.old.items ++ line_text line.now) (O.taken out.old) (O.taken out.new)) }
    ensures unharmed { OnOk result (O.counts out.new ≡ O.counts out.old) }
    ensures err { IfErr result (λ e. O.counts out.new ≡ counts_unwritten e (O.counts out.old)) }
{
    push_line(text, line)?;
    if text.len() < MAX_KEPT {
        return Ok(());
    }
    write_out(text, out)
}

/// Writes all of `text` and empties it; its room is kept.
fn write_out<O: Sink>(text: &mut Vec<u8>, out: &mut O) -> Result<(), Unwritten>
    ensures ok { OnOk result (Takes text.old.items (O.taken out.old) (O.taken out.new)) }
    ensures empty { OnOk result (text.new.items ≡ []) }
    ensures front { IfErr result (λ e. TakesSome text.old.items (O.taken out.old) (O.taken out.new)) }
    ensures unharmed { OnOk result (O.counts out.new ≡ O.counts out.old) }
    ensures err { IfErr result (λ e. O.counts out.new ≡ counts_unwritten e (O.counts out.old)) }
{
    if !write_all(out, text.as_slice()) {
        return Err(Unwritten::Sink);
    }
    text.clear();
    Ok(())
}

/// Adds the last line. There is none after a fault of the input, or where memory was refused.
fn push_end(text: &mut Vec<u8>, end: End, line: u64) -> Result<(), Memory>
    ensures ok { OnOk result (text.new.items ≡ text.old.items ++ ending_text end line) }
    ensures err { OnErr result (text.new.items ≡ text.old.items) }
{
    match end {
        End::Whole => push_done(text),
        End::Stopped(Stop::Unread(why)) => push_unread(text, line, why),
        End::Stopped(Stop::Refused(why)) => push_fault(text, line, why),
        End::Stopped(Stop::Memory) | End::ReadFault => Ok(()),
    }
}
