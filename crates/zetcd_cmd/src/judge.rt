//! The command `judge`: a transcript in, the verdict on it out.

ghost use Rattle.std.specs.Prelude.{◌≡◌, ◌≢◌, [], None, IfErr, IfOk};
ghost use Rattle.zt_lines.specs.Outcomes.{IsFaultOf};
ghost use Rattle.zt_lines.specs.Transcripts.{transcript};
ghost use Rattle.zx_outside.specs.Writing.{counts_after_write};
ghost use Rattle.zx_outside.specs.declared.sink.Took.TheVariants.{Failed as TookFailed};
ghost use Rattle.zetcd_cmd.specs.Outcomes.{DidBetween, Failed, IsUnharmed, Judges};
ghost use Rattle.zetcd_cmd.specs.Judged.{Finds, numbered_text, status_on, verdict_text};
ghost use Rattle.zetcd_cmd.specs.Judging.{IsReadWhole, TellsVerdict};

use crate::replay::ROOM;
use crate::status::Status;
use crate::streams::{Piece, next_piece, write_all};
use crate::tells::Tells;
use std::alloc::Global;
use zk_judge::{Verdict, judge as verdict_on};
use zk_transcript::TranscriptLine;
use zt_faults::fault_at_line;
use zt_lines::{TranscriptFault, read_transcript};
use zt_text::{MAX_SCRIPT, Unread, push_number, push_unread};
use zx_base::Memory;
use zx_outside::{Sink, Source};

/// How the reading of a transcript ended.
#[derive(Clone, Copy, PartialEq, Eq)]
pub enum Reading {
    /// All of it was read.
    Whole,
    /// It has more than [`MAX_SCRIPT`] bytes, and was not read further.
    TooLong,
    /// The source had a fault, or was idle for too long.
    Fault,
    /// Memory was refused.
    Memory,
}

/// Reads a transcript and writes the verdict on it, or the number of its first line that cannot be read; then `tells` is told why.
///
/// It takes the time of [`zk_judge::judge`]; all lines of the transcript are kept, but not its text.
pub fn judge<I: Source, O: Sink, T: Tells>(
    alloc: Global,
    input: &mut I,
    out: &mut O,
    tells: &mut T,
) -> Status
    ensures told { DidBetween I.ended I.given I.left O.taken (Judges result) input.old input.new out.old out.new }
    ensures read { result ≡ Status.ReadFault → Failed (I.counts input.old) (I.counts input.new) }
    ensures unless_read_fault { result ≢ Status.ReadFault → IsUnharmed (I.counts input.old) (I.counts input.new) }
    ensures write { result ≡ Status.WriteFault → O.counts out.new ≡ counts_after_write TookFailed (O.counts out.old) }
    ensures unless_write_fault { result ≢ Status.WriteFault → O.counts out.new ≡ O.counts out.old }
{
    let mut text = Vec::new(alloc);
    match read_text(alloc, input, &mut text) {
        Reading::Whole | Reading::TooLong => judge_text(alloc, text, out, tells),
        Reading::Fault => Status::ReadFault,
        Reading::Memory => Status::Memory,
    }
}

/// Reads the source into `text`, to its end or until `text` has more than [`MAX_SCRIPT`] bytes.
fn read_text<I: Source>(alloc: Global, input: &mut I, text: &mut Vec<u8>) -> Reading
    requires { text.old.items ≡ [] }
    ensures text { IsReadWhole result text.new.items (I.ended input.new) (I.given input.old) (I.given input.new) (I.left input.old) (I.left input.new) }
    ensures fault { result ≡ Reading.Fault → Failed (I.counts input.old) (I.counts input.new) }
    ensures unharmed { result ≢ Reading.Fault → IsUnharmed (I.counts input.old) (I.counts input.new) }
{
    let Ok(mut buffer) = vec![in alloc; 0u8; ROOM] else {
        return Reading::Memory;
    };
    let mut idle = 0;
    'pieces: while text.len() <= MAX_SCRIPT {
        match next_piece(input, buffer.as_mut_slice(), &mut idle) {
            Piece::Bytes(count) => {
                let Ok(()) = text.extend_from_slice(&buffer[..count]) else {
                    return Reading::Memory;
                };
            }
            Piece::End => return Reading::Whole,
            Piece::Fault => return Reading::Fault,
        }
    }
    Reading::TooLong
}

/// Writes what is found of a text.
fn judge_text<O: Sink, T: Tells>(alloc: Global, text: Vec<u8>, out: &mut O, tells: &mut T) -> Status
    ensures told { TellsVerdict result text.items (O.taken out.old) (O.taken out.new) }
    ensures write { result ≡ Status.WriteFault → O.counts out.new ≡ counts_after_write TookFailed (O.counts out.old) }
    ensures unless_write_fault { result ≢ Status.WriteFault → O.counts out.new ≡ O.counts out.old }
{
    let Ok(Finding { status, text }) = find(alloc, text, tells) else {
        return Status::Memory;
    };
    if write_all(out, text.as_slice()) {
        status
    } else {
        Status::WriteFault
    }
}

/// What is found of a text: the status, and what is written.
#[derive(Drop)]
pub struct Finding {
    status: Status,
    text: Vec<u8>,
}

/// The lines of a transcript. The text is given back before they are judged.
fn lines_of<T: Tells>(
    alloc: Global,
    text: Vec<u8>,
    tells: &mut T,
) -> Result<Vec<TranscriptLine>, TranscriptFault>
    ensures ok { IfOk result (λ v. transcript text.items ≡ (v.items, None)) }
    ensures err { IfErr result (IsFaultOf (transcript text.items)) }
{
    let lines = read_transcript(alloc, &text);
    tell_fault(alloc, text.as_slice(), &lines, tells);
    lines
}

/// Tells why a line of this text cannot be read, if that is what its reading came to.
fn tell_fault<T: Tells>(
    alloc: Global,
    text: &[u8],
    lines: &Result<Vec<TranscriptLine>, TranscriptFault>,
    tells: &mut T,
) {
    if let Err(TranscriptFault::Unreadable { line }) = lines
        && let Ok(Some(fault)) = fault_at_line(alloc, text, *line)
    {
        tells.unread(*line, fault);
    }
}

fn find<T: Tells>(alloc: Global, text: Vec<u8>, tells: &mut T) -> Result<Finding, Memory>
    ensures { IfOk result (λ f. Finds f.status text.items f.text.items) }
{
    match lines_of(alloc, text, tells) {
        Ok(lines) => {
            let verdict = verdict_on(alloc, &lines)?;
            Ok(Finding {
                status: status_on(verdict),
                text: text_on(alloc, verdict)?,
            })
        }
        Err(TranscriptFault::Unreadable { line }) => {
            let mut text = Vec::new(alloc);
            push_unread(&mut text, line, Unread::Unreadable)?;
            Ok(Finding {
                status: Status::Script { line },
                text,
            })
        }
        Err(TranscriptFault::Memory) => Err(Memory),
    }
}

fn status_on(verdict: Verdict) -> Status
    ensures { result ≡ status_on verdict }
{
    match verdict {
        Verdict::Lawful => Status::Done,
        Verdict::History { .. } | Verdict::Order { .. } | Verdict::Conversation { .. } =>
            Status::Unlawful,
    }
}

/// The line that is written of a verdict.
fn text_on(alloc: Global, verdict: Verdict) -> Result<Vec<u8>, Memory>
    ensures { IfOk result (λ text. text.items ≡ verdict_text verdict) }
{
    match verdict {
        Verdict::Lawful => Ok(Vec::from_slice(alloc, b"lawful\n")?),
        Verdict::History { line } => numbered(alloc, b"unlawful history ", line),
        Verdict::Order { line } => numbered(alloc, b"unlawful order ", line),
        Verdict::Conversation { connection } => {
            numbered(alloc, b"unlawful connection ", u64::from(connection))
        }
    }
}

/// A line of some words and a number.
fn numbered(alloc: Global, words: &[u8], number: u64) -> Result<Vec<u8>, Memory>
    ensures { IfOk result (λ text. text.items ≡ numbered_text words.now number) }
{
    let mut text = Vec::from_slice(alloc, words)?;
    push_number(&mut text, number)?;
    text.push(b'\n')?;
    Ok(text)
}
