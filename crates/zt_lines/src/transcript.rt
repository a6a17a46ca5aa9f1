//! All lines of a transcript.

ghost use Rattle.std.specs.Prelude.{◌≡◌, ◌≤◌, ◌++◌, ◌∷◌, [], length, Some, None, IfOk, IfErr, OnOk};
ghost use Rattle.zk_transcript.specs.declared.transcript.TranscriptLine.{TranscriptLine as SomeLine};
ghost use Rattle.zt_text.specs.Scripts.{max_script, pieces};
ghost use Rattle.zt_lines.specs.Lines.{line_read};
ghost use Rattle.zt_lines.specs.Transcripts.{last_line as last_line_of, lines_from, nothing_after as nothing_after_of, onto, transcript};
ghost use Rattle.zt_lines.specs.Outcomes.{IsFaultOf, IsUnread};

use crate::last::{is_last_line, part};
use crate::lines::read_line;
use std::alloc::Global;
use zk_transcript::TranscriptLine;
use zt_text::MAX_SCRIPT;
use zx_base::Memory;

const LINE_FEED: u8 = b'\n';

/// Why a transcript was not read.
#[derive(Clone, Copy, PartialEq, Eq)]
pub enum TranscriptFault {
    /// This line, counted from 1, is the first that is of no form, stands after the last line, is longer than 2,200,000
    /// bytes, or has the transcript's 100,000,001st byte.
    Unreadable { line: u64 },
    Memory,
}

impl From<Memory> for TranscriptFault {
    ghost use Rattle.std.specs.Prelude.{◌≡◌};
    ghost use Rattle.zt_lines.specs.declared.transcript.TranscriptFault.TheVariants.{Memory};

    ghost from_gives = { λ _ e. e ≡ Memory };

    fn from(_refused: Memory) -> TranscriptFault {
        TranscriptFault::Memory
    }
}

/// The lines of a transcript's text. A last line `done` or `fault LINE WHY` is no line of the transcript; the line feed of the
/// text's last line may be missing.
#[tactic(auto, unfolding(crate::specs::Transcripts::transcript))]
pub fn read_transcript(alloc: Global, bytes: &[u8]) -> Result<Vec<TranscriptLine>, TranscriptFault>
    ensures ok { IfOk result (λ v. transcript bytes.now ≡ (v.items, None)) }
    ensures err { IfErr result (IsFaultOf (transcript bytes.now)) }
{
    if MAX_SCRIPT < bytes.len() {
        read_lines(alloc, &bytes[..MAX_SCRIPT], true)
    } else {
        read_lines(alloc, bytes, false)
    }
}

/// The lines of a text that is the whole transcript, or as much of it as may be read.
fn read_lines(
    alloc: Global,
    bytes: &[u8],
    is_cut: bool,
) -> Result<Vec<TranscriptLine>, TranscriptFault>
    requires { length bytes.now ≤ max_script }
    ensures ok { IfOk result (λ v. lines_from is_cut 1 (pieces 10 bytes.now) ≡ (v.items, None)) }
    ensures err { IfErr result (IsFaultOf (lines_from is_cut 1 (pieces 10 bytes.now))) }
{
    let mut lines = Vec::new(alloc);
    let mut rest = bytes;
    let mut number: u64 = 1;
    'lines: while let Some((line, after)) = part(rest, LINE_FEED) {
        if is_last_line(line) {
            return nothing_after(lines, is_cut, number.saturating_add(1), after);
        }
        add_line(alloc, &mut lines, number, line)?;
        rest = after;
        number = number.saturating_add(1);
    }
    last_line(alloc, lines, is_cut, number, rest)
}

/// Adds a line, by its number.
fn add_line(
    alloc: Global,
    lines: &mut Vec<TranscriptLine>,
    number: u64,
    line: &[u8],
) -> Result<(), TranscriptFault>
    ensures ok { OnOk result ((l : SomeLine) × (line_read line.now ≡ Some l) × (lines.new.items ≡ lines.old.items ++ l ∷ [])) }
    ensures err { IfErr result (IsUnread number (line_read line.now)) }
{
    let Some(read) = read_line(alloc, line)? else {
        return Err(TranscriptFault::Unreadable { line: number });
    };
    match lines.push(read) {
        Ok(()) => Ok(()),
        Err(_refused) => Err(TranscriptFault::Memory),
    }
}

/// These lines, if nothing follows the last line of the text; `number` is that of the line that would.
fn nothing_after(
    lines: Vec<TranscriptLine>,
    is_cut: bool,
    number: u64,
    after: &[u8],
) -> Result<Vec<TranscriptLine>, TranscriptFault>
    ensures ok { IfOk result (λ v. onto lines.items (nothing_after_of is_cut number (pieces 10 after.now)) ≡ (v.items, None)) }
    ensures err { IfErr result (IsFaultOf (nothing_after_of is_cut number (pieces 10 after.now))) }
{
    if is_cut {
        return Err(TranscriptFault::Unreadable { line: number });
    }
    if after.is_empty() {
        return Ok(lines);
    }
    Err(TranscriptFault::Unreadable { line: number })
}

/// These lines, and line `number`, which follows the last line feed, if it is one of the transcript.
fn last_line(
    alloc: Global,
    lines: Vec<TranscriptLine>,
    is_cut: bool,
    number: u64,
    line: &[u8],
) -> Result<Vec<TranscriptLine>, TranscriptFault>
    ensures ok { IfOk result (λ v. onto lines.items (last_line_of is_cut number line.now) ≡ (v.items, None)) }
    ensures err { IfErr result (IsFaultOf (last_line_of is_cut number line.now)) }
{
    if is_cut {
        return Err(TranscriptFault::Unreadable { line: number });
    }
    if line.is_empty() || is_last_line(line) {
        return Ok(lines);
    }
    let mut lines = lines;
    add_line(alloc, &mut lines, number, line)?;
    Ok(lines)
}
