//! What a schedule came to, in numbers.

ghost use Rattle.std.specs.Prelude.{◌≡◌, ◌++◌, OnOk, count_by};
ghost use Rattle.zk_transcript.specs.History.{updates as updates_of};
ghost use Rattle.zp_clients.specs.Summaries.{count_text, sends_notice, sends_refusal, sends_reply, summary_of, summary_text};

use crate::sent::{is_notice, is_refusal, is_reply};
use zk_service::UpdateRec;
use zk_transcript::TranscriptLine;
use zt_text::push_number;
use zx_base::Memory;

/// Counts over the transcript of a schedule, from its first line on.
#[derive(Clone, Copy, PartialEq, Eq)]
pub struct Summary {
    /// The steps of the schedule, whatever came of each.
    pub steps: u64,
    /// The updates, that which made the root among them.
    pub updates: u64,
    /// The replies. The answers to connects are none.
    pub replies: u64,
    /// The replies that have an error.
    pub refused: u64,
    /// The notifications.
    pub notices: u64,
}

/// Whether a line sends a reply.
fn sends_reply(line: &TranscriptLine) -> bool
    ensures { result ≡ sends_reply line.now }
{
    match line {
        TranscriptLine::Send { bytes, .. } => is_reply(bytes.as_slice()),
        _ => false,
    }
}

/// Whether a line sends a reply with an error.
fn sends_refusal(line: &TranscriptLine) -> bool
    ensures { result ≡ sends_refusal line.now }
{
    match line {
        TranscriptLine::Send { bytes, .. } => is_refusal(bytes.as_slice()),
        _ => false,
    }
}

/// Whether a line sends a notification.
fn sends_notice(line: &TranscriptLine) -> bool
    ensures { result ≡ sends_notice line.now }
{
    match line {
        TranscriptLine::Send { bytes, .. } => is_notice(bytes.as_slice()),
        _ => false,
    }
}

fn replies_in(lines: &[TranscriptLine]) -> usize
    ensures { result ≡ count_by sends_reply lines.now }
{
    lines.iter().filter(|line| sends_reply(*line)).count()
}

fn refusals_in(lines: &[TranscriptLine]) -> usize
    ensures { result ≡ count_by sends_refusal lines.now }
{
    lines.iter().filter(|line| sends_refusal(*line)).count()
}

fn notices_in(lines: &[TranscriptLine]) -> usize
    ensures { result ≡ count_by sends_notice lines.now }
{
    lines.iter().filter(|line| sends_notice(*line)).count()
}

/// Counts the lines of a schedule of so many steps, which made these updates.
pub fn summary_of(steps: u32, lines: &[TranscriptLine], updates: &[UpdateRec]) -> Summary
    requires { updates.now ≡ updates_of lines.now }
    ensures { result ≡ summary_of steps lines.now }
{
    Summary {
        steps: u64::from(steps),
        updates: updates.len() as u64,
        replies: replies_in(lines) as u64,
        refused: refusals_in(lines) as u64,
        notices: notices_in(lines) as u64,
    }
}

/// Adds a line: a name, a blank and a number.
fn push_count(out: &mut Vec<u8>, name: &[u8], count: u64) -> Result<(), Memory>
    ensures { OnOk result (out.new.items ≡ out.old.items ++ count_text name.now count) }
{
    out.extend_from_slice(name)?;
    out.push(b' ')?;
    push_number(out, count)?;
    out.push(b'\n')?;
    Ok(())
}

/// Adds the five lines of a summary. Without memory, a front of them may have been added.
pub fn push_summary(out: &mut Vec<u8>, summary: &Summary) -> Result<(), Memory>
    ensures { OnOk result (out.new.items ≡ out.old.items ++ summary_text summary.now) }
{
    push_count(out, b"steps", summary.steps)?;
    push_count(out, b"updates", summary.updates)?;
    push_count(out, b"replies", summary.replies)?;
    push_count(out, b"refused", summary.refused)?;
    push_count(out, b"notices", summary.notices)
}
