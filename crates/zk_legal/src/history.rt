//! The first line that no run of the service can have written there.

ghost use Rattle.std.specs.Prelude.{◌≡◌, [], IfOk};
ghost use Rattle.zk_history.specs.Fits.{Fits, IsCountable};
ghost use Rattle.zk_transcript.specs.History.{change as change_of};
ghost use Rattle.zk_service.specs.States.{nothing_yet};
ghost use Rattle.zk_transcript.specs.Legal.{is_begin as is_begin_of};
ghost use Rattle.zk_history.specs.Pasts.{lines_of};
ghost use Rattle.zk_legal.specs.Counted.{AreCounts};
ghost use Rattle.zk_legal.specs.Faults.{IsRunTo, comes_after_begin as comes_after_begin_of, has_event as has_event_of, history_fault as history_fault_of, history_fault_from, is_event as is_event_of, is_history_line as is_history_line_of, is_in_range as is_in_range_of, is_timely as is_timely_of};

use crate::counts::Counts;
use crate::formed::{has_begun, is_formed_line};
use crate::legal::is_legal_line;
use std::alloc::Global;
use zk_history::{Fault, Past, State, change};
use zk_model::limit::MAX_TIME;
use zk_service::UpdateKind;
use zk_transcript::TranscriptLine;
use zx_base::Memory;

fn is_timely(kind: UpdateKind) -> bool
    ensures { result ≡ is_timely_of kind }
{
    match kind {
        UpdateKind::Begin { now } => now <= MAX_TIME,
        UpdateKind::Asked { now, .. } => now <= MAX_TIME,
        _ => true,
    }
}

/// Whether an update's zxid is not below 0, and its time is one that the clock can show.
fn is_in_range(line: &TranscriptLine) -> bool
    ensures { result ≡ is_in_range_of line.now }
{
    match line {
        TranscriptLine::Update(update) => 0 <= update.zxid && is_timely(update.kind),
        _ => true,
    }
}

fn is_begin(kind: UpdateKind) -> bool
    ensures { result ≡ is_begin_of kind }
{
    match kind {
        UpdateKind::Begin { .. } => true,
        _ => false,
    }
}

fn comes_after_begin(state: &State, line: &TranscriptLine) -> bool
    ensures { result ≡ comes_after_begin_of state.now line.now }
{
    match line {
        TranscriptLine::Update(update) => has_begun(state) || is_begin(update.kind),
        TranscriptLine::Lapse { .. } => has_begun(state),
        _ => true,
    }
}

/// Whether a run can have written this line after the lines `before`, which lead to `state`.
#[tactic(auto, unfolding(crate::specs::Faults::is_history_line))]
fn is_history_line(
    alloc: Global,
    before: &Past,
    counts: &Counts,
    state: &State,
    line: &TranscriptLine,
) -> Result<bool, Memory>
    requires counts { AreCounts (lines_of before.now) counts.now }
    requires run { IsRunTo (lines_of before.now) state.now }
    ensures { IfOk result (λ b. b ≡ is_history_line_of (lines_of before.now) state.now line.now) }
{
    if is_formed_line(before, counts, state, line)
        && comes_after_begin(state, line)
        && is_in_range(line)
    {
        is_legal_line(alloc, before, state, line)
    } else {
        Ok(false)
    }
}

fn is_event(line: &TranscriptLine) -> bool
    ensures { result ≡ is_event_of line.now }
{
    match line {
        TranscriptLine::Update(_) => true,
        TranscriptLine::Lapse { .. } => true,
        _ => false,
    }
}

/// Whether there is an update or a lapse.
fn has_event(lines: &[TranscriptLine]) -> bool
    ensures { result ≡ has_event_of lines.now }
{
    for line in lines {
        if is_event(line) {
            return true;
        }
    }
    false
}

/// The state after a line that a run can have written.
fn changed(
    alloc: Global,
    before: &Past,
    state: State,
    line: &TranscriptLine,
) -> Result<State, Memory>
    requires { IsCountable state × Fits (lines_of before.now) state line.now }
    ensures { IfOk result (λ s. s ≡ change_of (lines_of before.now) state line.now) }
{
    match change(alloc, before, state, line) {
        Ok(state) => Ok(state),
        Err(Fault::Memory) => Err(Memory),
        Err(Fault::Beyond) => unreachable!(),
    }
}

/// The number of the first line, counted from 1, that no run can have written there.
fn first_fault(alloc: Global, lines: &[TranscriptLine]) -> Result<Option<u64>, Memory>
    ensures { IfOk result (λ n. n ≡ history_fault_from [] nothing_yet lines.now) }
{
    let mut past = Past::new(alloc, lines);
    let mut counts = Counts::new(alloc);
    let mut state = State::new(alloc);
    for (place, line) in lines.iter().enumerate() {
        if !is_history_line(alloc, &past, &counts, &state, line)? {
            return Ok(Some(place as u64 + 1));
        }
        state = changed(alloc, &past, state, line)?;
        counts = counts.noted(line)?;
        past = past.advanced()?;
    }
    Ok(None)
}

/// The number of the first line, counted from 1, that no run of the service can have written there. Where there is neither an
/// update nor a lapse, it is the number of the lines and one more.
#[tactic(auto, unfolding(crate::specs::Faults::history_fault))]
pub fn history_fault(alloc: Global, lines: &[TranscriptLine]) -> Result<Option<u64>, Memory>
    ensures { IfOk result (λ n. n ≡ history_fault_of lines.now) }
{
    match first_fault(alloc, lines)? {
        Some(number) => Ok(Some(number)),
        None if has_event(lines) => Ok(None),
        None => Ok(Some(lines.len() as u64 + 1)),
    }
}
