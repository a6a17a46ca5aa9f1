//! Whether a line stands where a run can have written it, whatever the tree.

ghost use Rattle.std.specs.Prelude.{◌≡◌};
ghost use Rattle.zk_history.specs.Pasts.{lines_of};
ghost use Rattle.zk_legal.specs.Counted.{AreCounts};
ghost use Rattle.zk_legal.specs.Formed.{has_begun as has_begun_of, is_closed as is_closed_of, is_formed_line as is_formed_line_of, is_kind_formed as is_kind_formed_of, is_opened as is_opened_of};

use crate::counts::Counts;
use zk_history::{Past, State};
use zk_model::limit::MAX_FRAME;
use zk_service::UpdateKind;
use zk_transcript::TranscriptLine;

#[tactic(auto, unfolding(crate::specs::Formed::is_opened))]
fn is_opened(before: &Past, connection: u32) -> bool
    ensures { result ≡ is_opened_of (lines_of before.now) connection }
{
    before.is_opened(connection)
}

#[tactic(auto, unfolding(crate::specs::Formed::is_closed))]
fn is_closed(before: &Past, connection: u32) -> bool
    ensures { result ≡ is_closed_of (lines_of before.now) connection }
{
    before.is_closed(connection)
}

/// Whether there was an update before this state.
pub fn has_begun(state: &State) -> bool
    ensures { result ≡ has_begun_of state.now }
{
    state.updates() != 0
}

fn is_kind_formed(before: &Past, kind: UpdateKind) -> bool
    ensures { result ≡ is_kind_formed_of (lines_of before.now) kind }
{
    match kind {
        UpdateKind::Session { connection, .. } => is_opened(before, connection),
        UpdateKind::Attach { connection, .. } => is_opened(before, connection),
        UpdateKind::Asked { connection, .. } => is_opened(before, connection),
        UpdateKind::Closed { connection, .. } => is_opened(before, connection),
        UpdateKind::Begin { .. } => true,
        UpdateKind::Reaped { .. } => true,
    }
}

/// Whether a run can have written this line after the lines `before`, which lead to `state`, whatever the tree.
#[tactic(auto, unfolding(crate::specs::Formed::is_formed_line))]
pub fn is_formed_line(before: &Past, counts: &Counts, state: &State, line: &TranscriptLine) -> bool
    requires { AreCounts (lines_of before.now) counts.now }
    ensures { result ≡ is_formed_line_of (lines_of before.now) state.now line.now }
{
    match line {
        TranscriptLine::Open { connection, .. } => !is_opened(before, *connection),
        TranscriptLine::Frame {
            connection,
            index,
            zxid,
            bytes,
        } => {
            is_opened(before, *connection)
                && !is_closed(before, *connection)
                && *index == counts.frames(*connection)
                && bytes.len() <= MAX_FRAME
                && has_begun(state)
                && *zxid == state.zxid()
        }
        TranscriptLine::Send { connection, .. } => {
            is_opened(before, *connection) && !is_closed(before, *connection)
        }
        TranscriptLine::Close { connection, .. } => !is_closed(before, *connection),
        TranscriptLine::Update(update) => is_kind_formed(before, update.kind),
        TranscriptLine::Lapse { .. } => true,
    }
}
