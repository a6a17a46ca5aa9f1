//! Where a session's lapse stands.

ghost use Rattle.std.specs.Prelude.{◌≡◌};
ghost use Rattle.zk_transcript.specs.History.{when};
ghost use Rattle.zk_least.specs.LeastMoments.{lapse_shown as lapse_shown_of, lapsed_from as lapsed_from_of};

use zk_transcript::TranscriptLine;

fn is_lapse_of(line: &TranscriptLine, session: i64) -> bool
    ensures { lapse_shown_of session line.now ≡ when result session }
{
    match line {
        TranscriptLine::Lapse { id, .. } => session == *id,
        _ => false,
    }
}

/// The moment right after the first lapse of a session from a moment on, or 0 where there is none.
pub fn lapsed_from(lines: &[TranscriptLine], session: i64, moment: usize) -> usize
    ensures { result ≡ lapsed_from_of session moment lines.now }
{
    if lines.len() < moment {
        return 0;
    }
    for (at, line) in lines[moment..].iter().enumerate() {
        if is_lapse_of(line, session) {
            return moment + at + 1;
        }
    }
    0
}
