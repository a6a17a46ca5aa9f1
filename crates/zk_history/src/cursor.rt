//! The state at a moment that moves on, line by line.

ghost use Rattle.std.specs.Prelude.{◌≡◌, ◌+◌, ◌<◌, ◌≤◌, length, IfErr, IfOk};
ghost use Rattle.zk_transcript.specs.History.{after, state_at};
ghost use Rattle.zk_machine.specs.Faults.{BeyondUnless};
ghost use Rattle.zk_history.specs.Fits.{AllFit};
ghost use Rattle.zk_history.specs.Pasts.{RespondsNext, lines_of};

use crate::lines::{Applied, apply};
use crate::past::{Past, line_at};
use crate::state::State;
use std::alloc::Global;
use zk_machine::Fault;
use zk_model::Body;
use zk_transcript::TranscriptLine;

/// A moment of a transcript, which is a place between two lines, and the state at it. It moves on without going over the earlier
/// lines again.
#[derive(Drop)]
pub struct Cursor<'a> {
    /// The lines before the moment.
    pub past: Past<'a>,
    state: State,
    ghost reached: { state ≡ after (lines_of past) },
    ghost few: { state.updates ≤ past.len },
}

/// The moment after these lines, which lead to this state.
fn at<'a>(past: Past<'a>, state: State) -> Cursor<'a>
    requires reached { state ≡ after (lines_of past) }
    requires few { state.updates ≤ past.len }
    ensures { result.past ≡ past.entry }
{
    Cursor { past, state }
}

impl<'a> Cursor<'a> {
    /// The moment before the first line.
    pub fn new(alloc: Global, all: &'a [TranscriptLine]) -> Cursor<'a>
        ensures moment { result.past.len ≡ 0 }
        ensures all { result.past.all.now ≡ all.now }
    {
        at(Past::new(alloc, all), State::new(alloc))
    }

    /// The state at the moment.
    pub fn state(&self) -> &State
        ensures { result.now ≡ state_at self.now.past.all.now self.now.past.len }
    {
        &self.state
    }

    /// The moment after the next line, and the body of the reply to the request that this line carries out, unless that is a
    /// closeSession. `Beyond` where a number does not fit its field, which happens in no transcript of a run.
    pub fn advanced(self, alloc: Global) -> Result<(Cursor<'a>, Option<Body>), Fault>
        requires { self.past.len < length self.past.all.now }
        ensures moment { IfOk result (λ r. r.0.past.len ≡ self.entry.past.len + 1) }
        ensures all { IfOk result (λ r. r.0.past.all.now ≡ self.entry.past.all.now) }
        ensures response { IfOk result (λ r. RespondsNext self.entry.past r.1) }
        ensures beyond { IfErr result (BeyondUnless (AllFit self.entry.past.all.now)) }
    {
        let Cursor { past, state } = self;
        let line = line_at(past.all, past.len);
        let Applied { state, response } = apply(alloc, &past, state, line)?;
        Ok((at(past.advanced()?, state), response))
    }
}
