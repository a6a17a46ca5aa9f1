//! How many frames of each connection stand among some lines.

ghost use Rattle.std.specs.Prelude.{◌≡◌, ◌==◌, if◌then◌else◌, ◌<◌, ◌++◌, ◌∷◌, [], ℕ, List, length, IfOk};
ghost use Rattle.zk_transcript.specs.declared.transcript.TranscriptLine.{TranscriptLine as AnyLine};
ghost use Rattle.zk_legal.specs.Counted.{AreCounts, count_in, sender as sender_of};

use std::alloc::Global;
use std::collections::BTreeMap;
use zk_transcript::TranscriptLine;
use zx_base::Memory;

/// How many frames each connection sent.
#[derive(Drop)]
pub struct Counts {
    frames: BTreeMap<u32, u64>,
}

/// The connection that sent the frame, where the line is one.
fn sender(line: &TranscriptLine) -> Option<u32>
    ensures { result ≡ sender_of line.now }
{
    match line {
        TranscriptLine::Frame { connection, .. } => Some(*connection),
        _ => None,
    }
}

impl Counts {
    /// The counts of no lines.
    pub fn new(alloc: Global) -> Counts
        ensures { AreCounts [] result }
    {
        Counts {
            frames: BTreeMap::new(alloc),
        }
    }

    /// How many frames a connection sent.
    pub fn frames(&self, connection: u32) -> u64
        ensures { result ≡ count_in self.now connection }
    {
        match self.frames.get(&connection) {
            Some(count) => *count,
            None => 0,
        }
    }

    /// The counts with this one for a connection.
    fn counted(self, connection: u32, count: u64) -> Result<Counts, Memory>
        ensures { IfOk result (λ m. (c : ℕ) → count_in m c ≡ (if connection == c then count else count_in self c)) }
    {
        let mut frames = self.frames;
        frames.insert(connection, count)?;
        Ok(Counts { frames })
    }

    /// The counts of one more line, after the others.
    pub fn noted(self, line: &TranscriptLine) -> Result<Counts, Memory>
        ensures { IfOk result (λ m. (before : List AnyLine) → length before < 18446744073709551615 → AreCounts before self → AreCounts (before ++ line.now ∷ []) m) }
    {
        let Some(connection) = sender(line) else {
            return Ok(self);
        };
        let count = self.frames(connection).saturating_add(1);
        self.counted(connection, count)
    }
}
