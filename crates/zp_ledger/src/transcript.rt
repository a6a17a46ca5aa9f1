//! The lines of a transcript.

ghost use Rattle.std.specs.Prelude.{◌≡◌, ◌++◌, ◌∷◌, [], None, IfOk, OnOk, OnErr};
ghost use Rattle.std.specs.List.{AllByRecursion};
ghost use Rattle.zk_transcript.specs.declared.transcript.TranscriptLine.TheVariants.{Update};
ghost use Rattle.zk_transcript.specs.History.{update_in, updates as updates_of};
ghost use Rattle.zp_script.specs.Conversing.{conversations};
ghost use Rattle.zt_text.specs.Transcripts.{IsWellFormed, IsWellFormedKind};

use crate::conversations::conversations_in;
use std::alloc::Global;
use std::marker::Model;
use zk_service::{UpdateKind, UpdateRec};
use zk_transcript::{Conversation, TranscriptLine};
use zx_base::Memory;

/// The lines so far, and the updates among them. Contracts see the lines.
#[derive(Drop)]
pub struct Transcript {
    lines: Vec<TranscriptLine>,
    updates: Vec<UpdateRec>,
}

impl Model for Transcript {
    ghost use Rattle.std.specs.Prelude.{List};
    ghost use Rattle.zk_transcript.specs.declared.transcript.TranscriptLine.{TranscriptLine};
    ghost use Rattle.zp_ledger.specs.Writing.{IsWritten};

    ghost Value = { List TranscriptLine };

    ghost view = { λ t. t.lines.items };

    ghost invariant = { λ t. IsWritten t.lines.items t.updates.items };
}

impl Transcript {
    /// Before anything happened: no lines.
    pub fn new(alloc: Global) -> Transcript
        ensures { result ≡ [] }
    {
        Transcript {
            lines: Vec::new(alloc),
            updates: Vec::new(alloc),
        }
    }

    /// The lines, whose text has one reading.
    pub fn lines(&self) -> &[TranscriptLine]
        ensures lines { result.now ≡ self.now }
        ensures formed { AllByRecursion IsWellFormed self.now }
    {
        self.lines.as_slice()
    }

    /// The updates among the lines, in order.
    pub fn updates(&self) -> &[UpdateRec]
        ensures { result.now ≡ updates_of self.now }
    {
        self.updates.as_slice()
    }

    /// The lines of each connection, its updates left out, in the order in which the connections opened.
    pub fn conversations(&self, alloc: Global) -> Result<Vec<Conversation>, Memory>
        ensures { IfOk result (λ found. found.items ≡ conversations self.now) }
    {
        conversations_in(alloc, self.lines.as_slice())
    }

    /// Adds a line that is no update. Without memory the lines stay as they were.
    pub fn push(&mut self, line: TranscriptLine) -> Result<(), Memory>
        requires other { update_in line ≡ None }
        requires formed { IsWellFormed line }
        ensures ok { OnOk result (self.new ≡ self.old ++ line ∷ []) }
        ensures err { OnErr result (self.new ≡ self.old) }
    {
        self.lines.push(line)?;
        Ok(())
    }

    /// Adds the line of an update. Without memory the lines and the updates stay as they were.
    pub fn push_update(&mut self, zxid: i64, kind: UpdateKind) -> Result<(), Memory>
        requires { IsWellFormedKind kind }
        ensures ok { OnOk result (self.new ≡ self.old ++ Update (record { zxid = zxid; kind = kind }) ∷ []) }
        ensures err { OnErr result (self.new ≡ self.old) }
    {
        let update = UpdateRec { zxid, kind };
        self.lines.push(TranscriptLine::Update(update))?;
        if self.updates.push(update).is_err() {
            let _line = self.lines.pop();
            return Err(Memory);
        }
        Ok(())
    }
}
