//! A script that is read piece by piece, and the world that its lines are applied to.

ghost use Rattle.std.specs.Prelude.{◌≡◌, ◌≢◌, ◌+◌, ◌-◌, ◌^◌, ◌<◌, ◌≤◌, ◌++◌, ◌∷◌, [], ℕ, List, length, IfOk, OnOk, IfErr, MatchOption};
ghost use Rattle.zt_text.specs.Scripts.{max_line, max_script};
ghost use Rattle.zt_lines.specs.Words.{max_place};
ghost use Rattle.zp_verdict_laws.specs.Written.{AreTyped};
ghost use Rattle.zetcd_cmd.specs.Replayed.{IsOver};
ghost use Rattle.zetcd_cmd.specs.Scripting.{Appends, HasNoLineFeed, IsFirstLine, Plays, ScriptHalts, HasRead, ScriptStands, IsApplied, ScriptEnds, EndsEarly, IsOverAt, IsKeptOut};

use std::alloc::Global;
use zk_transcript::TranscriptLine;
use zp_verdict_laws::lines_are_typed;
use zp_world::{ApplyFault, World};
use zt_faults::{LineFault, TOO_LONG, fault_in_script};
use zt_text::{MAX_LINE, MAX_SCRIPT, Unread, Why, read_line};
use zx_base::Memory;

const LINE_FEED: u8 = b'\n';

/// Why no further line is applied.
#[derive(Clone, Copy, PartialEq, Eq)]
pub enum Stop {
    /// The line cannot be read.
    Unread(Unread),
    /// What it says is not possible.
    Refused(Why),
    /// Memory was refused.
    Memory,
}

/// A script that is read piece by piece. Each line is applied as soon as its line feed is read, before any later byte is looked at,
/// so at most one line is kept.
#[derive(Drop)]
pub struct Script {
    alloc: Global,
    world: World,
    /// What was read of the line that is not whole yet.
    pending: Vec<u8>,
    /// The number of that line, from 1.
    line: u64,
    /// How many more bytes a script may have.
    room: usize,
    /// Why that line cannot be read, if it cannot: it is too long to be kept, or what was found of it.
    fault: Option<LineFault>,
}

impl Script {
    /// A script of which nothing was read yet, over a new world.
    pub fn new(alloc: Global) -> Result<Script, Memory>
        ensures { IfOk result (λ s. ScriptStands [] s) }
    {
        let world = World::new(alloc)?;
        Ok(Script {
            alloc,
            world,
            pending: Vec::new(alloc),
            line: 1,
            room: MAX_SCRIPT,
            fault: Some(TOO_LONG),
        })
    }

    /// The transcript of the lines that were applied.
    pub fn transcript(&self) -> &[TranscriptLine]
        ensures lines { result.now ≡ self.now.world.lines }
        ensures few { length result.now < 2 ^ 64 - 1 }
        ensures typed { AreTyped result.now }
    {
        let lines = self.lines();
        lines_are_typed(lines);
        lines
    }

    /// The same, if nothing has to be said of the fields of its lines.
    pub fn lines(&self) -> &[TranscriptLine]
        ensures lines { result.now ≡ self.now.world.lines }
        // No list in memory is longer.
        ensures few { length result.now < 2 ^ 64 - 1 }
    {
        self.world.lines()
    }

    /// The number of the line that is applied next, from 1.
    pub fn line(&self) -> u64
        ensures line { result ≡ self.now.line }
        ensures place { result ≤ max_place }
    {
        self.line
    }

    /// Why the next line cannot be read, once it was found so; `None` if memory was refused meanwhile.
    pub fn fault(&self) -> Option<LineFault> {
        self.fault
    }

    /// Takes the next bytes, and applies each line that ends in them. If they make the script longer than [`MAX_SCRIPT`], only
    /// those up to this limit are taken, and the answer is that the line which goes on past it is too long.
    pub fn take(&mut self, piece: &[u8]) -> Result<(), Stop>
        ensures ok { OnOk result ((seen : List ℕ) → ScriptStands seen self.old → ScriptStands (seen ++ piece.now) self.new) }
        ensures err { IfErr result (λ stop. (seen : List ℕ) → ScriptStands seen self.old → EndsEarly (seen ++ piece.now) self.new stop) }
        ensures room { OnOk result (self.new.room + length piece.now ≡ self.old.room) }
        // The transcript is only added to.
        ensures grown { OnOk result (Appends self.old.world self.new.world) }
        ensures kept { IfErr result (λ stop. stop ≢ Stop.Memory → Appends self.old.world self.new.world) }
    {
        if piece.len() > self.room {
            self.take_lines(&piece[..self.room])?;
            return Err(Stop::Unread(Unread::TooLong));
        }
        self.take_lines(piece)?;
        self.room -= piece.len();
        Ok(())
    }

    /// Applies each line that ends in these bytes, and keeps what follows the last of them.
    fn take_lines(&mut self, bytes: &[u8]) -> Result<(), Stop>
        ensures ok { OnOk result ((seen : List ℕ) → HasRead seen self.old → length (seen ++ bytes.now) ≤ max_script → HasRead (seen ++ bytes.now) self.new) }
        ensures err { IfErr result (λ stop. (seen rest : List ℕ) → HasRead seen self.old → length (seen ++ bytes.now) ≤ max_script → ScriptEnds ((seen ++ bytes.now) ++ rest) self.new stop) }
        ensures over { IfErr result (λ stop. (seen : List ℕ) → HasRead seen self.old → length (seen ++ bytes.now) ≤ max_script → IsOverAt (seen ++ bytes.now) self.new stop) }
        ensures room { self.new.room ≡ self.old.room }
        ensures grown { OnOk result (Appends self.old.world self.new.world) }
        ensures kept { IfErr result (λ stop. stop ≢ Stop.Memory → Appends self.old.world self.new.world) }
    {
        let mut rest = bytes;
        'lines: while let Some((line, later)) = first_line(rest) {
            self.end_line(line)?;
            rest = later;
        }
        keep(&mut self.pending, rest)
    }

    /// Applies the line that ends with these bytes.
    fn end_line(&mut self, bytes: &[u8]) -> Result<(), Stop>
        requires { HasNoLineFeed bytes.now }
        ensures ok { OnOk result ((seen : List ℕ) → HasRead seen self.old → length (seen ++ bytes.now) < max_script → HasRead (seen ++ (bytes.now ++ 10 ∷ [])) self.new) }
        ensures err { IfErr result (λ stop. (seen rest : List ℕ) → HasRead seen self.old → length (seen ++ bytes.now) < max_script → ScriptEnds (seen ++ (bytes.now ++ 10 ∷ rest)) self.new stop) }
        ensures over { IfErr result (λ stop. (seen rest : List ℕ) → HasRead seen self.old → length (seen ++ bytes.now) < max_script → IsOver (seen ++ (bytes.now ++ 10 ∷ rest)) self.new.line) }
        ensures room { self.new.room ≡ self.old.room }
        ensures grown { OnOk result (Appends self.old.world self.new.world) }
        ensures kept { IfErr result (λ stop. stop ≢ Stop.Memory → Appends self.old.world self.new.world) }
    {
        self.apply_with(bytes)?;
        self.line = self.line.saturating_add(1);
        Ok(())
    }

    /// Applies the pending line, with these bytes at its end.
    fn apply_with(&mut self, bytes: &[u8]) -> Result<(), Stop>
        ensures ok { OnOk result (Plays (self.old.pending.items ++ bytes.now) self.old.world self.new.world) }
        ensures empty { OnOk result (self.new.pending.items ≡ []) }
        ensures err { IfErr result (λ stop. ScriptHalts (self.old.pending.items ++ bytes.now) self.old.world stop self.new.world) }
        ensures line { self.new.line ≡ self.old.line }
        ensures room { self.new.room ≡ self.old.room }
    {
        if self.pending.is_empty() {
            return apply_line(self.alloc, bytes, &mut self.world, &mut self.fault);
        }
        keep(&mut self.pending, bytes)?;
        self.apply_pending()
    }

    /// Applies the pending line, of which nothing is kept afterwards.
    fn apply_pending(&mut self) -> Result<(), Stop>
        ensures ok { OnOk result (Plays self.old.pending.items self.old.world self.new.world) }
        ensures empty { OnOk result (self.new.pending.items ≡ []) }
        ensures err { IfErr result (λ stop. ScriptHalts self.old.pending.items self.old.world stop self.new.world) }
        ensures line { self.new.line ≡ self.old.line }
        ensures room { self.new.room ≡ self.old.room }
    {
        apply_line(
            self.alloc,
            self.pending.as_slice(),
            &mut self.world,
            &mut self.fault,
        )?;
        self.pending.clear();
        Ok(())
    }

    /// Applies what follows the last line feed, if anything does.
    pub fn finish(&mut self) -> Result<(), Stop>
        ensures ok { OnOk result ((seen : List ℕ) → ScriptStands seen self.old → IsApplied seen self.new) }
        ensures err { IfErr result (λ stop. (seen : List ℕ) → ScriptStands seen self.old → ScriptEnds seen self.new stop) }
        ensures grown { OnOk result (Appends self.old.world self.new.world) }
        ensures kept { IfErr result (λ stop. stop ≢ Stop.Memory → Appends self.old.world self.new.world) }
    {
        if self.pending.is_empty() {
            return Ok(());
        }
        apply_line(
            self.alloc,
            self.pending.as_slice(),
            &mut self.world,
            &mut self.fault,
        )
    }
}

/// The first line without its line feed, and what follows the line feed. None: there is no line feed.
fn first_line(bytes: &[u8]) -> Option<(&[u8], &[u8])>
    ensures { MatchOption result (HasNoLineFeed bytes.now) (λ parts. IsFirstLine bytes.now parts.0.now parts.1.now) }
{
    for (at, byte) in bytes.iter().enumerate() {
        if *byte == LINE_FEED {
            return Some((&bytes[..at], &bytes[at + 1..]));
        }
    }
    None
}

/// Adds these bytes to the pending line, unless that makes it longer than [`MAX_LINE`].
fn keep(pending: &mut Vec<u8>, bytes: &[u8]) -> Result<(), Stop>
    ensures ok { OnOk result ((pending.new.items ≡ pending.old.items ++ bytes.now) × (length pending.new.items ≤ max_line)) }
    ensures err { IfErr result (λ stop. IsKeptOut (pending.old.items ++ bytes.now) stop) }
{
    if bytes.len() > MAX_LINE || pending.len() > MAX_LINE - bytes.len() {
        return Err(Stop::Unread(Unread::Unreadable));
    }
    match pending.extend_from_slice(bytes) {
        Ok(()) => Ok(()),
        Err(_) => Err(Stop::Memory),
    }
}

/// Reads a line, and applies what it says. If the line cannot be read, `fault` gets why.
fn apply_line(
    alloc: Global,
    line: &[u8],
    world: &mut World,
    fault: &mut Option<LineFault>,
) -> Result<(), Stop>
    ensures ok { OnOk result (Plays line.now world.old world.new) }
    ensures err { IfErr result (λ stop. ScriptHalts line.now world.old stop world.new) }
{
    match read_line(alloc, line) {
        Ok(Some(happening)) => match world.apply(happening) {
            Ok(()) => Ok(()),
            Err(ApplyFault::NotPossible { why }) => Err(Stop::Refused(why)),
            Err(ApplyFault::Memory) => Err(Stop::Memory),
        },
        Ok(None) => {
            *fault = fault_in_script(alloc, line).unwrap_or(None);
            Err(Stop::Unread(Unread::Unreadable))
        }
        Err(Memory) => Err(Stop::Memory),
    }
}
