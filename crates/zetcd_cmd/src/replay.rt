//! The command `replay`: a script in, the transcript of its run out.

ghost use Rattle.std.specs.Prelude.{◌≡◌, ◌≢◌, ◌⊎◌, ◌-◌, ◌^◌, ◌<◌, ◌≤◌, [], ℕ, List, drop, length, true, false, IfOk, IfErr, OnOk};
ghost use Rattle.zt_text.specs.Transcripts.{transcript_text};
ghost use Rattle.zp_verdict_laws.specs.Written.{AreTyped};
ghost use Rattle.zx_outside.specs.Writing.{Takes, counts_after_write};
ghost use Rattle.zx_outside.specs.declared.sink.Took.TheVariants.{Failed as TookFailed};
ghost use Rattle.zetcd_cmd.specs.Outcomes.{DidBetween, Replays, Failed, IsUnharmed, TakesSome};
ghost use Rattle.zetcd_cmd.specs.Reporting.{HasWritten, counts_unwritten};
ghost use Rattle.zetcd_cmd.specs.Scripting.{Appends, ScriptStands};
ghost use Rattle.zetcd_cmd.specs.Ending.{EndsReading, EndsAll};

use crate::report::{End, Unwritten, report, status_of, write_whole};
use crate::script::{Script, Stop};
use crate::status::Status;
use crate::streams::{Piece, next_piece};
use crate::tells::Tells;
use std::alloc::Global;
use zp_verdict_laws::lines_are_typed;
use zt_text::Unread;
use zx_outside::{Sink, Source};

/// The most bytes that one read takes.
pub const ROOM: usize = 65_536;

/// Runs a script to its end, or to the first line that cannot be read or is not possible, and writes the transcript. Before each
/// read all lines of the transcript so far are written, so that whoever writes the script can go by them. If a line cannot be read,
/// `tells` is told why.
///
/// Reading and writing take time linear in the script and the transcript, and each ask time linear in the changes that the store
/// keeps. One unfinished line, the world and its transcript are held in memory.
pub fn replay<I: Source, O: Sink, T: Tells>(
    alloc: Global,
    input: &mut I,
    out: &mut O,
    tells: &mut T,
) -> Status
    ensures told { DidBetween I.ended I.given I.left O.taken (Replays result) input.old input.new out.old out.new }
    ensures read { result ≡ Status.ReadFault → Failed (I.counts input.old) (I.counts input.new) }
    ensures unless_fault { result ≢ Status.ReadFault → result ≢ Status.WriteFault → result ≢ Status.Memory → IsUnharmed (I.counts input.old) (I.counts input.new) }
    ensures once { IsUnharmed (I.counts input.old) (I.counts input.new) ⊎ Failed (I.counts input.old) (I.counts input.new) }
    ensures write { result ≡ Status.WriteFault → O.counts out.new ≡ counts_after_write TookFailed (O.counts out.old) }
    ensures unless_write_fault { result ≢ Status.WriteFault → O.counts out.new ≡ O.counts out.old }
{
    let Ok(mut script) = Script::new(alloc) else {
        return Status::Memory;
    };
    let mut written = 0;
    let end = match read_script(alloc, input, &mut script, &mut written, out) {
        Ok(end) => end,
        Err(Unwritten::Sink) => return Status::WriteFault,
        Err(Unwritten::Memory) => return Status::Memory,
    };
    // If memory was refused, the world may show a part of what its last line does, so no more is written.
    if wants_memory(end) {
        return Status::Memory;
    }
    tell_stop(&script, end, tells);
    let line = script.line();
    match report(alloc, &script.transcript()[written..], end, line, out) {
        Ok(()) => status_of(end, line),
        Err(Unwritten::Sink) => Status::WriteFault,
        Err(Unwritten::Memory) => Status::Memory,
    }
}

/// Tells why the line that ended the reading cannot be read, if it was that.
fn tell_stop<T: Tells>(script: &Script, end: End, tells: &mut T) {
    if let End::Stopped(Stop::Unread(Unread::Unreadable)) = end
        && let Some(fault) = script.fault()
    {
        tells.unread(script.line(), fault);
    }
}

/// Whether reading ended because memory ran out.
fn wants_memory(end: End) -> bool
    ensures known { result ≡ false → end ≢ End.Stopped Stop.Memory }
    ensures wants { result ≡ true → end ≡ End.Stopped Stop.Memory }
{
    match end {
        End::Stopped(Stop::Memory) => true,
        End::Whole | End::Stopped(_) | End::ReadFault => false,
    }
}

/// Reads a script from its first byte to its end, and applies its lines. Before each read all lines of the transcript so far are
/// written; `written` is how many were.
fn read_script<I: Source, O: Sink>(
    alloc: Global,
    input: &mut I,
    script: &mut Script,
    written: &mut usize,
    out: &mut O,
) -> Result<End, Unwritten>
    requires fresh { ScriptStands [] script.old }
    requires none { written.old ≡ 0 }
    ensures end { IfOk result (λ how. EndsReading how (I.ended input.new) script.new (I.given input.old) (I.given input.new) (I.left input.old) (I.left input.new)) }
    ensures written { IfOk result (λ how. how ≢ End.Stopped Stop.Memory → HasWritten written.new script.new.world.lines (O.taken out.old) (O.taken out.new)) }
    ensures refused { IfOk result (λ how. how ≡ End.Stopped Stop.Memory →
        DidBetween I.ended I.given I.left O.taken (Replays Status.Memory) input.old input.new out.old out.new) }
    ensures front { IfErr result (λ e.
        DidBetween I.ended I.given I.left O.taken (Replays Status.WriteFault) input.old input.new out.old out.new) }
    ensures fault { IfOk result (λ how. how ≡ End.ReadFault → Failed (I.counts input.old) (I.counts input.new)) }
    ensures unharmed { IfOk result (λ how. how ≢ End.ReadFault → IsUnharmed (I.counts input.old) (I.counts input.new)) }
    ensures begun { IfErr result (λ e. IsUnharmed (I.counts input.old) (I.counts input.new)) }
    ensures count { OnOk result (O.counts out.new ≡ O.counts out.old) }
    ensures err { IfErr result (λ e. O.counts out.new ≡ counts_unwritten e (O.counts out.old)) }
{
    let Ok(mut buffer) = vec![in alloc; 0u8; ROOM] else {
        return Ok(End::Stopped(Stop::Memory));
    };
    let mut idle = 0;
    'pieces: loop {
        write_further(alloc, script, written, out)?;
        let are_written = *written == script.lines().len();
        prove!(are_written);
        match next_piece(input, buffer.as_mut_slice(), &mut idle) {
            Piece::Bytes(count) => {
                if let Err(stop) = script.take(&buffer[..count]) {
                    return Ok(End::Stopped(stop));
                }
            }
            Piece::End => return Ok(finish(script)),
            Piece::Fault => return Ok(End::ReadFault),
        }
    }
}

/// Writes the lines of the transcript that are not written yet, and counts them.
fn write_further<O: Sink>(
    alloc: Global,
    script: &Script,
    written: &mut usize,
    out: &mut O,
) -> Result<(), Unwritten>
    requires { written.old ≤ length script.now.world.lines }
    ensures ok { OnOk result (Takes (transcript_text (drop written.old script.now.world.lines)) (O.taken out.old) (O.taken out.new)) }
    ensures all { OnOk result (written.new ≡ length script.now.world.lines) }
    ensures front { IfErr result (λ e. TakesSome (transcript_text (drop written.old script.now.world.lines)) (O.taken out.old) (O.taken out.new)) }
    ensures unharmed { OnOk result (O.counts out.new ≡ O.counts out.old) }
    ensures err { IfErr result (λ e. O.counts out.new ≡ counts_unwritten e (O.counts out.old)) }
    ensures few { length script.now.world.lines < 2 ^ 64 - 1 }
    ensures typed { AreTyped (drop written.old script.now.world.lines) }
{
    let lines = script.lines();
    let more = &lines[*written..];
    lines_are_typed(more);
    write_whole(alloc, more, out)?;
    *written = lines.len();
    Ok(())
}

/// Ends a script whose last byte has come.
fn finish(script: &mut Script) -> End
    ensures ends { (seen : List ℕ) → ScriptStands seen script.old → EndsAll result seen script.new }
    ensures grown { result ≢ End.Stopped Stop.Memory → Appends script.old.world script.new.world }
{
    match script.finish() {
        Ok(()) => End::Whole,
        Err(stop) => End::Stopped(stop),
    }
}
