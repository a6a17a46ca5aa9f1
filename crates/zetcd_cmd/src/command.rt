//! The commands that neither wait nor listen.

ghost use Rattle.std.specs.Prelude.{◌≡◌, ◌≢◌, ◌⊎◌, ℕ, IfSome, IsNone};
ghost use Rattle.zx_outside.specs.Writing.{counts_after_write};
ghost use Rattle.zx_outside.specs.declared.sink.Took.TheVariants.{Failed as TookFailed};
ghost use Rattle.zetcd_cmd.specs.Outcomes.{IsJudge, IsReplay, IsShow, DidBetween, UnlessReads, Judges, Replays, Shows, RefusesWords, Failed, IsUnharmed};
ghost use Rattle.zetcd_cmd.specs.Commands.{IsCommand};
ghost use Rattle.zetcd_cmd.specs.Proxying.{NamesServe};
ghost use Rattle.zetcd_cmd.specs.Serving.{NamesEtcd};
ghost use Rattle.zetcd_cmd.specs.Stressing.{IsStress, NamesStress, Stresses};

use crate::judge::judge;
use crate::replay::replay;
use crate::show::show;
use crate::status::Status;
use crate::streams::write_all;
use crate::stress::stress;
use crate::tells::Tells;
use crate::words::{etcd_words, serve_words, stress_words};
use std::alloc::Global;
use zx_outside::{Sink, Source};

const USAGE: &[u8] =
    b"usage: zetcd replay | show | stress NUMBER CONNECTIONS STEPS | serve LISTEN ENDPOINT LIMIT | etcd LISTEN LIMIT | judge\n";

/// Writes the usage line.
fn refuse<O: Sink>(out: &mut O) -> Status
    ensures refuses { RefusesWords result (O.taken out.old) (O.taken out.new) }
    ensures write { result ≡ Status.WriteFault → O.counts out.new ≡ counts_after_write TookFailed (O.counts out.old) }
    ensures unless_write_fault { result ≢ Status.WriteFault → O.counts out.new ≡ O.counts out.old }
{
    if write_all(out, USAGE) {
        Status::Usage
    } else {
        Status::WriteFault
    }
}

/// Runs `stress`. For words that are none of it the usage line is written.
#[tactic(auto, using(crate::proofs::Stressings::told))]
fn stress_or_refuse<O: Sink>(alloc: Global, words: &[&str], out: &mut O) -> Status
    ensures stress { (number connections steps : ℕ) → IsStress words.now number connections steps → Stresses result number connections steps (O.taken out.old) (O.taken out.new) }
    ensures usage { ¬ NamesStress words.now → RefusesWords result (O.taken out.old) (O.taken out.new) }
    ensures never_net { result ≢ Status.Net }
    ensures never_read { result ≢ Status.ReadFault }
    ensures write { result ≡ Status.WriteFault → O.counts out.new ≡ counts_after_write TookFailed (O.counts out.old) }
    ensures unless_write_fault { result ≢ Status.WriteFault → O.counts out.new ≡ O.counts out.old }
{
    match stress_words(words) {
        Some(schedule) => stress(alloc, schedule, out),
        None => refuse(out),
    }
}

/// Runs the command that `words`, the command line without the program's name, are, if it is one that neither waits nor listens:
/// `replay`, `show`, `judge` or `stress`. It reads `input` and writes `out`, and `tells` is told why a line cannot be read. For words
/// that are no command it writes the usage line. `None` for the words of a command that listens: nothing was read or written.
#[tactic(auto, using(crate::proofs::Servings::one_word, crate::proofs::Proxyings::one_word, crate::proofs::Stressings::one_word, crate::proofs::Stressings::not_etcd, crate::proofs::Stressings::not_serve))]
pub fn plain<I: Source, O: Sink, T: Tells>(
    alloc: Global,
    words: &[&str],
    input: &mut I,
    out: &mut O,
    tells: &mut T,
) -> Option<Status>
    // Of `replay`, by the status: the transcript of a run to which exactly the lines that were read were applied. The run is one
    // run of the service, each conversation in it is lawful and fresh, and the verdict on its lines is lawful. Within the limits of a
    // transcript, what is written is read as these lines.
    ensures replay { IsReplay words.now → IfSome result (λ s. DidBetween I.ended I.given I.left O.taken (Replays s) input.old input.new out.old out.new) }
    // Of `show`, by the status: what is shown of the stream that was read.
    ensures show { IsShow words.now → IfSome result (λ s. DidBetween I.ended I.given I.left O.taken (Shows s) input.old input.new out.old out.new) }
    // Of `judge`, by the status: the verdict on the transcript that was read, or its first line that cannot be read.
    ensures judge { IsJudge words.now → IfSome result (λ s. DidBetween I.ended I.given I.left O.taken (Judges s) input.old input.new out.old out.new) }
    // Of `stress`, by the status: the summary of the run of its schedule, which is one run of the service, and whose verdict is lawful.
    ensures stress { (number connections steps : ℕ) → IsStress words.now number connections steps → IfSome result (λ s. Stresses s number connections steps (O.taken out.old) (O.taken out.new)) }
    // Of `etcd` and `serve`: no status, nothing was read, and nothing written.
    ensures none { IsNone result → NamesEtcd words.now ⊎ NamesServe words.now }
    ensures etcd { NamesEtcd words.now → IsNone result }
    ensures serve { NamesServe words.now → IsNone result }
    ensures untouched { IsNone result → (input.new ≡ input.old) × (out.new ≡ out.old) }
    // The status of `etcd` and `serve` for the net never comes.
    ensures never_net { IfSome result (λ s. s ≢ Status.Net) }
    // Of words that are in no row: the usage line was written, or a front of it where the output has a fault.
    ensures usage { UnlessReads words.now (¬ NamesStress words.now → ¬ NamesEtcd words.now → ¬ NamesServe words.now → IfSome result (λ s. RefusesWords s (O.taken out.old) (O.taken out.new))) }
    // Of words other than these three: nothing was read.
    ensures unread { UnlessReads words.now (input.new ≡ input.old) }
    // Status 4 has its cause in the input: one fault, or 1,000 idle turns.
    ensures read { IfSome result (λ s. s ≡ Status.ReadFault → Failed (I.counts input.old) (I.counts input.new)) }
    // Statuses 0, 2, 3, 6 and 8 pass over no fault, and there were fewer than 1,000 idle turns.
    ensures unless_fault { IfSome result (λ s. s ≢ Status.ReadFault → s ≢ Status.WriteFault → s ≢ Status.Memory → IsUnharmed (I.counts input.old) (I.counts input.new)) }
    // The same holds of status 7 of `show` and `judge`. A `replay` may be refused memory while it writes the lines before a fault.
    ensures show_memory { IsShow words.now → IfSome result (λ s. s ≡ Status.Memory → IsUnharmed (I.counts input.old) (I.counts input.new)) }
    ensures judge_memory { IsJudge words.now → IfSome result (λ s. s ≡ Status.Memory → IsUnharmed (I.counts input.old) (I.counts input.new)) }
    // With every status the input had at most one fault, and at most 1,000 idle turns.
    ensures once { IsUnharmed (I.counts input.old) (I.counts input.new) ⊎ Failed (I.counts input.old) (I.counts input.new) }
    // Status 5 has its cause in the output: one fault, and no second one.
    ensures write { IfSome result (λ s. s ≡ Status.WriteFault → O.counts out.new ≡ counts_after_write TookFailed (O.counts out.old)) }
    // With any other status the output had no fault.
    ensures unless_write_fault { IfSome result (λ s. s ≢ Status.WriteFault → O.counts out.new ≡ O.counts out.old) }
{
    match command_of(words) {
        Some(Command::Replay) => Some(replay(alloc, input, out, tells)),
        Some(Command::Show) => Some(show(alloc, input, out)),
        Some(Command::Judge) => Some(judge(alloc, input, out, tells)),
        None => {
            if etcd_words(words).is_some() {
                return None;
            }
            if serve_words(words).is_some() {
                return None;
            }
            Some(stress_or_refuse(alloc, words, out))
        }
    }
}

/// A command that is built.
#[derive(Clone, Copy)]
enum Command {
    Replay,
    Show,
    Judge,
}

/// The command of these words.
fn command_of(words: &[&str]) -> Option<Command>
    ensures { IsCommand result words.now }
{
    let [word] = words else {
        return None;
    };
    if word.as_bytes() == b"replay".as_slice() {
        return Some(Command::Replay);
    }
    if word.as_bytes() == b"show".as_slice() {
        return Some(Command::Show);
    }
    if word.as_bytes() == b"judge".as_slice() {
        return Some(Command::Judge);
    }
    None
}
