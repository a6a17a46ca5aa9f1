//! A sink over a writer of `std`.

ghost use Rattle.std.specs.Prelude.{◌≡◌, ◌<◌, ℕ, List, Option, length};
ghost use Rattle.std.specs.declared.result.Result.{Result};
ghost use Rattle.std.specs.declared.io.Error.{Error};
ghost use Rattle.std.specs.Io.{WritesAtMost};
ghost use Rattle.std.specs.Io.KnownBytes.{Keeps, WriteAppends};
ghost use Rattle.zx_outside.specs.Adapters.{took_of_write, took_of_flush, AnswersWrite, PassesWrite};
ghost use Rattle.zx_outside.specs.Writing.{FitsPiece};

use crate::{Sink, Took};
use std::io;
use std::io::Write;
use std::marker::Model;

/// A writer of `std`, called once at a time. Every [`Write`] is one.
pub trait SingleWrite {
    // The bytes that it holds, where they are known.
    ghost held: { Self → Option (List ℕ) };

    // What one write came to: the writer before and after it, the piece, and the outcome.
    ghost wrote: { Self → Self → List ℕ → Result ℕ Error → Type 0 };

    // What one flush came to: the writer before and after it, and the outcome.
    ghost flushed: { Self → Self → Result (Unit {0}) Error → Type 0 };

    /// Calls the writer's `write` once: how many bytes of the piece it took, from the front, or its error.
    fn single_write(&mut self, piece: &[u8]) -> io::Result<usize>
        ensures bound { WritesAtMost result piece.now }
        ensures bytes { WriteAppends (held self.old) (held self.new) result piece.now }
        ensures call { wrote self.old self.new piece.now result };

    /// Calls the writer's `flush` once.
    fn single_flush(&mut self) -> io::Result<()>
        ensures bytes { Keeps (held self.old) (held self.new) }
        ensures call { flushed self.old self.new result };
}

impl<W: Write> SingleWrite for W {
    ghost held = { W.contents };

    ghost wrote = { λ old new piece outcome. WriteAppends (W.contents old) (W.contents new) outcome piece };

    ghost flushed = { λ old new _. Keeps (W.contents old) (W.contents new) };

    fn single_write(&mut self, piece: &[u8]) -> io::Result<usize> {
        self.write(piece)
    }

    fn single_flush(&mut self) -> io::Result<()> {
        self.flush()
    }
}

/// A sink over a writer. Each write calls the writer once, and flushes once what it took, so that nothing stays in the
/// writer's buffer. A write that takes nothing is a fault, and so is every error, `WouldBlock` and `Interrupted` too:
/// the rest of the piece would have to be written again later, and nobody waits here to do that. Where the flush
/// fails, the writer has taken what was written.
#[derive(Drop)]
pub struct StdSink<W> {
    inner: W,
    faults: u64,
}

impl<W> Model for StdSink<W> {
    ghost use Rattle.zx_outside.specs.Adapters.{OverWriter};

    ghost Value = { OverWriter W };

    ghost view = { λ s. record { writer = s.inner; counts = record { faults = s.faults } } };
}

impl<W: SingleWrite> StdSink<W> {
    /// A sink over this writer, which is not called yet.
    pub fn new(inner: W) -> StdSink<W>
        ensures writer { result.writer ≡ inner }
        ensures faults { result.counts.faults ≡ 0 }
    {
        StdSink { inner, faults: 0 }
    }
}

/// What the outcome of a write means: no byte taken, or an error, is a fault.
fn judge_write(outcome: io::Result<usize>) -> Took
    ensures { result ≡ took_of_write outcome }
{
    match outcome {
        Ok(0) | Err(_) => Took::Failed,
        Ok(count) => Took::Bytes(count),
    }
}

/// What the outcome of the flush after a write of `count` bytes means.
fn judge_flush(count: usize, outcome: io::Result<()>) -> Took
    ensures { result ≡ took_of_flush count outcome }
{
    match outcome {
        Ok(()) => Took::Bytes(count),
        Err(_) => Took::Failed,
    }
}

/// Writes once, and flushes once where bytes were taken.
fn write_through<W: SingleWrite>(inner: &mut W, piece: &[u8]) -> Took
    requires { 0 < length piece.now }
    ensures size { FitsPiece result (length piece.now) }
    ensures calls { AnswersWrite (λ old new outcome. W.wrote old new piece.now outcome)
        W.flushed inner.old inner.new result }
    ensures bytes { PassesWrite result piece.now (W.held inner.old) (W.held inner.new) }
{
    match judge_write(inner.single_write(piece)) {
        Took::Bytes(count) => judge_flush(count, inner.single_flush()),
        Took::Failed => Took::Failed,
    }
}

impl<W: SingleWrite> Sink for StdSink<W> {
    ghost use Rattle.std.specs.Prelude.{◌≡◌, ◌<◌, length, None};
    ghost use Rattle.zx_outside.specs.Adapters.{AnswersWrite, PassesWrite};
    ghost use Rattle.zx_outside.specs.Writing.{FitsPiece, Writes, counts_after_write};

    ghost taken = { λ _. None };

    ghost counts = { λ s. s.counts };

    ghost name = { λ _. 0 };

    fn write(&mut self, piece: &[u8]) -> Took
        requires { 0 < length piece.now }
        ensures size { FitsPiece result (length piece.now) }
        ensures bytes { Writes result piece.now None None }
        ensures counts { self.new.counts ≡ counts_after_write result self.old.counts }
        ensures calls { AnswersWrite (λ old new outcome. W.wrote old new piece.now outcome)
            W.flushed self.old.writer self.new.writer result }
        ensures writer { PassesWrite result piece.now
            (W.held self.old.writer) (W.held self.new.writer) }
    {
        let answer = write_through(&mut self.inner, piece);
        if answer == Took::Failed {
            self.faults = self.faults.saturating_add(1);
        }
        answer
    }
}
