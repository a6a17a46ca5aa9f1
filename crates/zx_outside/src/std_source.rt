//! A source over a reader of `std`.

ghost use Rattle.std.specs.Prelude.{◌≡◌, ℕ, List, Option, false};
ghost use Rattle.std.specs.declared.result.Result.{Result};
ghost use Rattle.std.specs.declared.io.Error.{Error};
ghost use Rattle.std.specs.Io.{ReadsAtMost};
ghost use Rattle.std.specs.Io.KnownBytes.{ReadConsumes};
ghost use Rattle.zx_outside.specs.Adapters.{is_idle, got_of};

use crate::{Got, Source};
use std::io;
use std::io::{ErrorKind, Read};
use std::marker::Model;

/// A reader of `std`, called once at a time. Every [`Read`] is one.
pub trait SingleRead {
    // The bytes that are left, where they are known.
    ghost unread: { Self → Option (List ℕ) };

    // What one call came to: the reader before and after it, the buffer after it, and the outcome.
    ghost gave: { Self → Self → List ℕ → Result ℕ Error → Type 0 };

    /// Calls the reader once: how many bytes it put at the front of the buffer, 0 at its end, or its error.
    fn single_read(&mut self, buf: &mut [u8]) -> io::Result<usize>
        ensures bound { ReadsAtMost result buf.new }
        ensures bytes { ReadConsumes (unread self.old) (unread self.new) result buf.new }
        ensures call { gave self.old self.new buf.new result };
}

impl<R: Read> SingleRead for R {
    ghost unread = { R.remaining };

    ghost gave = { λ old new buf outcome. ReadConsumes (R.remaining old) (R.remaining new) outcome buf };

    fn single_read(&mut self, buf: &mut [u8]) -> io::Result<usize> {
        self.read(buf)
    }
}

/// A source over a reader, which is called once for each read. A call that would block, or that a signal cut short,
/// is an idle turn: a reader with a read timeout answers so when its time has passed. Every other error is a fault,
/// `TimedOut` too, by which a socket says that its peer is gone. After the reader's end it is not called any more.
#[derive(Drop)]
pub struct StdSource<R: SingleRead> {
    inner: R,
    ended: bool,
    faults: u64,
    idles: u64,
}

impl<R: SingleRead> Model for StdSource<R> {
    ghost use Rattle.std.specs.Prelude.{◌≡◌, true};
    ghost use Rattle.std.specs.Io.KnownBytes.{IsAtEnd};
    ghost use Rattle.zx_outside.specs.Adapters.{OverReader};

    ghost Value = { OverReader R };

    ghost view = { λ s. record {
      reader = s.inner;
      ended = s.ended;
      counts = record { faults = s.faults; idles = s.idles };
    } };

    ghost invariant = { λ s. s.ended ≡ true → IsAtEnd (R.unread s.inner) };
}

impl<R: SingleRead> StdSource<R> {
    /// A source over this reader, which is not called yet.
    pub fn new(inner: R) -> StdSource<R>
        ensures reader { result.reader ≡ inner }
        ensures ended { result.ended ≡ false }
        ensures faults { result.counts.faults ≡ 0 }
        ensures idles { result.counts.idles ≡ 0 }
    {
        StdSource {
            inner,
            ended: false,
            faults: 0,
            idles: 0,
        }
    }
}

/// Whether an error of this kind says only that no byte came in time.
fn is_idle(kind: ErrorKind) -> bool
    ensures { result ≡ is_idle kind }
{
    matches!(kind, ErrorKind::WouldBlock | ErrorKind::Interrupted)
}

/// What the outcome of a reader's call means: no byte is the end, and an error is an idle turn or a fault.
pub fn judge(outcome: io::Result<usize>) -> Got
    ensures { result ≡ got_of outcome }
{
    match outcome {
        Ok(0) => Got::End,
        Ok(count) => Got::Bytes(count),
        Err(error) if is_idle(error.kind()) => Got::Nothing,
        Err(_) => Got::Failed,
    }
}

impl<R: SingleRead> Source for StdSource<R> {
    ghost use Rattle.std.specs.Prelude.{◌≡◌, ◌<◌, length, None, true, false};
    ghost use Rattle.zx_outside.specs.Adapters.{AnswersRead, PassesRead};
    ghost use Rattle.zx_outside.specs.Reading.{FitsBuffer, Reads, EndsForGood, counts_after_read};

    ghost given = { λ _. None };

    ghost left = { λ _. None };

    ghost counts = { λ s. s.counts };

    ghost ended = { λ s. s.ended };

    ghost name = { λ _. 0 };

    fn read(&mut self, buf: &mut [u8]) -> Got
        requires { 0 < length buf.old }
        ensures size { FitsBuffer result (length buf.new) }
        ensures bytes { Reads result buf.new None None None None }
        ensures counts { self.new.counts ≡ counts_after_read result self.old.counts }
        ensures end { EndsForGood result self.old.ended self.new.ended }
        ensures call { self.old.ended ≡ false →
            AnswersRead (R.gave self.old.reader self.new.reader buf.new) result }
        ensures rests { self.old.ended ≡ true → self.new ≡ self.old }
        ensures reader { PassesRead result buf.new
            (R.unread self.old.reader) (R.unread self.new.reader) }
    {
        if self.ended {
            return Got::End;
        }
        let answer = judge(self.inner.single_read(buf));
        match answer {
            Got::Bytes(_) => {}
            Got::End => self.ended = true,
            Got::Nothing => self.idles = self.idles.saturating_add(1),
            Got::Failed => self.faults = self.faults.saturating_add(1),
        }
        answer
    }
}
