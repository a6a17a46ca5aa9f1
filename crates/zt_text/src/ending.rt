//! The last line of a transcript: `done`, or the fault of the script's line that stopped it.

ghost use Rattle.std.specs.Prelude.{◌≡◌, ◌++◌, OnOk, OnErr};
ghost use Rattle.zt_text.specs.Faults.{done_text, fault_text, unread_text, why_text};

use crate::word::{Word, push_words};
use crate::{Unread, Why};
use zx_base::Memory;

/// Adds the line `done`. Without memory, what was there stays.
pub fn push_done(out: &mut Vec<u8>) -> Result<(), Memory>
    ensures ok { OnOk result (out.new.items ≡ out.old.items ++ done_text) }
    ensures err { OnErr result (out.new.items ≡ out.old.items) }
{
    push_words(out, b"done", &[], &[])
}

/// Adds the fault of the script's line `line`, counted from 1, which is not possible. Without memory, what was there stays.
pub fn push_fault(out: &mut Vec<u8>, line: u64, why: Why) -> Result<(), Memory>
    ensures ok { OnOk result (out.new.items ≡ out.old.items ++ fault_text line (why_text why)) }
    ensures err { OnErr result (out.new.items ≡ out.old.items) }
{
    match why {
        Why::NumberInUse => push_fault_text(out, line, b"number in use"),
        Why::NoSuchConnection => push_fault_text(out, line, b"no such connection"),
        Why::ConnectionClosed => push_fault_text(out, line, b"connection is closed"),
        Why::NotAConnection => push_fault_text(out, line, b"not a connection"),
        Why::FrameOpen => push_fault_text(out, line, b"frame is open"),
        Why::TooLong => push_fault_text(out, line, b"too long"),
        Why::NoRequestOut => push_fault_text(out, line, b"no request is out"),
        Why::AlreadyCarriedOut => push_fault_text(out, line, b"already carried out"),
        Why::NotCarriedOut => push_fault_text(out, line, b"not carried out"),
        Why::NoSuchStray => push_fault_text(out, line, b"no such stray"),
        Why::RequestOut => push_fault_text(out, line, b"request is out"),
        Why::NoEntry => push_fault_text(out, line, b"no entry to take"),
        Why::NoLag => push_fault_text(out, line, b"no lag"),
        Why::NoSuchLease => push_fault_text(out, line, b"no such lease"),
        Why::StoreFull => push_fault_text(out, line, b"store is full"),
        Why::KeyKept => push_fault_text(out, line, b"key is kept"),
        Why::ClockLimit => push_fault_text(out, line, b"clock limit"),
    }
}

/// Adds the fault of the script's line `line`, counted from 1, which cannot be read. Without memory, what was there stays.
pub fn push_unread(out: &mut Vec<u8>, line: u64, unread: Unread) -> Result<(), Memory>
    ensures ok { OnOk result (out.new.items ≡ out.old.items ++ fault_text line (unread_text unread)) }
    ensures err { OnErr result (out.new.items ≡ out.old.items) }
{
    match unread {
        Unread::Unreadable => push_fault_text(out, line, b"unreadable line"),
        Unread::TooLong => push_fault_text(out, line, b"too long"),
    }
}

/// Adds `fault`, the line's number and the reason.
fn push_fault_text(out: &mut Vec<u8>, line: u64, reason: &[u8]) -> Result<(), Memory>
    ensures ok { OnOk result (out.new.items ≡ out.old.items ++ fault_text line reason.now) }
    ensures err { OnErr result (out.new.items ≡ out.old.items) }
{
    push_words(out, b"fault", &[Word::Number(line)], &[Word::Name(reason)])
}
