//! The last line of a transcript.

ghost use Rattle.std.specs.Prelude.{◌≡◌, ◌<◌, ◌∷◌, [], length, IfSome, MatchOption};
ghost use Rattle.zt_text.specs.Scripts.{pieces};
ghost use Rattle.zt_lines.specs.Transcripts.{is_arrival_fault as is_arrival_fault_of, is_connection_fault as is_connection_fault_of, is_entry_fault as is_entry_fault_of, is_fault_after as is_fault_after_of, is_fault_line as is_fault_line_of, is_last_line as is_last_line_of, is_reason as is_reason_of, is_request_fault as is_request_fault_of, is_store_fault as is_store_fault_of, is_positive, parted, seen_parts};
ghost use Rattle.zt_lines.specs.Words.{place as place_of};

use crate::numbers::place;
use crate::updates::is;
use zt_text::cut;

const BLANK: u8 = b' ';

/// The bytes before the first that is equal to this one, and those after it; None where there is none.
pub fn part(bytes: &[u8], at: u8) -> Option<(&[u8], &[u8])>
    ensures parts { seen_parts result ≡ parted at bytes.now }
    ensures pieces { MatchOption result (pieces at bytes.now ≡ bytes.now ∷ []) (λ x. pieces at bytes.now ≡ x.0.now ∷ pieces at x.1.now) }
    ensures shorter { IfSome result (λ x. length x.1.now < length bytes.now) }
{
    let (front, rest) = cut(bytes, at);
    match rest {
        Some(rest) => Some((front, rest)),
        None => None,
    }
}

/// `done`, or `fault LINE WHY`.
#[tactic(auto, unfolding(crate::specs::Transcripts::is_last_line))]
pub fn is_last_line(line: &[u8]) -> bool
    ensures { result ≡ is_last_line_of line.now }
{
    is(line, b"done") || is_fault_line(line)
}

#[tactic(auto, unfolding(crate::specs::Transcripts::is_fault_line))]
fn is_fault_line(line: &[u8]) -> bool
    ensures { result ≡ is_fault_line_of line.now }
{
    let Some((form, rest)) = part(line, BLANK) else {
        return false;
    };
    is_fault(form, rest)
}

fn is_fault(form: &[u8], rest: &[u8]) -> bool
    ensures { result ≡ is_fault_after_of form.now (parted 32 rest.now) }
{
    let Some((number, why)) = part(rest, BLANK) else {
        return false;
    };
    is(form, b"fault") && is_line_number(number) && is_reason(why)
}

/// Whether this is the number of a line, from 1.
fn is_line_number(word: &[u8]) -> bool
    ensures { result ≡ is_positive (place_of word.now) }
{
    match place(word) {
        None => false,
        Some(number) => 0 < number,
    }
}

/// Whether this says why a line of a script stopped the run.
#[tactic(auto, unfolding(crate::specs::Transcripts::is_reason))]
fn is_reason(why: &[u8]) -> bool
    ensures { result ≡ is_reason_of why.now }
{
    is_connection_fault(why)
        || is_arrival_fault(why)
        || is_request_fault(why)
        || is_entry_fault(why)
        || is_store_fault(why)
}

#[tactic(auto, unfolding(crate::specs::Transcripts::is_connection_fault))]
fn is_connection_fault(why: &[u8]) -> bool
    ensures { result ≡ is_connection_fault_of why.now }
{
    is(why, b"number in use")
        || is(why, b"no such connection")
        || is(why, b"connection is closed")
        || is(why, b"not a connection")
}

#[tactic(auto, unfolding(crate::specs::Transcripts::is_arrival_fault))]
fn is_arrival_fault(why: &[u8]) -> bool
    ensures { result ≡ is_arrival_fault_of why.now }
{
    is(why, b"frame is open")
        || is(why, b"too long")
        || is(why, b"unreadable line")
        || is(why, b"clock limit")
}

#[tactic(auto, unfolding(crate::specs::Transcripts::is_request_fault))]
fn is_request_fault(why: &[u8]) -> bool
    ensures { result ≡ is_request_fault_of why.now }
{
    is(why, b"no request is out")
        || is(why, b"already carried out")
        || is(why, b"not carried out")
        || is(why, b"request is out")
}

#[tactic(auto, unfolding(crate::specs::Transcripts::is_entry_fault))]
fn is_entry_fault(why: &[u8]) -> bool
    ensures { result ≡ is_entry_fault_of why.now }
{
    is(why, b"no entry to take") || is(why, b"no lag")
}

#[tactic(auto, unfolding(crate::specs::Transcripts::is_store_fault))]
fn is_store_fault(why: &[u8]) -> bool
    ensures { result ≡ is_store_fault_of why.now }
{
    is(why, b"no such stray")
        || is(why, b"no such lease")
        || is(why, b"store is full")
        || is(why, b"key is kept")
}
