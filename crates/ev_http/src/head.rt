//! The head of a message.

ghost use Rattle.std.specs.List.{list_all};
ghost use Rattle.std.specs.Prelude.{◌≡◌, ◌<◌, ◌≤◌, ◌++◌, ◌∷◌, List, ℕ, length, true, false};
ghost use Rattle.ev_http.specs.Heads.{is_blank_byte, HasNoHead, MayBecome, NeverFits, BeginsWithHead, IsOpenHead, TakesHead, HeadAnswer};
ghost use Rattle.ev_http.specs.Taking.{Took, told, failed, IsLine};
ghost use Rattle.httparse.specs.Grammar.{LineEnd, print_end};

use crate::fault::HttpFault;
use crate::taking::{Cut, Tally, take_line};
use httparse::Status;
use httparse::spans::{EMPTY_HEADER_SPAN, parse_request, parse_response};
use std::alloc::Global;
use zx_outside::Source;

/// How many fields a head has at most.
pub const MAX_FIELDS: usize = 64;

/// How many bytes a head has at most, with the empty line that ends it.
pub const MAX_HEAD: usize = 16384;

/// Whether a message is a request or a response.
#[derive(Clone, Copy)]
pub enum Kind {
    Request,
    Response,
}

/// What the bytes so far come to.
#[derive(Clone, Copy)]
enum Judged {
    /// They begin with a whole head.
    Whole,
    /// More bytes may make them one.
    More,
    /// They never become a head that fits.
    Never,
}

fn judge_request(bytes: &[u8]) -> Judged
    ensures whole { result ≡ Judged.Whole → BeginsWithHead Kind.Request bytes.now }
    ensures more { result ≡ Judged.More → HasNoHead Kind.Request bytes.now }
    ensures may { result ≡ Judged.More → MayBecome Kind.Request bytes.now }
    ensures never { result ≡ Judged.Never → NeverFits Kind.Request bytes.now }
{
    let mut fields = [EMPTY_HEADER_SPAN; MAX_FIELDS];
    match parse_request(bytes, &mut fields) {
        Ok(Status::Complete(_)) => Judged::Whole,
        Ok(Status::Partial) => Judged::More,
        Err(_) => Judged::Never,
    }
}

fn judge_response(bytes: &[u8]) -> Judged
    ensures whole { result ≡ Judged.Whole → BeginsWithHead Kind.Response bytes.now }
    ensures more { result ≡ Judged.More → HasNoHead Kind.Response bytes.now }
    ensures may { result ≡ Judged.More → MayBecome Kind.Response bytes.now }
    ensures never { result ≡ Judged.Never → NeverFits Kind.Response bytes.now }
{
    let mut fields = [EMPTY_HEADER_SPAN; MAX_FIELDS];
    match parse_response(bytes, &mut fields) {
        Ok(Status::Complete(_)) => Judged::Whole,
        Ok(Status::Partial) => Judged::More,
        Err(_) => Judged::Never,
    }
}

fn judge(kind: Kind, bytes: &[u8]) -> Judged
    ensures whole { result ≡ Judged.Whole → BeginsWithHead kind bytes.now }
    ensures more { result ≡ Judged.More → HasNoHead kind bytes.now }
    ensures may { result ≡ Judged.More → MayBecome kind bytes.now }
    ensures never { result ≡ Judged.Never → NeverFits kind bytes.now }
{
    match kind {
        Kind::Request => judge_request(bytes),
        Kind::Response => judge_response(bytes),
    }
}

/// Whether the bytes are CR and LF alone.
fn is_blank(bytes: &[u8]) -> bool
    ensures { result ≡ list_all is_blank_byte bytes.now }
{
    bytes.iter().all(|byte| *byte == b'\r' || *byte == b'\n')
}

/// Whether the bytes are CR and LF alone, where those before the index `from` are so if `was_blank` is true.
fn stays_blank(was_blank: bool, bytes: &[u8], from: usize) -> bool
    ensures { (before added : List ℕ) → bytes.now ≡ before ++ added → from ≡ length before → (was_blank ≡ true → list_all is_blank_byte before ≡ true)
        → result ≡ true → list_all is_blank_byte bytes.now ≡ true }
{
    was_blank && from <= bytes.len() && is_blank(&bytes[from..])
}

/// Whether the bytes end in an empty line that follows another line, as each head does.
fn ends_in_empty_line(bytes: &[u8]) -> bool
    ensures { result ≡ false → (front : List ℕ) (end : LineEnd) → bytes.now ≡ front ++ 10 ∷ print_end end → ⊥ }
{
    bytes.ends_with(b"\n\n") || bytes.ends_with(b"\n\r\n")
}

/// What the bytes so far come to, which end in a line feed. They are parsed only where they end in an empty line, and not where
/// they are CR and LF alone.
fn judge_begun(blank: bool, kind: Kind, bytes: &[u8]) -> Judged
    ensures whole { result ≡ Judged.Whole → BeginsWithHead kind bytes.now }
    ensures more { (blank ≡ true → list_all is_blank_byte bytes.now ≡ true) → (old added : List ℕ) → HasNoHead kind old → IsLine added → bytes.now ≡ old ++ added
        → result ≡ Judged.More → HasNoHead kind bytes.now }
    ensures never { result ≡ Judged.Never → NeverFits kind bytes.now }
{
    if blank {
        return Judged::More;
    }
    if ends_in_empty_line(bytes) {
        return judge(kind, bytes);
    }
    Judged::More
}

/// Takes the rest of a head, and no byte after it. The head is parsed at its empty line, so bytes that no head begins with are refused
/// there, or once they are as many as a head has at most. What was taken stays in `head`, whatever the answer, but for bytes that there
/// was no memory for.
pub fn take_head<S: Source>(
    source: &mut S,
    tally: &mut Tally,
    kind: Kind,
    head: &mut Vec<u8>,
) -> Result<(), HttpFault>
    requires within { tally.old.turns ≤ 6000 }
    ensures head { (added : List ℕ)
        × Took added (failed result) tally.old tally.new
        (told S.given S.left S.counts S.ended S.name source.old)
        (told S.given S.left S.counts S.ended S.name source.new)
        × (IsOpenHead kind head.old.items → TakesHead result kind head.old.items added head.new.items
        (told S.given S.left S.counts S.ended S.name source.new) tally.new) }
{
    let mut blank = is_blank(head.as_slice());
    'lines: loop {
        let from = head.len();
        match take_line(source, tally, head, MAX_HEAD) {
            Ok(Cut::LineFeed) => {
                blank = stays_blank(blank, head.as_slice(), from);
                match judge_begun(blank, kind, head.as_slice()) {
                    Judged::Whole => return Ok(()),
                    Judged::More => {}
                    Judged::Never => return Err(HttpFault::Head),
                }
            }
            Ok(Cut::Full) => return Err(HttpFault::Head),
            Ok(Cut::End) => match judge(kind, head.as_slice()) {
                Judged::Never => return Err(HttpFault::Head),
                _ => {
                    return Err(HttpFault::Ended { taken: tally.taken });
                }
            },
            Err(fault) => return Err(fault),
        }
    }
}

/// Takes a whole head, from the first byte of a message on.
pub fn read_head<S: Source>(
    alloc: Global,
    source: &mut S,
    tally: &mut Tally,
    kind: Kind,
) -> Result<Vec<u8>, HttpFault>
    requires within { tally.old.turns ≤ 6000 }
    requires first { tally.old.taken ≡ 0 }
    ensures head { (bytes : List ℕ)
        × Took bytes (failed result) tally.old tally.new
        (told S.given S.left S.counts S.ended S.name source.old)
        (told S.given S.left S.counts S.ended S.name source.new)
        × HeadAnswer result kind bytes
        (told S.given S.left S.counts S.ended S.name source.new) tally.new }
{
    let mut head = Vec::new(alloc);
    match take_head(source, tally, kind, &mut head) {
        Ok(()) => Ok(head),
        Err(fault) => Err(fault),
    }
}
