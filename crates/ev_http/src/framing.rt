//! How the body of a message is framed, by the fields of its head.

ghost use Rattle.zx_outside.specs.Reading.{HasNoFeed};
ghost use Rattle.std.specs.Prelude.{◌≡◌, ◌≤◌, ◌++◌, ◌∷◌, [], List, ℕ, length, map, All};
ghost use Rattle.httparse.specs.Spans.{IsHeaderWithin, header_bytes};
ghost use Rattle.ev_http.specs.Framing.{is_word, count_of, after_count, after_coding, after_field, framing_after, BeginsLastLines, EndsInFeed, StandsAt};
ghost use Rattle.ev_http.specs.Heads.{IsHead};
ghost use Rattle.httparse.specs.Grammar.{Field};

use crate::head::Kind;
use httparse::spans::HeaderSpan;

/// How a body is framed (RFC 9112, section 6).
#[derive(Clone, Copy)]
pub enum Framing {
    /// It has so many bytes; 2^64 - 1 stands for any greater count too.
    Counted(u64),
    /// It comes in chunks.
    Chunked,
    /// It lasts to the source's end.
    ToEnd,
}

/// The words of a head that decide the framing.
#[derive(Clone, Copy)]
enum Word {
    ContentLength,
    TransferEncoding,
    Chunked,
}

/// Whether the bytes are the word, whatever the case of their letters.
#[tactic(auto, unfolding(crate::specs::Framing::is_word))]
fn is_word(word: Word, bytes: &[u8]) -> bool
    ensures { result ≡ is_word word bytes.now }
{
    match word {
        Word::ContentLength => bytes.eq_ignore_ascii_case(b"content-length"),
        Word::TransferEncoding => bytes.eq_ignore_ascii_case(b"transfer-encoding"),
        Word::Chunked => bytes.eq_ignore_ascii_case(b"chunked"),
    }
}

/// The number that a value of digits gives, or 2^64 - 1 where it is greater; `None` for any other value.
#[tactic(auto, unfolding(crate::specs::Framing::count_of))]
fn count_of(value: &[u8]) -> Option<u64>
    ensures { result ≡ count_of value.now }
{
    if value.is_empty() {
        return None;
    }
    let mut count: u64 = 0;
    'digits: for digit in value {
        if !digit.is_ascii_digit() {
            return None;
        }
        count = count
            .saturating_mul(10)
            .saturating_add((*digit - b'0') as u64);
    }
    Some(count)
}

fn after_count(framing: Framing, count: Option<u64>) -> Option<Framing>
    ensures { result ≡ after_count framing count }
{
    match (framing, count) {
        (Framing::ToEnd, Some(count)) => Some(Framing::Counted(count)),
        (Framing::Counted(first), Some(count)) if first == count => Some(Framing::Counted(first)),
        _ => None,
    }
}

fn after_coding(kind: Kind, framing: Framing, is_chunked: bool) -> Option<Framing>
    ensures { result ≡ after_coding kind framing is_chunked }
{
    match (kind, framing) {
        (Kind::Response, Framing::ToEnd) if is_chunked => Some(Framing::Chunked),
        _ => None,
    }
}

/// The framing after one more field; `None` where the field breaks a rule.
#[tactic(auto, unfolding(crate::specs::Framing::after_field))]
fn after_field(kind: Kind, framing: Framing, name: &[u8], value: &[u8]) -> Option<Framing>
    ensures { result ≡ after_field kind framing (name.now, value.now) }
{
    if is_word(Word::ContentLength, name) {
        return after_count(framing, count_of(value));
    }
    if is_word(Word::TransferEncoding, name) {
        return after_coding(kind, framing, is_word(Word::Chunked, value));
    }
    Some(framing)
}

/// The framing after all fields, or the number of the first field that breaks a rule.
pub fn read_framing(kind: Kind, head: &[u8], fields: &[HeaderSpan]) -> Result<Framing, usize>
    requires { All (IsHeaderWithin (length head.now)) fields.now }
    ensures { result ≡ framing_after kind Framing.ToEnd (map (header_bytes head.now) fields.now) }
{
    let mut framing = Framing::ToEnd;
    'fields: for (number, field) in fields.iter().enumerate() {
        match after_field(kind, framing, field.name.of(head), field.value.of(head)) {
            Some(next) => framing = next,
            None => return Err(number),
        }
    }
    Ok(framing)
}

/// Where the last line of the bytes begins, which ends with their last byte.
fn last_line(bytes: &[u8]) -> usize
    ensures bound { result ≤ length bytes.now }
    ensures begins { (before text : List ℕ) → bytes.now ≡ before ++ (text ++ 10 ∷ []) → HasNoFeed text → EndsInFeed before → result ≡ length before }
{
    let mut at = bytes.len().saturating_sub(1);
    'bytes: while at > 0 && bytes[at - 1] != b'\n' {
        at -= 1;
    }
    at
}

/// Where the last so many lines of the bytes begin.
fn last_lines(bytes: &[u8], count: usize) -> usize
    ensures begins { BeginsLastLines bytes.now count result }
{
    let mut end = bytes.len();
    'lines: for _ in 0..count {
        end = last_line(&bytes[..end]);
    }
    end
}

/// Where the line of this number begins in a head, among its so many field lines and the empty line after them.
pub fn place_of(head: &[u8], fields: usize, number: usize) -> u64
    ensures { (kind : Kind) (all : List Field) → IsHead kind all head.now → length all ≡ fields → fields ≤ 64 → number ≤ fields → StandsAt all number result head.now }
{
    last_lines(head, fields.saturating_sub(number).saturating_add(1)) as u64
}
