//! The body of a message, taken piece by piece.

ghost use Rattle.std.specs.Prelude.{◌⊎◌, ◌+◌, ◌≡◌, ◌≢◌, ◌<◌, ◌≤◌, ◌++◌, [], ◌∷◌, false, List, ℕ, length, take, IsTrue, IfOk, IfErr, IfSome};
ghost use Rattle.ev_http.specs.Body.{TakesBytes, StaysAtEnd, TakesPart, first_part, after_content, rank, work, HasSize, SizeAnswer, TrailerAnswer, BodyAnswer, announced};
ghost use Rattle.ev_http.specs.Taking.{Took, told, failed, IsLine};
ghost use Rattle.httparse.specs.Grammar.{LineEnd, print_end, NeverHasChunkLine};

use crate::fault::HttpFault;
use crate::framing::Framing;
use crate::taking::{Cut, Tally, take_line, take_piece};
use httparse::{Status, parse_chunk_size};
use std::alloc::Global;
use zx_outside::Source;

/// How many bytes a body, or a line of a stream, has at most.
pub const MAX_BODY: u64 = 8388608;

/// How many bytes the line before a chunk has at most, with its CR LF.
pub const MAX_CHUNK_LINE: usize = 1026;

/// How many bytes the trailer fields have at most.
pub const MAX_TRAILER: usize = 16384;

/// How many bytes of a body are read at once.
pub const PIECE: usize = 4096;

/// What comes next of a body. Each `place` is where a chunk or the first trailer field begins, counted in bytes from the first byte
/// of the message.
#[derive(Clone, Copy)]
pub enum Part {
    /// So many bytes more.
    Counted { left: u64 },
    /// All bytes up to the source's end.
    ToEnd,
    /// The line before a chunk.
    Size { place: u64 },
    /// So many bytes more of a chunk.
    Content { place: u64, left: u64 },
    /// The CR LF after the content of a chunk.
    Gap { place: u64 },
    /// Trailer fields, of which so many bytes came as whole lines, and the empty line after them.
    Trailer { place: u64, fields: usize },
    /// Nothing: the message is whole.
    Whole,
}

/// What comes first after a head of so many bytes.
pub fn first_part(framing: Framing, head: u64) -> Part
    ensures { result ≡ first_part framing head }
{
    match framing {
        Framing::Counted(count) => Part::Counted { left: count },
        Framing::ToEnd => Part::ToEnd,
        Framing::Chunked => Part::Size { place: head },
    }
}

/// Takes a piece of at most so many bytes onto the end of the body, and says how many; None at the source's end.
fn take_bytes<S: Source>(
    source: &mut S,
    tally: &mut Tally,
    body: &mut Vec<u8>,
    most: u64,
) -> Result<Option<u64>, HttpFault>
    requires within { tally.old.turns ≤ 6000 }
    requires some { 0 < most }
    ensures bytes { (added : List ℕ)
        × Took added (failed result) tally.old tally.new
        (told S.given S.left S.counts S.ended S.name source.old)
        (told S.given S.left S.counts S.ended S.name source.new)
        × TakesBytes result body.old.items added body.new.items most
        (told S.given S.left S.counts S.ended S.name source.new) tally.new }
    ensures stays { StaysAtEnd result body.old.items body.new.items }
    ensures front { take (length body.old.items) body.new.items ≡ body.old.items }
{
    let mut buffer = [0u8; PIECE];
    let room = most.min(PIECE as u64) as usize;
    match take_piece(source, tally, &mut buffer[..room]) {
        Ok(Some(count)) => {
            if body.extend_from_slice(&buffer[..count]).is_err() {
                return Err(HttpFault::Memory);
            }
            Ok(Some(count as u64))
        }
        Ok(None) => Ok(None),
        Err(fault) => Err(fault),
    }
}

/// Takes a piece of a body of which so many bytes are left.
fn take_counted<S: Source>(
    source: &mut S,
    tally: &mut Tally,
    left: u64,
    body: &mut Vec<u8>,
) -> Result<Part, HttpFault>
    requires within { tally.old.turns ≤ 6000 }
    ensures part { (added : List ℕ)
        × Took added (failed result) tally.old tally.new
        (told S.given S.left S.counts S.ended S.name source.old)
        (told S.given S.left S.counts S.ended S.name source.new)
        × ((line before : List ℕ) → TakesPart result (Part.Counted left) line (before ++ body.old.items) added line (before ++ body.new.items)
        (told S.given S.left S.counts S.ended S.name source.new) tally.new) }
    ensures front { take (length body.old.items) body.new.items ≡ body.old.items }
    ensures stays { IfErr result (λ _. body.new.items ≡ body.old.items) }
    ensures on { length body.old.items ≤ 8388608 → IfOk result (λ next. work next (length body.new.items) < work (Part.Counted left) (length body.old.items)) }
{
    if left == 0 {
        return Ok(Part::Whole);
    }
    match take_bytes(source, tally, body, left) {
        Ok(Some(count)) => Ok(Part::Counted { left: left - count }),
        Ok(None) => Err(HttpFault::Ended { taken: tally.taken }),
        Err(fault) => Err(fault),
    }
}

/// Takes a piece of a body that lasts to the source's end.
fn take_to_end<S: Source>(
    source: &mut S,
    tally: &mut Tally,
    body: &mut Vec<u8>,
) -> Result<Part, HttpFault>
    requires within { tally.old.turns ≤ 6000 }
    ensures part { (added : List ℕ)
        × Took added (failed result) tally.old tally.new
        (told S.given S.left S.counts S.ended S.name source.old)
        (told S.given S.left S.counts S.ended S.name source.new)
        × ((line before : List ℕ) → TakesPart result Part.ToEnd line (before ++ body.old.items) added line (before ++ body.new.items)
        (told S.given S.left S.counts S.ended S.name source.new) tally.new) }
    ensures front { take (length body.old.items) body.new.items ≡ body.old.items }
    ensures stays { IfErr result (λ _. body.new.items ≡ body.old.items) }
    ensures on { length body.old.items ≤ 8388608 → IfOk result (λ next. work next (length body.new.items) < work Part.ToEnd (length body.old.items)) }
{
    match take_bytes(source, tally, body, PIECE as u64) {
        Ok(Some(_)) => Ok(Part::ToEnd),
        Ok(None) => Ok(Part::Whole),
        Err(fault) => Err(fault),
    }
}

/// What comes next where so many bytes of a chunk's content are left.
fn after_content(place: u64, left: u64) -> Part
    ensures { result ≡ after_content place left }
{
    if left == 0 {
        Part::Gap { place }
    } else {
        Part::Content { place, left }
    }
}

/// Takes a piece of a chunk's content of which so many bytes are left.
fn take_content<S: Source>(
    source: &mut S,
    tally: &mut Tally,
    place: u64,
    left: u64,
    body: &mut Vec<u8>,
) -> Result<Part, HttpFault>
    requires within { tally.old.turns ≤ 6000 }
    ensures part { (added : List ℕ)
        × Took added (failed result) tally.old tally.new
        (told S.given S.left S.counts S.ended S.name source.old)
        (told S.given S.left S.counts S.ended S.name source.new)
        × ((line before : List ℕ) → TakesPart result (Part.Content place left) line (before ++ body.old.items) added line (before ++ body.new.items)
        (told S.given S.left S.counts S.ended S.name source.new) tally.new) }
    ensures front { take (length body.old.items) body.new.items ≡ body.old.items }
    ensures stays { IfErr result (λ _. body.new.items ≡ body.old.items) }
    ensures on { length body.old.items ≤ 8388608 → IfOk result (λ next. work next (length body.new.items) < work (Part.Content place left) (length body.old.items)) }
{
    if left == 0 {
        return Err(HttpFault::Body { place });
    }
    match take_bytes(source, tally, body, left) {
        Ok(Some(count)) => Ok(after_content(place, left - count)),
        Ok(None) => Err(HttpFault::Ended { taken: tally.taken }),
        Err(fault) => Err(fault),
    }
}

/// The size in a whole line before a chunk; `None` where the line is not of that form.
fn read_size(line: &[u8]) -> Option<u64>
    ensures { IsLine line.now → HasSize result line.now }
{
    match parse_chunk_size(line) {
        Ok(Status::Complete((_, size))) => Some(size),
        Ok(Status::Partial) => None,
        Err(_) => None,
    }
}

/// What comes after a whole line before a chunk; `None` where the line is not of that form. The bytes after it begin at `next`.
fn after_size(line: &[u8], place: u64, next: u64) -> Option<Part>
    ensures on { IfSome result (λ later. rank later < rank (Part.Size place)) }
    ensures answer { IsLine line.now → SizeAnswer result place next line.now }
{
    match read_size(line) {
        Some(size) if size > 0 => Some(Part::Content { place, left: size }),
        Some(_) => Some(Part::Trailer {
            place: next,
            fields: 0,
        }),
        None => None,
    }
}

/// Whether no line before a chunk begins with these bytes.
fn is_no_size(line: &[u8]) -> bool
    ensures yes { IsTrue result → NeverHasChunkLine line.now }
    ensures no { result ≡ false → NeverHasChunkLine line.now → ⊥ }
{
    match parse_chunk_size(line) {
        Ok(Status::Complete(_)) => false,
        Ok(Status::Partial) => false,
        Err(_) => true,
    }
}

/// Takes the line before a chunk, or the rest of it.
fn take_size<S: Source>(
    source: &mut S,
    tally: &mut Tally,
    place: u64,
    line: &mut Vec<u8>,
) -> Result<Part, HttpFault>
    requires within { tally.old.turns ≤ 6000 }
    ensures part { (added : List ℕ)
        × Took added (failed result) tally.old tally.new
        (told S.given S.left S.counts S.ended S.name source.old)
        (told S.given S.left S.counts S.ended S.name source.new)
        × ((body : List ℕ) → TakesPart result (Part.Size place) line.old.items body added line.new.items body
        (told S.given S.left S.counts S.ended S.name source.new) tally.new) }
    ensures on { IfOk result (λ next. rank next < rank (Part.Size place)) }
{
    match take_line(source, tally, line, MAX_CHUNK_LINE) {
        Ok(Cut::LineFeed) => match after_size(line.as_slice(), place, tally.taken) {
            Some(part) => {
                line.clear();
                Ok(part)
            }
            None => Err(HttpFault::Body { place }),
        },
        Ok(Cut::Full) => Err(HttpFault::Body { place }),
        Ok(Cut::End) => {
            if is_no_size(line.as_slice()) {
                return Err(HttpFault::Body { place });
            }
            Err(HttpFault::Ended { taken: tally.taken })
        }
        Err(fault) => Err(fault),
    }
}

/// Whether the bytes are CR LF.
fn is_gap(line: &[u8]) -> bool
    ensures yes { IsTrue result → line.now ≡ 13 ∷ 10 ∷ [] }
    ensures no { result ≡ false → line.now ≢ 13 ∷ 10 ∷ [] }
{
    line == b"\r\n".as_slice()
}

/// Whether the bytes are none, or CR alone: then CR LF may still come.
fn begins_gap(line: &[u8]) -> bool
    ensures yes { IsTrue result → (line.now ≡ []) ⊎ (line.now ≡ 13 ∷ []) }
    ensures no { result ≡ false → (line.now ≢ []) × (line.now ≢ 13 ∷ []) }
{
    line.is_empty() || line == b"\r".as_slice()
}

/// Whether a line is empty.
fn is_empty_line(line: &[u8]) -> bool
    ensures yes { IsTrue result → (end : LineEnd) × (line.now ≡ print_end end) }
    ensures no { result ≡ false → (line.now ≢ 10 ∷ []) × (line.now ≢ 13 ∷ 10 ∷ []) }
{
    line == b"\n".as_slice() || line == b"\r\n".as_slice()
}

/// Takes the CR LF after a chunk, or the rest of it.
fn take_gap<S: Source>(
    source: &mut S,
    tally: &mut Tally,
    place: u64,
    line: &mut Vec<u8>,
) -> Result<Part, HttpFault>
    requires within { tally.old.turns ≤ 6000 }
    ensures part { (added : List ℕ)
        × Took added (failed result) tally.old tally.new
        (told S.given S.left S.counts S.ended S.name source.old)
        (told S.given S.left S.counts S.ended S.name source.new)
        × ((body : List ℕ) → TakesPart result (Part.Gap place) line.old.items body added line.new.items body
        (told S.given S.left S.counts S.ended S.name source.new) tally.new) }
    ensures on { IfOk result (λ next. rank next < rank (Part.Gap place)) }
{
    match take_line(source, tally, line, 2) {
        Ok(Cut::LineFeed) => {
            if !is_gap(line.as_slice()) {
                return Err(HttpFault::Body { place });
            }
            line.clear();
            Ok(Part::Size { place: tally.taken })
        }
        Ok(Cut::Full) => Err(HttpFault::Body { place }),
        Ok(Cut::End) => {
            if !begins_gap(line.as_slice()) {
                return Err(HttpFault::Body { place });
            }
            Err(HttpFault::Ended { taken: tally.taken })
        }
        Err(fault) => Err(fault),
    }
}

/// What comes after the last line of a trailer so far, where the lines before it have so many bytes; `None` where the fields are
/// too long.
fn after_trailer_line(line: &[u8], place: u64, fields: usize) -> Option<Part>
    ensures answer { fields < length line.now → TrailerAnswer result place fields line.now }
    ensures on { IfSome result (λ next. rank next < rank (Part.Trailer place fields)) }
{
    if line.len() <= fields {
        return None;
    }
    let last = &line[fields..];
    if is_empty_line(last) {
        return Some(Part::Whole);
    }
    if line.len() > MAX_TRAILER {
        return None;
    }
    Some(Part::Trailer {
        place,
        fields: line.len(),
    })
}

/// Takes a line of a trailer, or the rest of it.
fn take_trailer<S: Source>(
    source: &mut S,
    tally: &mut Tally,
    place: u64,
    fields: usize,
    line: &mut Vec<u8>,
) -> Result<Part, HttpFault>
    requires within { tally.old.turns ≤ 6000 }
    ensures part { (added : List ℕ)
        × Took added (failed result) tally.old tally.new
        (told S.given S.left S.counts S.ended S.name source.old)
        (told S.given S.left S.counts S.ended S.name source.new)
        × ((body : List ℕ) → TakesPart result (Part.Trailer place fields) line.old.items body added line.new.items body
        (told S.given S.left S.counts S.ended S.name source.new) tally.new) }
    ensures on { IfOk result (λ next. rank next < rank (Part.Trailer place fields)) }
{
    match take_line(source, tally, line, MAX_TRAILER + 2) {
        Ok(Cut::LineFeed) => match after_trailer_line(line.as_slice(), place, fields) {
            Some(part) => Ok(part),
            None => Err(HttpFault::Body { place }),
        },
        Ok(Cut::Full) => Err(HttpFault::Body { place }),
        Ok(Cut::End) => Err(HttpFault::Ended { taken: tally.taken }),
        Err(fault) => Err(fault),
    }
}

/// Takes the next piece or line of a body. Content goes to the end of `body`, whose front may have been taken away before. `line`
/// holds what came of the line before a chunk, of the CR LF after it, or of the trailer fields. After `Idle`, `ReadFault` or
/// `Ended` the same part still comes next.
pub fn take_part<S: Source>(
    source: &mut S,
    tally: &mut Tally,
    part: Part,
    line: &mut Vec<u8>,
    body: &mut Vec<u8>,
) -> Result<Part, HttpFault>
    requires more { part ≢ Part.Whole }
    requires within { tally.old.turns ≤ 6000 }
    ensures part { (added : List ℕ)
        × Took added (failed result) tally.old tally.new
        (told S.given S.left S.counts S.ended S.name source.old)
        (told S.given S.left S.counts S.ended S.name source.new)
        × ((before : List ℕ) → TakesPart result part line.old.items (before ++ body.old.items) added line.new.items (before ++ body.new.items)
        (told S.given S.left S.counts S.ended S.name source.new) tally.new) }
    ensures front { take (length body.old.items) body.new.items ≡ body.old.items }
    ensures stays { IfErr result (λ _. body.new.items ≡ body.old.items) }
    ensures on { length body.old.items ≤ 8388608 → IfOk result (λ next. work next (length body.new.items) < work part (length body.old.items)) }
{
    match part {
        Part::Counted { left } => take_counted(source, tally, left, body),
        Part::ToEnd => take_to_end(source, tally, body),
        Part::Size { place } => take_size(source, tally, place, line),
        Part::Content { place, left } => take_content(source, tally, place, left, body),
        Part::Gap { place } => take_gap(source, tally, place, line),
        Part::Trailer { place, fields } => take_trailer(source, tally, place, fields, line),
        Part::Whole => Ok(Part::Whole),
    }
}

/// Whether the message is whole.
pub fn is_whole(part: Part) -> bool
    ensures yes { IsTrue result → part ≡ Part.Whole }
    ensures no { result ≡ false → part ≢ Part.Whole }
{
    matches!(part, Part::Whole)
}

/// Whether a body has more than its limit, with the bytes that its head or the line before a chunk announces.
fn is_too_long(part: Part, held: usize) -> bool
    ensures yes { IsTrue result → 8388608 < held + announced part }
    ensures no { result ≡ false → held + announced part ≤ 8388608 }
{
    let announced = match part {
        Part::Counted { left } => left,
        Part::Content { left, .. } => left,
        _ => 0,
    };
    announced.saturating_add(held as u64) > MAX_BODY
}

/// Takes a whole body with this framing.
pub fn read_body<S: Source>(
    alloc: Global,
    source: &mut S,
    tally: &mut Tally,
    framing: Framing,
) -> Result<Vec<u8>, HttpFault>
    requires within { tally.old.turns ≤ 6000 }
    ensures body { (bytes : List ℕ)
        × Took bytes (failed result) tally.old tally.new
        (told S.given S.left S.counts S.ended S.name source.old)
        (told S.given S.left S.counts S.ended S.name source.new)
        × BodyAnswer result tally.old.taken framing bytes
        (told S.given S.left S.counts S.ended S.name source.new) tally.new }
{
    let mut part = first_part(framing, tally.taken);
    let mut line = Vec::new(alloc);
    let mut body = Vec::new(alloc);
    'parts: loop {
        if is_too_long(part, body.len()) {
            return Err(HttpFault::TooLong { limit: MAX_BODY });
        }
        if is_whole(part) {
            return Ok(body);
        }
        match take_part(source, tally, part, &mut line, &mut body) {
            Ok(next) => part = next,
            Err(fault) => return Err(fault),
        }
    }
}
