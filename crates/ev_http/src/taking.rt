//! Takes bytes from a source, and no more than are asked for.

ghost use Rattle.std.specs.Prelude.{◌≡◌, ◌<◌, ◌≤◌, List, ℕ, length, IfErr};
ghost use Rattle.ev_http.specs.Taking.{Took, told, failed, bytes_in, Fits, EndsAtFeed, AtEnd, Stopped, TakesPiece, TakesLine};

use crate::fault::HttpFault;
use zx_outside::{Got, Source};

/// How many idle turns one call waits.
pub const MAX_IDLE_TURNS: u32 = 6000;

/// How many bytes of a line are taken at once.
const LINE_PIECE: usize = 128;

/// What was counted so far: the idle turns of this call, and the bytes taken of this message.
#[derive(Clone, Copy)]
pub struct Tally {
    pub turns: u32,
    pub taken: u64,
}

impl Tally {
    /// At the first byte of a message.
    pub fn new() -> Tally
        ensures turns { result.turns ≡ 0 }
        ensures taken { result.taken ≡ 0 }
    {
        Tally { turns: 0, taken: 0 }
    }
}

/// Takes the next bytes into the front of the buffer, and says how many; `None` at the source's end.
pub fn take_piece<S: Source>(
    source: &mut S,
    tally: &mut Tally,
    buffer: &mut [u8],
) -> Result<Option<usize>, HttpFault>
    requires room { 0 < length buffer.old }
    requires within { tally.old.turns ≤ 6000 }
    ensures size { Fits result (length buffer.new) }
    ensures took { Took (bytes_in result buffer.new) (failed result) tally.old tally.new
        (told S.given S.left S.counts S.ended S.name source.old)
        (told S.given S.left S.counts S.ended S.name source.new) }
    ensures end { AtEnd result (told S.given S.left S.counts S.ended S.name source.new) }
    ensures stopped { IfErr result (λ e. Stopped e tally.new) }
{
    'turns: while tally.turns < MAX_IDLE_TURNS {
        match source.read(buffer) {
            Got::Bytes(count) => {
                tally.taken = tally.taken.saturating_add(count as u64);
                return Ok(Some(count));
            }
            Got::End => return Ok(None),
            Got::Failed => return Err(HttpFault::ReadFault),
            Got::Nothing => tally.turns += 1,
        }
    }
    Err(HttpFault::Idle)
}

/// As `take_piece`, but up to a line feed at most.
fn take_line_piece<S: Source>(
    source: &mut S,
    tally: &mut Tally,
    buffer: &mut [u8],
) -> Result<Option<usize>, HttpFault>
    requires room { 0 < length buffer.old }
    requires within { tally.old.turns ≤ 6000 }
    ensures size { Fits result (length buffer.new) }
    ensures took { Took (bytes_in result buffer.new) (failed result) tally.old tally.new
        (told S.given S.left S.counts S.ended S.name source.old)
        (told S.given S.left S.counts S.ended S.name source.new) }
    ensures feed { EndsAtFeed result buffer.new }
    ensures end { AtEnd result (told S.given S.left S.counts S.ended S.name source.new) }
    ensures stopped { IfErr result (λ e. Stopped e tally.new) }
{
    'turns: while tally.turns < MAX_IDLE_TURNS {
        match source.read_line(buffer) {
            Got::Bytes(count) => {
                tally.taken = tally.taken.saturating_add(count as u64);
                return Ok(Some(count));
            }
            Got::End => return Ok(None),
            Got::Failed => return Err(HttpFault::ReadFault),
            Got::Nothing => tally.turns += 1,
        }
    }
    Err(HttpFault::Idle)
}

/// What a piece of a line is.
#[derive(Clone, Copy)]
enum Piece {
    /// It ends with the line's feed.
    Last,
    /// More of the line is to come.
    Part,
    /// There is none: the source ended.
    End,
}

/// Takes a piece of a line onto its end, by way of a buffer that is not empty and has room for as many bytes as are taken at most.
fn take_some<S: Source>(
    source: &mut S,
    tally: &mut Tally,
    line: &mut Vec<u8>,
    buffer: &mut [u8],
) -> Result<Piece, HttpFault>
    requires within { tally.old.turns ≤ 6000 }
    requires room { 0 < length buffer.old }
    ensures line { (added : List ℕ)
        × Took added (failed result) tally.old tally.new
        (told S.given S.left S.counts S.ended S.name source.old)
        (told S.given S.left S.counts S.ended S.name source.new)
        × TakesPiece result line.old.items added line.new.items (length buffer.old)
        (told S.given S.left S.counts S.ended S.name source.new) tally.new }
{
    match take_line_piece(source, tally, buffer) {
        Ok(Some(count)) => {
            if line.extend_from_slice(&buffer[..count]).is_err() {
                return Err(HttpFault::Memory);
            }
            if buffer[count - 1] == b'\n' {
                return Ok(Piece::Last);
            }
            Ok(Piece::Part)
        }
        Ok(None) => Ok(Piece::End),
        Err(fault) => Err(fault),
    }
}

/// What ended the taking of a line.
#[derive(Clone, Copy)]
pub enum Cut {
    /// Its line feed was taken.
    LineFeed,
    /// It is as long as it may be, and has no line feed yet.
    Full,
    /// The source ended.
    End,
}

/// Takes bytes onto the end of a line, up to a line feed or until the line has `limit` bytes. What was taken stays in the line, whatever
/// the answer, but for the last piece where there was no memory for it.
pub fn take_line<S: Source>(
    source: &mut S,
    tally: &mut Tally,
    line: &mut Vec<u8>,
    limit: usize,
) -> Result<Cut, HttpFault>
    requires within { tally.old.turns ≤ 6000 }
    ensures line { (added : List ℕ)
        × Took added (failed result) tally.old tally.new
        (told S.given S.left S.counts S.ended S.name source.old)
        (told S.given S.left S.counts S.ended S.name source.new)
        × TakesLine result line.old.items added line.new.items limit
        (told S.given S.left S.counts S.ended S.name source.new) tally.new }
{
    let mut buffer = [0u8; LINE_PIECE];
    'pieces: while line.len() < limit {
        let room = (limit - line.len()).min(LINE_PIECE);
        match take_some(source, tally, line, &mut buffer[..room]) {
            Ok(Piece::Last) => return Ok(Cut::LineFeed),
            Ok(Piece::Part) => {}
            Ok(Piece::End) => return Ok(Cut::End),
            Err(fault) => return Err(fault),
        }
    }
    Ok(Cut::Full)
}
