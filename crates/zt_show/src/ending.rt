//! How a stream ended.

ghost use Rattle.std.specs.Prelude.{◌≡◌, ◌++◌, OnOk};
ghost use Rattle.zt_show.specs.Shown.{at_place, ending_words, ending_line};

use crate::draft::Draft;
use zx_base::Memory;

/// How a stream ended. A place is an offset in the stream; a frame's is the offset of the first byte of its length.
#[derive(Clone, Copy, PartialEq, Eq)]
pub enum Ending {
    /// After a whole frame, or before the first, at this many bytes.
    End { place: u64 },
    /// Inside a frame or its length, at this many bytes.
    Cut { place: u64 },
    /// The length at this place is below 0 or above 1,048,575.
    Length { place: u64, length: i32 },
    /// The frame at this place has fewer than 8 bytes; or it is the first, and no connect.
    NoHeader { place: u64 },
    /// It has more than 100,000,000 bytes.
    Long,
}

/// Adds the last line.
pub(crate) fn push_ending(text: &mut Draft, ending: Ending) -> Result<(), Memory>
    ensures { OnOk result (text.new ≡ text.old ++ ending_line ending) }
{
    push_words(text, ending)?;
    text.end_line()
}

fn push_words(text: &mut Draft, ending: Ending) -> Result<(), Memory>
    ensures { OnOk result (text.new ≡ text.old ++ ending_words ending) }
{
    match ending {
        Ending::End { place } => push_at(text, b"end", place),
        Ending::Cut { place } => push_at(text, b"cut", place),
        Ending::Length { place, length } => {
            push_at(text, b"length", place)?;
            text.signed(i64::from(length))
        }
        Ending::NoHeader { place } => push_at(text, b"noheader", place),
        Ending::Long => text.bytes(b"long 100000000"),
    }
}

/// Adds a word and a place.
fn push_at(text: &mut Draft, word: &[u8], place: u64) -> Result<(), Memory>
    ensures { OnOk result (text.new ≡ text.old ++ at_place word.now place) }
{
    text.bytes(word)?;
    text.count(place)
}
