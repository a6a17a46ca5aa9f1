//! Scripts and transcripts in words, and scripts that are made from words.

use crate::fault::Fault;
use crate::frames::frame_of;
use crate::packets::{push_connected, push_notice, push_reply};
use crate::requests::{push_first, push_later};
use crate::words::Words;
use std::alloc::{AllocFailed, Global};
use zt_text::{hex, number, push_hex, push_number, read_line};
use zx_base::Memory;

/// Why no script is made.
#[derive(Clone, Copy, PartialEq, Eq)]
pub enum Unmade {
    /// Out of memory. Nothing is said of the text.
    Memory,
    /// A line cannot be read from one of its bytes on; both are counted from 1. The byte is the one after the line's last where more
    /// would have to follow.
    Line { line: usize, byte: usize },
}

impl From<AllocFailed<u8>> for Unmade {
    fn from(_refused: AllocFailed<u8>) -> Unmade {
        Unmade::Memory
    }
}

/// A script or a transcript in words, line for line.
pub fn in_words(alloc: Global, text: &str) -> Result<Vec<u8>, Memory> {
    let mut story = Story::new(alloc);
    let mut out = Vec::new(alloc);
    for (place, line) in text.split('\n').enumerate() {
        if place > 0 {
            out.push(b'\n')?;
        }
        story.push_in_words(&mut out, line)?;
    }
    Ok(out)
}

/// The script that a text in words says, line for line, each of a form. Lines that are empty or begin with `#` are left out.
pub fn script_of(alloc: Global, text: &str) -> Result<Vec<u8>, Unmade> {
    let mut out = Vec::new(alloc);
    for (place, line) in text.split('\n').enumerate() {
        if line.is_empty() || line.starts_with('#') {
            continue;
        }
        let line = line.as_bytes();
        let mut words = Words::new(alloc, line);
        match push_script_line(alloc, &mut out, line, &mut words) {
            Ok(()) => out.push(b'\n')?,
            Err(Fault::Memory) => return Err(Unmade::Memory),
            Err(Fault::Unreadable) => {
                let read = line.len().saturating_sub(words.unread());
                return Err(Unmade::Line {
                    line: place.saturating_add(1),
                    byte: read.saturating_add(1),
                });
            }
        }
    }
    Ok(out)
}

/// The type of what a connection's first frame asks. No request has it (`ZooDefs.OpCode`).
const CONNECT: i32 = 0;

/// A frame that was sent.
#[derive(Clone, Copy)]
struct Ask {
    connection: u32,
    /// The type of the request.
    kind: i32,
    is_answered: bool,
}

/// What was asked so far in a script or a transcript, by the lines that were put into words.
#[derive(Drop)]
struct Story {
    alloc: Global,
    asks: Vec<Ask>,
}

impl Story {
    /// A story of which no line was seen.
    fn new(alloc: Global) -> Story {
        Story {
            alloc,
            asks: Vec::new(alloc),
        }
    }

    /// Adds a line in words, without its line feed. One that has no words stays as it is.
    fn push_in_words(&mut self, out: &mut Vec<u8>, line: &str) -> Result<(), Memory> {
        if let Some((head, digits)) = line.rsplit_once(' ')
            && let Some(words) = self.words_of(head, digits)?
        {
            out.extend_from_slice(head.as_bytes())?;
            out.extend_from_slice(words.as_slice())?;
            return Ok(());
        }
        out.extend_from_slice(line.as_bytes())?;
        Ok(())
    }

    /// The words in place of the hex digits that end a line, each after a blank. None: there are none.
    fn words_of(&mut self, head: &str, digits: &str) -> Result<Option<Vec<u8>>, Memory> {
        let mut parts = head.split(' ');
        let (Some(form), Some(connection)) = (parts.next(), parts.next()) else {
            return Ok(None);
        };
        let Some(connection) = number(connection.as_bytes()) else {
            return Ok(None);
        };
        let Some(bytes) = hex(self.alloc, digits.as_bytes())? else {
            return Ok(None);
        };
        match form {
            "frame" => self.frame_words(connection, bytes.as_slice()),
            "send" => self.packet_words(connection, bytes.as_slice()),
            _ => Ok(None),
        }
    }

    /// The words of a frame, if the same frame is made from them.
    fn frame_words(&mut self, connection: u32, frame: &[u8]) -> Result<Option<Vec<u8>>, Memory> {
        let is_first = self.is_first(connection);
        self.asks.push(Ask {
            connection,
            kind: if is_first { CONNECT } else { kind_of(frame) },
            is_answered: false,
        })?;
        let mut words = Vec::new(self.alloc);
        let has_words = if is_first {
            push_first(self.alloc, &mut words, frame)?
        } else {
            push_later(self.alloc, &mut words, frame)?
        };
        if has_words && spells(self.alloc, words.as_slice(), frame)? {
            Ok(Some(words))
        } else {
            Ok(None)
        }
    }

    fn is_first(&self, connection: u32) -> bool {
        for ask in &self.asks {
            if ask.connection == connection {
                return false;
            }
        }
        true
    }

    /// The words of a packet. One that is no notification answers the first frame of its connection that is not answered yet.
    fn packet_words(&mut self, connection: u32, packet: &[u8]) -> Result<Option<Vec<u8>>, Memory> {
        let mut words = Vec::new(self.alloc);
        if push_notice(self.alloc, &mut words, packet)? {
            return Ok(Some(words));
        }
        let has_words = match self.next_answered(connection) {
            Some(CONNECT) => push_connected(self.alloc, &mut words, packet)?,
            Some(kind) => push_reply(self.alloc, &mut words, packet, kind)?,
            None => false,
        };
        if has_words { Ok(Some(words)) } else { Ok(None) }
    }

    /// The type of the first ask of the connection that is not answered yet, which is answered now.
    fn next_answered(&mut self, connection: u32) -> Option<i32> {
        for ask in &mut self.asks {
            if ask.connection == connection && !ask.is_answered {
                ask.is_answered = true;
                return Some(ask.kind);
            }
        }
        None
    }
}

/// The type in the header of a request, or `CONNECT` where it has none.
fn kind_of(frame: &[u8]) -> i32 {
    match frame {
        [_, _, _, _, a, b, c, d, ..] => i32::from_be_bytes([*a, *b, *c, *d]),
        _ => CONNECT,
    }
}

/// Whether the words, which begin with a blank, say this frame.
fn spells(alloc: Global, words: &[u8], frame: &[u8]) -> Result<bool, Memory> {
    let [_blank, words @ ..] = words else {
        return Ok(false);
    };
    match frame_of(alloc, &mut Words::new(alloc, words)) {
        Ok(Some(made)) => Ok(made.as_slice() == frame),
        Ok(None) | Err(Fault::Unreadable) => Ok(false),
        Err(Fault::Memory) => Err(Memory),
    }
}

/// Adds the line of a script that a line in words says, without its line feed. One that has no words stays as it is.
fn push_script_line(
    alloc: Global,
    out: &mut Vec<u8>,
    line: &[u8],
    words: &mut Words<'_>,
) -> Result<(), Fault> {
    if words.takes(b"frame") {
        let connection = words.connection()?;
        if let Some(frame) = frame_of(alloc, words)? {
            out.extend_from_slice(b"frame ")?;
            push_number(out, u64::from(connection))?;
            out.push(b' ')?;
            push_hex(out, frame.as_slice())?;
            return Ok(());
        }
    }
    if read_line(alloc, line)?.is_none() {
        return Err(Fault::Unreadable);
    }
    out.extend_from_slice(line)?;
    Ok(())
}
