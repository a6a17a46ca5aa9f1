//! The words of a line, each after a single blank, and how they are read.
//!
//! A text is a word that begins with a slash, as it stands; or stands in quotes, and then may have blanks and no quote; or is `0x` and
//! its bytes in hex digits. So a word of a form is never taken for a text.

use crate::fault::Fault;
use std::alloc::Global;
use zt_text::{cut, first_word, hex, number, push_hex, push_signed};
use zx_base::{Memory, Text};

/// Adds a blank and a word.
pub fn push_word(line: &mut Vec<u8>, word: &[u8]) -> Result<(), Memory> {
    line.push(b' ')?;
    line.extend_from_slice(word)?;
    Ok(())
}

/// Adds a name and a number.
pub fn push_number_after(line: &mut Vec<u8>, name: &[u8], number: i64) -> Result<(), Memory> {
    push_word(line, name)?;
    line.push(b' ')?;
    push_signed(line, number)
}

/// Adds a name and bytes as hex digits.
pub fn push_hex_after(line: &mut Vec<u8>, name: &[u8], bytes: &[u8]) -> Result<(), Memory> {
    push_word(line, name)?;
    line.push(b' ')?;
    push_hex(line, bytes)
}

/// Adds a name and a text.
pub fn push_text_after(line: &mut Vec<u8>, name: &[u8], text: &[u8]) -> Result<(), Memory> {
    push_word(line, name)?;
    push_text(line, text)
}

/// Adds a text: as it stands where it begins with a slash and has no blank, else in quotes; as hex digits where it has a quote, or a
/// byte that is no printable ASCII character.
pub fn push_text(line: &mut Vec<u8>, text: &[u8]) -> Result<(), Memory> {
    if !is_printable(text) {
        push_word(line, b"0x")?;
        return push_hex(line, text);
    }
    if begins_with_slash(text) && !text.contains(&b' ') {
        return push_word(line, text);
    }
    push_word(line, b"\"")?;
    line.extend_from_slice(text)?;
    line.push(b'"')?;
    Ok(())
}

fn is_printable(text: &[u8]) -> bool {
    for byte in text {
        if *byte < b' ' || *byte > b'~' || *byte == b'"' {
            return false;
        }
    }
    true
}

fn begins_with_slash(text: &[u8]) -> bool {
    match text {
        [b'/', ..] => true,
        _ => false,
    }
}

/// The words of a line that are still to be read.
#[derive(Drop)]
pub struct Words<'a> {
    alloc: Global,
    rest: Option<&'a [u8]>,
    /// How many bytes were left before the word that was looked at last.
    unread: usize,
}

impl<'a> Words<'a> {
    /// All words of a line.
    pub fn new(alloc: Global, line: &'a [u8]) -> Words<'a> {
        Words {
            alloc,
            rest: Some(line),
            unread: line.len(),
        }
    }

    /// How many bytes are left.
    pub fn left(&self) -> usize {
        match self.rest {
            Some(rest) => rest.len(),
            None => 0,
        }
    }

    /// How many bytes the line has from the word on that was looked at last, which is the one to blame for a fault.
    pub fn unread(&self) -> usize {
        self.unread
    }

    /// A fault where a word is left.
    pub fn end(&mut self) -> Result<(), Fault> {
        self.unread = self.left();
        match self.rest {
            Some(_) => Err(Fault::Unreadable),
            None => Ok(()),
        }
    }

    /// Takes the next word.
    pub fn word(&mut self) -> Result<&'a [u8], Fault> {
        self.unread = self.left();
        let Some(rest) = self.rest else {
            return Err(Fault::Unreadable);
        };
        let (word, rest) = first_word(rest);
        self.rest = rest;
        Ok(word)
    }

    /// Takes the next word where it is this one, and says whether it is.
    pub fn takes(&mut self, name: &[u8]) -> bool {
        self.unread = self.left();
        let Some(rest) = self.rest else {
            return false;
        };
        let (word, rest) = first_word(rest);
        if word != name {
            return false;
        }
        self.rest = rest;
        true
    }

    /// Takes the next word, which has to be this one.
    pub fn expect(&mut self, name: &[u8]) -> Result<(), Fault> {
        if self.takes(name) {
            Ok(())
        } else {
            Err(Fault::Unreadable)
        }
    }

    /// Takes a number of 64 bits.
    pub fn long(&mut self) -> Result<i64, Fault> {
        let word = self.word()?;
        let Ok(text) = str::from_utf8(word) else {
            return Err(Fault::Unreadable);
        };
        match text.parse::<i64>() {
            Ok(number) => Ok(number),
            Err(_) => Err(Fault::Unreadable),
        }
    }

    /// Takes a number of 32 bits.
    pub fn int(&mut self) -> Result<i32, Fault> {
        match i32::try_from(self.long()?) {
            Ok(number) => Ok(number),
            Err(_) => Err(Fault::Unreadable),
        }
    }

    /// Takes the number of a connection.
    pub fn connection(&mut self) -> Result<u32, Fault> {
        match number(self.word()?) {
            Some(connection) => Ok(connection),
            None => Err(Fault::Unreadable),
        }
    }

    /// Takes a text.
    pub fn text(&mut self) -> Result<Text, Fault> {
        self.unread = self.left();
        match self.rest {
            Some([b'"', quoted @ ..]) => self.quoted(quoted),
            _ => self.unquoted(),
        }
    }

    /// Takes a text up to its closing quote.
    fn quoted(&mut self, quoted: &'a [u8]) -> Result<Text, Fault> {
        let (text, after) = cut(quoted, b'"');
        self.rest = match after {
            Some([]) => None,
            Some([b' ', rest @ ..]) => Some(rest),
            _ => return Err(Fault::Unreadable),
        };
        Ok(Text::copy_of(self.alloc, text)?)
    }

    fn unquoted(&mut self) -> Result<Text, Fault> {
        let word = self.word()?;
        match word {
            [b'0', b'x', digits @ ..] => match hex(self.alloc, digits)? {
                Some(text) => Ok(text),
                None => Err(Fault::Unreadable),
            },
            [b'/', ..] => Ok(Text::copy_of(self.alloc, word)?),
            _ => Err(Fault::Unreadable),
        }
    }
}
