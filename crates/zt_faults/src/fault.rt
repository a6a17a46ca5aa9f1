//! Why a line cannot be read.

ghost use Rattle.std.specs.Prelude.{IfOk};
ghost use Rattle.zt_text.specs.Scripts.{happening_read};
ghost use Rattle.zt_faults.specs.Faults.{IsFound};

use crate::expected::Expected;
use crate::forms::{Form, Forms, beginning, form_of};
use crate::words::{fits, fitting};
use std::alloc::Global;
use std::fmt;
use std::fmt::{Display, Formatter, Write};
use zt_text::{MAX_LINE, Words, first_word, read_line};
use zx_base::Memory;

/// Why a line cannot be read.
#[derive(Debug, Clone, Copy, PartialEq, Eq)]
pub struct LineFault {
    /// The line's first byte that is not as expected, counted from 1. It may be the one after the last.
    pub byte: usize,
    /// Whether the line ends before it.
    pub is_early: bool,
    /// What is expected there.
    pub expected: Expected,
}

/// A line that is longer than one may be.
pub const TOO_LONG: LineFault = LineFault {
    byte: MAX_LINE + 1,
    is_early: false,
    expected: Expected::LongestEnd,
};

/// A line of which no more is known.
const UNKNOWN: LineFault = LineFault {
    byte: 1,
    is_early: false,
    expected: Expected::ScriptLine,
};

/// A line after the last one of a transcript.
const AFTER_LAST: LineFault = LineFault {
    byte: 1,
    is_early: false,
    expected: Expected::LastLine,
};

const LINE_FEED: u8 = b'\n';

impl Display for LineFault {
    fn fmt<W: Write>(&self, f: &mut Formatter<W>) -> fmt::Result {
        if self.is_early {
            write!(f, "ends too early: expected {}", self.expected)
        } else {
            write!(
                f,
                "cannot be read from byte {} on: expected {}",
                self.byte, self.expected
            )
        }
    }
}

/// Why no more words of a line were read.
#[derive(Clone, Copy)]
enum Stop<'a> {
    /// The first of these words is not as expected, or there is none.
    At(Words<'a>, Expected),
    Memory,
}

impl<'a> From<Memory> for Stop<'a> {
    fn from(_refused: Memory) -> Stop<'a> {
        Stop::Memory
    }
}

/// Why a line of a script, without its line feed, cannot be read; `None` if it can.
pub fn fault_in_script(alloc: Global, line: &[u8]) -> Result<Option<LineFault>, Memory>
    ensures { IfOk result (λ fault. IsFound fault (happening_read line.now)) }
{
    if read_line(alloc, line)?.is_some() {
        return Ok(None);
    }
    let fault = fault_in(alloc, Forms::Script, line)?;
    Ok(Some(fault.unwrap_or(UNKNOWN)))
}

/// Why line `number` of a transcript's text, counted from 1, is the first that cannot be read; `None` if it can, or is too far into the
/// text to be read.
pub fn fault_at_line(alloc: Global, text: &[u8], number: u64) -> Result<Option<LineFault>, Memory> {
    let mut lines = text.split(|byte| *byte == LINE_FEED);
    let mut before: &[u8] = &[];
    let mut at: u64 = 1;
    'lines: while let Some(line) = lines.next() {
        if at == number {
            return if is_last(before) {
                Ok(Some(AFTER_LAST))
            } else {
                fault_in_transcript(alloc, line)
            };
        }
        before = line;
        at = at.saturating_add(1);
    }
    Ok(None)
}

/// Whether a line that can be read is the last of its transcript.
fn is_last(line: &[u8]) -> bool {
    let (form, _) = first_word(line);
    form == b"done".as_slice() || form == b"fault".as_slice()
}

/// Why a line of a transcript, without its line feed, cannot be read; `None` if it can.
fn fault_in_transcript(alloc: Global, line: &[u8]) -> Result<Option<LineFault>, Memory> {
    fault_in(alloc, Forms::Transcript, line)
}

fn fault_in(alloc: Global, forms: Forms, line: &[u8]) -> Result<Option<LineFault>, Memory> {
    if line.len() > MAX_LINE {
        return Ok(Some(TOO_LONG));
    }
    match read(alloc, forms, Some(line)) {
        Ok(()) => Ok(None),
        Err(Stop::At(words, expected)) => Ok(Some(fault_at(line, words, expected))),
        Err(Stop::Memory) => Err(Memory),
    }
}

/// The fault of a line of which the first of these words, its last ones, is not as expected.
fn fault_at(line: &[u8], words: Words<'_>, expected: Expected) -> LineFault {
    let rest = words.unwrap_or_default();
    let before = line.len().saturating_sub(rest.len());
    // A word too many begins with the blank before it.
    if expected == Expected::End {
        return LineFault {
            byte: before,
            is_early: false,
            expected,
        };
    }
    let (word, _) = first_word(rest);
    let byte = before
        .saturating_add(fitting(expected, word))
        .saturating_add(1);
    LineFault {
        byte,
        is_early: before == line.len(),
        expected,
    }
}

/// Reads all words of a line of one of these forms.
fn read<'a>(alloc: Global, forms: Forms, words: Words<'a>) -> Result<(), Stop<'a>> {
    let (rest, then) = after_form(alloc, forms, words)?;
    let rest = match then {
        None => rest,
        Some(forms) => after_form(alloc, forms, rest)?.0,
    };
    match rest {
        None => Ok(()),
        Some(_) => Err(Stop::At(rest, Expected::End)),
    }
}

/// The words after those of one of these forms, and of which forms they are.
fn after_form<'a>(
    alloc: Global,
    forms: Forms,
    words: Words<'a>,
) -> Result<(Words<'a>, Option<Forms>), Stop<'a>> {
    let Some(text) = words else {
        return Err(Stop::At(None, beginning(forms)));
    };
    let (name, rest) = first_word(text);
    let Some(Form { arguments, then }) = form_of(forms, name) else {
        return Err(Stop::At(words, beginning(forms)));
    };
    let mut rest = rest;
    for expected in arguments {
        rest = after_word(alloc, *expected, rest)?;
    }
    Ok((rest, then))
}

/// The words after the first, which has to be as expected.
fn after_word<'a>(
    alloc: Global,
    expected: Expected,
    words: Words<'a>,
) -> Result<Words<'a>, Stop<'a>> {
    let Some(text) = words else {
        return Err(Stop::At(None, expected));
    };
    let (word, rest) = first_word(text);
    if fits(alloc, expected, word)? {
        Ok(rest)
    } else {
        Err(Stop::At(words, expected))
    }
}
