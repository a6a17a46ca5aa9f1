//! Lines of a transcript.

ghost use Rattle.std.specs.Prelude.{◌≡◌, IfOk};
ghost use Rattle.zt_text.specs.Words.{words_of};
ghost use Rattle.zt_lines.specs.Lines.{frame_line, lapse_line, line_of_form as line_of_form_of, line_read, open_line, send_line};

use crate::ends::close;
use crate::numbers::{long, place};
use crate::updates::{is, update};
use std::alloc::Global;
use zk_model::Layout;
use zk_transcript::TranscriptLine;
use zt_text::{
    MAX_LINE, Words, first_word, four_words, hex, number, password, session_id, two_words,
};
use zx_base::Memory;

/// What a line of a transcript says, without its line feed; None where it is of no form, or longer than [`MAX_LINE`] bytes.
#[tactic(auto, unfolding(crate::specs::Lines::line_read))]
pub fn read_line(alloc: Global, line: &[u8]) -> Result<Option<TranscriptLine>, Memory>
    ensures { IfOk result (λ l. l ≡ line_read line.now) }
{
    if line.len() > MAX_LINE {
        return Ok(None);
    }
    let (form, words) = first_word(line);
    line_of_form(alloc, form, words)
}

#[tactic(auto, unfolding(crate::specs::Lines::line_of_form))]
fn line_of_form(
    alloc: Global,
    form: &[u8],
    words: Words<'_>,
) -> Result<Option<TranscriptLine>, Memory>
    ensures { IfOk result (λ l. l ≡ line_of_form_of form.now (words_of words.entry)) }
{
    if is(form, b"update") {
        Ok(update(words))
    } else if is(form, b"open") {
        Ok(open(words, Layout::Two))
    } else if is(form, b"open1") {
        Ok(open(words, Layout::One))
    } else if is(form, b"frame") {
        frame(alloc, words)
    } else if is(form, b"send") {
        send(alloc, words)
    } else if is(form, b"lapse") {
        Ok(lapse(words))
    } else if is(form, b"close") {
        close(alloc, words)
    } else {
        Ok(None)
    }
}

/// `open C P ID PW`, and `open1` for a session of layout 1
#[tactic(auto, unfolding(crate::specs::Lines::open_line))]
fn open(words: Words<'_>, layout: Layout) -> Option<TranscriptLine>
    ensures { result ≡ open_line layout (words_of words.entry) }
{
    let (connection, proxy, id, passwd) = four_words(words)?;
    let connection = number(connection)?;
    let proxy = number(proxy)?;
    let id = session_id(id)?;
    let passwd = password(passwd)?;
    Some(TranscriptLine::Open {
        connection,
        proxy,
        id,
        passwd,
        layout,
    })
}

/// `frame C I Z HEX`
#[tactic(auto, unfolding(crate::specs::Lines::frame_line))]
fn frame(alloc: Global, words: Words<'_>) -> Result<Option<TranscriptLine>, Memory>
    ensures { IfOk result (λ l. l ≡ frame_line (words_of words.entry)) }
{
    let Some((connection, index, zxid, bytes)) = four_words(words) else {
        return Ok(None);
    };
    let Some(connection) = number(connection) else {
        return Ok(None);
    };
    let Some(index) = place(index) else {
        return Ok(None);
    };
    let Some(zxid) = long(zxid) else {
        return Ok(None);
    };
    let Some(bytes) = hex(alloc, bytes)? else {
        return Ok(None);
    };
    Ok(Some(TranscriptLine::Frame {
        connection,
        index,
        zxid,
        bytes,
    }))
}

/// `send C HEX`
#[tactic(auto, unfolding(crate::specs::Lines::send_line))]
fn send(alloc: Global, words: Words<'_>) -> Result<Option<TranscriptLine>, Memory>
    ensures { IfOk result (λ l. l ≡ send_line (words_of words.entry)) }
{
    let Some((connection, bytes)) = two_words(words) else {
        return Ok(None);
    };
    let Some(connection) = number(connection) else {
        return Ok(None);
    };
    let Some(bytes) = hex(alloc, bytes)? else {
        return Ok(None);
    };
    Ok(Some(TranscriptLine::Send { connection, bytes }))
}

/// `lapse REV ID`
#[tactic(auto, unfolding(crate::specs::Lines::lapse_line))]
fn lapse(words: Words<'_>) -> Option<TranscriptLine>
    ensures { result ≡ lapse_line (words_of words.entry) }
{
    let (revision, id) = two_words(words)?;
    let revision = long(revision)?;
    let id = session_id(id)?;
    Some(TranscriptLine::Lapse { revision, id })
}
