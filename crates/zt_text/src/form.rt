//! The forms of a script's lines: the first word, and what its arguments are.

ghost use Rattle.std.specs.Prelude.{◌≡◌, IfOk, bytes_eq};
ghost use Rattle.zt_text.specs.Scripts.{number_and_bytes as number_and_bytes_of, numbered_line, of_number as of_number_of, open_happening, frame_happening, bytes_line, lapse_happening, foreign_line, reap_line, happening_of_form as line_of_form_of};
ghost use Rattle.zt_text.specs.Words.{words_of};

use crate::Happening;
use crate::argument::{hex, number, password, session_id};
use crate::words::{Words, four_words, one_word, three_words, two_words};
use std::alloc::Global;
use zk_model::Layout;
use zx_base::{Bytes, Memory};

/// What a line says, by its first word and the others.
#[tactic(auto, unfolding(crate::specs::Scripts::happening_of_form))]
pub(crate) fn line_of_form(
    alloc: Global,
    form: &[u8],
    words: Words<'_>,
) -> Result<Option<Happening>, Memory>
    ensures { IfOk result (λ h. h ≡ line_of_form_of form.now (words_of words.entry)) }
{
    if is(form, b"open") {
        Ok(open(words, Layout::Two))
    } else if is(form, b"open1") {
        Ok(open(words, Layout::One))
    } else if is(form, b"frame") {
        frame(alloc, words)
    } else if is(form, b"bytes") {
        arrive(alloc, words)
    } else if is(form, b"lapse") {
        Ok(lapse(words))
    } else if is(form, b"foreign") {
        foreign(alloc, words)
    } else if is(form, b"reap") {
        Ok(reap(words))
    } else {
        Ok(numbered(form, words))
    }
}

fn is(form: &[u8], name: &[u8]) -> bool
    ensures { result ≡ bytes_eq form.now name.now }
{
    form == name
}

/// A line whose one argument is a number.
#[tactic(auto, unfolding(crate::specs::Scripts::numbered_line))]
fn numbered(form: &[u8], words: Words<'_>) -> Option<Happening>
    ensures { result ≡ numbered_line form.now (words_of words.entry) }
{
    let number = number(one_word(words)?)?;
    of_number(form, number)
}

#[tactic(auto, unfolding(crate::specs::Scripts::of_number))]
fn of_number(form: &[u8], number: u32) -> Option<Happening>
    ensures { result ≡ of_number_of form.now number }
{
    let connection = number;
    if is(form, b"exec") {
        Some(Happening::Exec { connection })
    } else if is(form, b"answer") {
        Some(Happening::Answer { connection })
    } else if is(form, b"cut") {
        Some(Happening::Cut { connection })
    } else if is(form, b"refuse") {
        Some(Happening::Refuse { connection })
    } else if is(form, b"stray") {
        Some(Happening::Stray { number })
    } else if is(form, b"entry") {
        Some(Happening::Entry { connection })
    } else if is(form, b"lag") {
        Some(Happening::Lag { connection })
    } else if is(form, b"end") {
        Some(Happening::End { connection })
    } else if is(form, b"restart") {
        Some(Happening::Restart { proxy: number })
    } else if is(form, b"tick") {
        Some(Happening::Tick { millis: number })
    } else if is(form, b"settle") {
        Some(Happening::Settle { connection })
    } else {
        None
    }
}

/// `open C P ID PW`, and `open1` for a session of layout 1
#[tactic(auto, unfolding(crate::specs::Scripts::open_happening))]
fn open(words: Words<'_>, layout: Layout) -> Option<Happening>
    ensures { result ≡ open_happening layout (words_of words.entry) }
{
    let (connection, proxy, id, passwd) = four_words(words)?;
    let connection = number(connection)?;
    let proxy = number(proxy)?;
    let id = session_id(id)?;
    let passwd = password(passwd)?;
    Some(Happening::Open {
        connection,
        proxy,
        id,
        passwd,
        layout,
    })
}

/// The arguments of `frame` and of `bytes`.
fn number_and_bytes(alloc: Global, words: Words<'_>) -> Result<Option<(u32, Bytes)>, Memory>
    ensures { IfOk result (λ x. x ≡ number_and_bytes_of (words_of words.entry)) }
{
    let Some((connection, bytes)) = two_words(words) else {
        return Ok(None);
    };
    let Some(connection) = number(connection) else {
        return Ok(None);
    };
    let Some(bytes) = hex(alloc, bytes)? else {
        return Ok(None);
    };
    Ok(Some((connection, bytes)))
}

/// `frame C HEX`
#[tactic(auto, unfolding(crate::specs::Scripts::frame_happening))]
fn frame(alloc: Global, words: Words<'_>) -> Result<Option<Happening>, Memory>
    ensures { IfOk result (λ h. h ≡ frame_happening (words_of words.entry)) }
{
    match number_and_bytes(alloc, words)? {
        Some((connection, bytes)) => Ok(Some(Happening::Frame { connection, bytes })),
        None => Ok(None),
    }
}

/// `bytes C HEX`
#[tactic(auto, unfolding(crate::specs::Scripts::bytes_line))]
fn arrive(alloc: Global, words: Words<'_>) -> Result<Option<Happening>, Memory>
    ensures { IfOk result (λ h. h ≡ bytes_line (words_of words.entry)) }
{
    match number_and_bytes(alloc, words)? {
        Some((connection, bytes)) => Ok(Some(Happening::Arrive { connection, bytes })),
        None => Ok(None),
    }
}

/// `lapse ID`
#[tactic(auto, unfolding(crate::specs::Scripts::lapse_happening))]
fn lapse(words: Words<'_>) -> Option<Happening>
    ensures { result ≡ lapse_happening (words_of words.entry) }
{
    let id = session_id(one_word(words)?)?;
    Some(Happening::Lapse { id })
}

/// `foreign KEYHEX VALHEX`
#[tactic(auto, unfolding(crate::specs::Scripts::foreign_line))]
fn foreign(alloc: Global, words: Words<'_>) -> Result<Option<Happening>, Memory>
    ensures { IfOk result (λ h. h ≡ foreign_line (words_of words.entry)) }
{
    let Some((key, value)) = two_words(words) else {
        return Ok(None);
    };
    let Some(key) = hex(alloc, key)? else {
        return Ok(None);
    };
    let Some(value) = hex(alloc, value)? else {
        return Ok(None);
    };
    Ok(Some(Happening::Foreign { key, value }))
}

/// `reap C P ID`
#[tactic(auto, unfolding(crate::specs::Scripts::reap_line))]
fn reap(words: Words<'_>) -> Option<Happening>
    ensures { result ≡ reap_line (words_of words.entry) }
{
    let (connection, proxy, id) = three_words(words)?;
    let connection = number(connection)?;
    let proxy = number(proxy)?;
    let id = session_id(id)?;
    Some(Happening::Reap {
        connection,
        proxy,
        id,
    })
}
