//! What an update was.

ghost use Rattle.std.specs.Prelude.{◌≡◌, bytes_eq};
ghost use Rattle.zt_text.specs.Words.{words_of};
ghost use Rattle.zt_lines.specs.Lines.{asked_words, attach_words, begin_words, closed_words, id_and_connection as id_and_connection_of, kind_of_form as kind_of_form_of, kind_read, reaped_words, session_words, update_line};

use crate::numbers::{long, place};
use zk_service::{UpdateKind, UpdateRec};
use zk_transcript::TranscriptLine;
use zt_text::{Words, first_word, number, one_word, session_id, three_words, two_words};

/// `update Z ..`
#[tactic(auto, unfolding(crate::specs::Lines::update_line))]
pub fn update(words: Words<'_>) -> Option<TranscriptLine>
    ensures { result ≡ update_line (words_of words.entry) }
{
    let (zxid, words) = first_word(words?);
    let zxid = long(zxid)?;
    let kind = kind(words)?;
    Some(TranscriptLine::Update(UpdateRec { zxid, kind }))
}

fn kind(words: Words<'_>) -> Option<UpdateKind>
    ensures { result ≡ kind_read (words_of words.entry) }
{
    let (form, words) = first_word(words?);
    kind_of_form(form, words)
}

pub fn is(form: &[u8], name: &[u8]) -> bool
    ensures { result ≡ bytes_eq form.now name.now }
{
    form == name
}

#[tactic(auto, unfolding(crate::specs::Lines::kind_of_form))]
fn kind_of_form(form: &[u8], words: Words<'_>) -> Option<UpdateKind>
    ensures { result ≡ kind_of_form_of form.now (words_of words.entry) }
{
    if is(form, b"begin") {
        begin(words)
    } else if is(form, b"session") {
        session(words)
    } else if is(form, b"attach") {
        attach(words)
    } else if is(form, b"asked") {
        asked(words)
    } else if is(form, b"closed") {
        closed(words)
    } else if is(form, b"reaped") {
        reaped(words)
    } else {
        None
    }
}

/// `begin NOW`
#[tactic(auto, unfolding(crate::specs::Lines::begin_words))]
fn begin(words: Words<'_>) -> Option<UpdateKind>
    ensures { result ≡ begin_words (words_of words.entry) }
{
    let now = place(one_word(words)?)?;
    Some(UpdateKind::Begin { now })
}

/// The arguments of `session` and of `attach`.
fn id_and_connection(words: Words<'_>) -> Option<(i64, u32)>
    ensures { result ≡ id_and_connection_of (words_of words.entry) }
{
    let (id, connection) = two_words(words)?;
    let id = session_id(id)?;
    let connection = number(connection)?;
    Some((id, connection))
}

/// `session ID C`
#[tactic(auto, unfolding(crate::specs::Lines::session_words))]
fn session(words: Words<'_>) -> Option<UpdateKind>
    ensures { result ≡ session_words (words_of words.entry) }
{
    let (id, connection) = id_and_connection(words)?;
    Some(UpdateKind::Session { id, connection })
}

/// `attach ID C`
#[tactic(auto, unfolding(crate::specs::Lines::attach_words))]
fn attach(words: Words<'_>) -> Option<UpdateKind>
    ensures { result ≡ attach_words (words_of words.entry) }
{
    let (id, connection) = id_and_connection(words)?;
    Some(UpdateKind::Attach { id, connection })
}

/// `asked C I NOW`
#[tactic(auto, unfolding(crate::specs::Lines::asked_words))]
fn asked(words: Words<'_>) -> Option<UpdateKind>
    ensures { result ≡ asked_words (words_of words.entry) }
{
    let (connection, index, now) = three_words(words)?;
    let connection = number(connection)?;
    let index = place(index)?;
    let now = place(now)?;
    Some(UpdateKind::Asked {
        connection,
        index,
        now,
    })
}

/// `closed ID C I`
#[tactic(auto, unfolding(crate::specs::Lines::closed_words))]
fn closed(words: Words<'_>) -> Option<UpdateKind>
    ensures { result ≡ closed_words (words_of words.entry) }
{
    let (id, connection, index) = three_words(words)?;
    let id = session_id(id)?;
    let connection = number(connection)?;
    let index = place(index)?;
    Some(UpdateKind::Closed {
        id,
        connection,
        index,
    })
}

/// `reaped ID`
#[tactic(auto, unfolding(crate::specs::Lines::reaped_words))]
fn reaped(words: Words<'_>) -> Option<UpdateKind>
    ensures { result ≡ reaped_words (words_of words.entry) }
{
    let id = session_id(one_word(words)?)?;
    Some(UpdateKind::Reaped { id })
}
