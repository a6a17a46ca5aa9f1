//! The line of a frame.

ghost use Rattle.std.specs.Prelude.{◌≡◌, ◌++◌, decimal, OnOk, IfOk};
ghost use Rattle.zk_jute.specs.Connects.{read_connect as connect_read};
ghost use Rattle.zk_jute.specs.JuteWriting.{long_bytes};
ghost use Rattle.zk_jute.specs.Requests.{read_request as request_read};
ghost use Rattle.zt_show.specs.FrameLines.{part_words, body_words, named_kind, request_words, unreadable_words, unknown_words, frame_words, connect_request_words, connect_words, read_only_words, words_of_connect, line, line_of_words, line_of_frame, IsAdded};
ghost use Rattle.zt_show.specs.FieldWords.{hex_word, vector_words};

use crate::draft::Draft;
use crate::name::{part_name, request_name};
use std::alloc::Global;
use zk_model::{ConnectRequest, Part, Request};
use zk_wire::{FieldSink, WireFault, put_body, put_part_fields, read_connect, read_request};
use zx_base::Memory;

/// Adds the line of the frame whose length stands at this place, and says whether it has one: a frame without a header has
/// none. The first frame is a connect, each later one a request.
pub(crate) fn push_frame(
    alloc: Global,
    text: &mut Draft,
    is_begun: bool,
    place: u64,
    frame: &[u8],
) -> Result<bool, Memory>
    ensures { IfOk result (λ is_shown. IsAdded is_shown (line_of_frame is_begun place frame.now) text.old text.new) }
{
    if is_begun {
        push_later(alloc, text, place, frame)
    } else {
        push_first(alloc, text, place, frame)
    }
}

fn push_first(alloc: Global, text: &mut Draft, place: u64, frame: &[u8]) -> Result<bool, Memory>
    ensures { IfOk result (λ is_shown. IsAdded is_shown (line_of_words place (words_of_connect (connect_read frame.now))) text.old text.new) }
{
    match read_connect(alloc, frame) {
        Ok(request) => {
            push_connect_line(text, place, &request)?;
            Ok(true)
        }
        Err(WireFault::Memory) => Err(Memory),
        Err(_) => Ok(false),
    }
}

fn push_connect_line(text: &mut Draft, place: u64, request: &ConnectRequest) -> Result<(), Memory>
    ensures { OnOk result (text.new ≡ text.old ++ line place (connect_words request.now)) }
{
    text.number(place)?;
    push_connect(text, request)?;
    text.end_line()
}

fn push_connect(text: &mut Draft, request: &ConnectRequest) -> Result<(), Memory>
    ensures { OnOk result (text.new ≡ text.old ++ connect_words request.now) }
{
    text.word(b"connect")?;
    text.int(request.protocol)?;
    text.long(request.last_zxid)?;
    text.int(request.timeout)?;
    push_session_words(text, request)
}

fn push_session_words(text: &mut Draft, request: &ConnectRequest) -> Result<(), Memory>
    ensures { OnOk result (text.new ≡ text.old ++ connect_request_words request.now) }
{
    push_session(text, request.session)?;
    text.buffer(request.passwd.as_slice())?;
    push_read_only(text, request.read_only)
}

/// Adds a session's number as 16 hex digits.
#[tactic(auto, unfolding(zk_jute::specs::JuteWriting::long_bytes))]
fn push_session(text: &mut Draft, session: i64) -> Result<(), Memory>
    ensures { OnOk result (text.new ≡ text.old ++ hex_word (long_bytes session)) }
{
    text.buffer(&session.to_be_bytes())
}

fn push_read_only(text: &mut Draft, read_only: Option<bool>) -> Result<(), Memory>
    ensures { OnOk result (text.new ≡ text.old ++ read_only_words read_only) }
{
    match read_only {
        Some(flag) => text.boolean(flag),
        None => text.word(b"-"),
    }
}

fn push_later(alloc: Global, text: &mut Draft, place: u64, frame: &[u8]) -> Result<bool, Memory>
    ensures { IfOk result (λ is_shown. IsAdded is_shown (line_of_words place (frame_words (request_read frame.now))) text.old text.new) }
{
    match read_request(alloc, frame) {
        Ok((xid, request)) => push_request_line(text, place, xid, &request)?,
        Err(WireFault::NoHeader) => return Ok(false),
        Err(WireFault::Unreadable { xid, place: at }) => push_unreadable(text, place, xid, at)?,
        Err(WireFault::Unknown { xid, kind }) => push_unknown(text, place, xid, kind)?,
        Err(WireFault::Memory) => return Err(Memory),
    }
    Ok(true)
}

fn push_request_line(
    text: &mut Draft,
    place: u64,
    xid: i32,
    request: &Request,
) -> Result<(), Memory>
    ensures { OnOk result (text.new ≡ text.old ++ line place (request_words xid request.now)) }
{
    push_named(text, place, xid, request_name(request))?;
    push_body(text, request)?;
    text.end_line()
}

/// Adds the words that begin the line of each request.
fn push_named(text: &mut Draft, place: u64, xid: i32, name: &[u8]) -> Result<(), Memory>
    ensures { OnOk result (text.new ≡ text.old ++ (decimal place ++ named_kind xid name.now)) }
{
    text.number(place)?;
    text.int(xid)?;
    text.word(name)
}

/// Adds the fields of a request; of a multi the count of its parts, and the parts.
fn push_body(text: &mut Draft, request: &Request) -> Result<(), Memory>
    ensures { OnOk result (text.new ≡ text.old ++ body_words request.now) }
{
    match request {
        Request::Multi { parts } => push_parts(text, parts.as_slice()),
        _ => put_body(text, request),
    }
}

fn push_parts(text: &mut Draft, parts: &[Part]) -> Result<(), Memory>
    ensures { OnOk result (text.new ≡ text.old ++ vector_words part_words parts.now) }
{
    text.count(parts.len() as u64)?;
    for part in parts {
        push_part(text, part)?;
    }
    Ok(())
}

fn push_part(text: &mut Draft, part: &Part) -> Result<(), Memory>
    ensures { OnOk result (text.new ≡ text.old ++ part_words part.now) }
{
    text.word(part_name(part))?;
    put_part_fields(text, part)
}

/// Adds the line of a request whose body cannot be read.
fn push_unreadable(text: &mut Draft, place: u64, xid: i32, at: u64) -> Result<(), Memory>
    ensures { OnOk result (text.new ≡ text.old ++ line place (unreadable_words xid at)) }
{
    push_named(text, place, xid, b"unreadable")?;
    text.count(at)?;
    text.end_line()
}

/// Adds the line of a request whose type is not listed.
fn push_unknown(text: &mut Draft, place: u64, xid: i32, kind: i32) -> Result<(), Memory>
    ensures { OnOk result (text.new ≡ text.old ++ line place (unknown_words xid kind)) }
{
    push_named(text, place, xid, b"unknown")?;
    text.int(kind)?;
    text.end_line()
}
