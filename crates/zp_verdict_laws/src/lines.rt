//! What the types say of a transcript's lines.

ghost use Rattle.zt_text.specs.Transcripts.{AreBytes};
ghost use Rattle.zt_lines.specs.Readable.{FitsFrameLength, FitsNumber, FitsPassword, FitsPlace};
ghost use Rattle.zp_verdict_laws.specs.Written.{AreTyped, IsInLong, IsTyped, IsTypedCause, IsTypedEnd, IsTypedKind};

use zk_service::{Cause, Ended, UpdateKind};
use zk_transcript::TranscriptLine;

/// Proof only: in each line no number passes its type's end, and bytes are bytes. It takes time linear in the lines.
pub fn lines_are_typed(lines: &[TranscriptLine])
    ensures { AreTyped lines.now }
{
    for line in lines {
        line_is_typed(line);
    }
}

/// Proof only: what the types of a line's fields say.
fn line_is_typed(line: &TranscriptLine)
    ensures { IsTyped line.now }
{
    match line {
        TranscriptLine::Update(update) => {
            is_long(update.zxid);
            kind_is_typed(update.kind);
        }
        TranscriptLine::Open {
            connection,
            proxy,
            id,
            passwd,
            ..
        } => {
            is_number(*connection);
            is_number(*proxy);
            is_long(*id);
            is_password(passwd);
        }
        TranscriptLine::Frame {
            connection,
            index,
            zxid,
            bytes,
        } => {
            is_number(*connection);
            is_place(*index);
            is_long(*zxid);
            are_bytes(bytes.as_slice());
        }
        TranscriptLine::Send { connection, bytes } => {
            is_number(*connection);
            are_bytes(bytes.as_slice());
        }
        TranscriptLine::Lapse { revision, id } => {
            is_long(*revision);
            is_long(*id);
        }
        TranscriptLine::Close { connection, end } => {
            is_number(*connection);
            end_is_typed(end);
        }
    }
}

/// Proof only: what the types of an update's fields say.
fn kind_is_typed(kind: UpdateKind)
    ensures { IsTypedKind kind }
{
    match kind {
        UpdateKind::Begin { now } => is_place(now),
        UpdateKind::Session { id, connection } => {
            is_long(id);
            is_number(connection);
        }
        UpdateKind::Attach { id, connection } => {
            is_long(id);
            is_number(connection);
        }
        UpdateKind::Asked {
            connection,
            index,
            now,
        } => {
            is_number(connection);
            is_place(index);
            is_place(now);
        }
        UpdateKind::Closed {
            id,
            connection,
            index,
        } => {
            is_long(id);
            is_number(connection);
            is_place(index);
        }
        UpdateKind::Reaped { id } => is_long(id),
    }
}

/// Proof only: what the types of an end's fields say.
fn end_is_typed(end: &Ended)
    ensures { IsTypedEnd end.now }
{
    match end {
        Ended::Cause(cause) => cause_is_typed(cause),
        Ended::Reaped { zxid } => is_long(*zxid),
        Ended::Kept { rev } => is_long(*rev),
        Ended::Gone { rev } => is_long(*rev),
    }
}

/// Proof only: what the types of a cause's fields say.
fn cause_is_typed(cause: &Cause)
    ensures { IsTypedCause cause.now }
{
    match cause {
        Cause::ClientEnd { place } => is_place(*place),
        Cause::BadLength { place, length } => {
            is_place(*place);
            is_length(*length);
        }
        Cause::NoHeader { place } => is_place(*place),
        Cause::ZxidAhead { client, head } => {
            is_long(*client);
            is_long(*head);
        }
        Cause::Taken { rev } => is_long(*rev),
        Cause::Expired { rev } => is_long(*rev),
        Cause::Moved { mine, found } => {
            is_long(*mine);
            is_long(*found);
        }
        Cause::Lagged { cursor, floor } => {
            is_long(*cursor);
            is_long(*floor);
        }
        Cause::Damaged { key, value } => {
            are_bytes(key.as_slice());
            are_bytes(value.as_slice());
        }
        Cause::Closed => {}
        Cause::ReadFault => {}
        Cause::WriteFault => {}
        Cause::AuthRefused => {}
        Cause::Unknown => {}
        Cause::LinkFault => {}
        Cause::FeedClosed => {}
        Cause::Restart => {}
        Cause::Memory => {}
    }
}

/// Proof only: a number of a connection or a proxy has 32 bits.
fn is_number(number: u32)
    ensures { FitsNumber number }
{}

/// Proof only: a place, an index or a time has 64 bits.
fn is_place(place: u64)
    ensures { FitsPlace place }
{}

/// Proof only: a zxid, a revision or a session's number has 64 bits, one of them for the sign.
#[tactic(auto, using(std::proofs::lemmas::Int::ints))]
fn is_long(number: i64)
    ensures { IsInLong number }
{}

/// Proof only: a length has 32 bits, one of them for the sign.
#[tactic(auto, using(std::proofs::lemmas::Int::ints))]
fn is_length(length: i32)
    ensures { FitsFrameLength length }
{}

/// Proof only: every byte is below 256.
fn are_bytes(bytes: &[u8])
    ensures { AreBytes bytes.now }
{}

/// Proof only: a password has 16 bytes.
fn is_password(bytes: &[u8; 16])
    ensures { FitsPassword bytes.now }
{
    are_bytes(bytes);
    let _seen = *bytes;
}
