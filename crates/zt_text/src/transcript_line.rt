//! Lines of a transcript.

ghost use Rattle.std.specs.Fmt.{signed_decimal};
ghost use Rattle.std.specs.Prelude.{◌≡◌, ◌++◌, ◌∷◌, [], OnOk, OnErr, decimal, map};
ghost use Rattle.zt_text.specs.Transcripts.{cause_words, end_words, id_text, kind_words, line_text, open_word};
ghost use Rattle.zt_text.specs.Written.{close_text, frame_text, open_text, update_text, word_text};

use crate::word::{Word, push_words};
use zk_model::Layout;
use zk_service::{Cause, Ended, UpdateKind};
use zk_transcript::TranscriptLine;
use zx_base::Memory;

/// Adds a line, with its line feed. Without memory, what was there stays.
#[tactic(auto, unfolding(crate::specs::Transcripts::line_text))]
pub fn push_line(out: &mut Vec<u8>, line: &TranscriptLine) -> Result<(), Memory>
    ensures ok { OnOk result (out.new.items ≡ out.old.items ++ line_text line.now) }
    ensures err { OnErr result (out.new.items ≡ out.old.items) }
{
    match line {
        TranscriptLine::Update(update) => push_update(out, update.zxid, update.kind),
        TranscriptLine::Open {
            connection,
            proxy,
            id,
            passwd,
            layout,
        } => {
            let name = open_name(*layout);
            push_open(out, name, *connection, *proxy, *id, passwd)
        }
        TranscriptLine::Frame {
            connection,
            index,
            zxid,
            bytes,
        } => push_frame(out, *connection, *index, *zxid, bytes.as_slice()),
        TranscriptLine::Send { connection, bytes } => push_words(
            out,
            b"send",
            &[Word::Number(u64::from(*connection))],
            &[Word::Hex(bytes.as_slice())],
        ),
        TranscriptLine::Lapse { revision, id } => push_words(
            out,
            b"lapse",
            &[Word::Signed(*revision)],
            &[Word::Session(*id)],
        ),
        TranscriptLine::Close { connection, end } => push_close(out, *connection, end),
    }
}

/// The first word of the line of a connection that opened, by the layout that it offers.
fn open_name(layout: Layout) -> &'static [u8]
    ensures { result.now ≡ open_word layout }
{
    match layout {
        Layout::One => b"open1",
        Layout::Two => b"open",
    }
}

/// Adds the line of a connection that opened.
fn push_open(
    out: &mut Vec<u8>,
    name: &[u8],
    connection: u32,
    proxy: u32,
    id: i64,
    passwd: &[u8],
) -> Result<(), Memory>
    ensures ok { OnOk result (out.new.items ≡ out.old.items ++ open_text name.now connection proxy id passwd.now) }
    ensures err { OnErr result (out.new.items ≡ out.old.items) }
{
    push_words(
        out,
        name,
        &[
            Word::Number(u64::from(connection)),
            Word::Number(u64::from(proxy)),
        ],
        &[Word::Session(id), Word::Hex(passwd)],
    )
}

/// Adds the line of a frame that came.
fn push_frame(
    out: &mut Vec<u8>,
    connection: u32,
    index: u64,
    zxid: i64,
    bytes: &[u8],
) -> Result<(), Memory>
    ensures ok { OnOk result (out.new.items ≡ out.old.items ++ frame_text connection index zxid bytes.now) }
    ensures err { OnErr result (out.new.items ≡ out.old.items) }
{
    push_words(
        out,
        b"frame",
        &[
            Word::Number(u64::from(connection)),
            Word::Number(index),
            Word::Signed(zxid),
        ],
        &[Word::Hex(bytes)],
    )
}

fn push_update(out: &mut Vec<u8>, zxid: i64, kind: UpdateKind) -> Result<(), Memory>
    ensures ok { OnOk result (out.new.items ≡ out.old.items ++ update_text zxid (kind_words kind)) }
    ensures err { OnErr result (out.new.items ≡ out.old.items) }
{
    match kind {
        UpdateKind::Begin { now } => push_kind(out, zxid, b"begin", &[Word::Number(now)]),
        UpdateKind::Session { id, connection } => {
            push_session_kind(out, zxid, b"session", id, connection)
        }
        UpdateKind::Attach { id, connection } => {
            push_session_kind(out, zxid, b"attach", id, connection)
        }
        UpdateKind::Asked {
            connection,
            index,
            now,
        } => push_kind(
            out,
            zxid,
            b"asked",
            &[
                Word::Number(u64::from(connection)),
                Word::Number(index),
                Word::Number(now),
            ],
        ),
        UpdateKind::Closed {
            id,
            connection,
            index,
        } => push_kind(
            out,
            zxid,
            b"closed",
            &[
                Word::Session(id),
                Word::Number(u64::from(connection)),
                Word::Number(index),
            ],
        ),
        UpdateKind::Reaped { id } => push_kind(out, zxid, b"reaped", &[Word::Session(id)]),
    }
}

/// Adds the line of an update, by the words of its kind.
fn push_kind(out: &mut Vec<u8>, zxid: i64, kind: &[u8], words: &[Word<'_>]) -> Result<(), Memory>
    ensures ok { OnOk result (out.new.items ≡ out.old.items ++ update_text zxid (kind.now ∷ map word_text words.now)) }
    ensures err { OnErr result (out.new.items ≡ out.old.items) }
{
    push_words(
        out,
        b"update",
        &[Word::Signed(zxid), Word::Name(kind)],
        words,
    )
}

/// Adds the line of an update that gave a session to a connection.
fn push_session_kind(
    out: &mut Vec<u8>,
    zxid: i64,
    kind: &[u8],
    id: i64,
    connection: u32,
) -> Result<(), Memory>
    ensures ok { OnOk result (out.new.items ≡ out.old.items ++ update_text zxid (kind.now ∷ id_text id ∷ decimal connection ∷ [])) }
    ensures err { OnErr result (out.new.items ≡ out.old.items) }
{
    push_kind(
        out,
        zxid,
        kind,
        &[Word::Session(id), Word::Number(u64::from(connection))],
    )
}

fn push_close(out: &mut Vec<u8>, connection: u32, end: &Ended) -> Result<(), Memory>
    ensures ok { OnOk result (out.new.items ≡ out.old.items ++ close_text connection (end_words end.now)) }
    ensures err { OnErr result (out.new.items ≡ out.old.items) }
{
    match end {
        Ended::Cause(cause) => push_cause(out, connection, cause),
        Ended::Reaped { zxid } => push_end(out, connection, b"reaped", &[Word::Signed(*zxid)]),
        Ended::Kept { rev } => push_end(out, connection, b"kept", &[Word::Signed(*rev)]),
        Ended::Gone { rev } => push_end(out, connection, b"gone", &[Word::Signed(*rev)]),
    }
}

fn push_cause(out: &mut Vec<u8>, connection: u32, cause: &Cause) -> Result<(), Memory>
    ensures ok { OnOk result (out.new.items ≡ out.old.items ++ close_text connection (cause_words cause.now)) }
    ensures err { OnErr result (out.new.items ≡ out.old.items) }
{
    match cause {
        Cause::Closed => push_end(out, connection, b"closed", &[]),
        Cause::ClientEnd { place } => push_end(out, connection, b"client", &[Word::Number(*place)]),
        Cause::ReadFault => push_end(out, connection, b"read", &[]),
        Cause::WriteFault => push_end(out, connection, b"write", &[]),
        Cause::BadLength { place, length } => push_end(
            out,
            connection,
            b"length",
            &[Word::Number(*place), Word::Signed(i64::from(*length))],
        ),
        Cause::NoHeader { place } => push_end(
            out,
            connection,
            b"noheader",
            &[Word::Number(*place)],
        ),
        Cause::AuthRefused => push_end(out, connection, b"auth", &[]),
        Cause::Unknown => push_end(out, connection, b"unknown", &[]),
        Cause::ZxidAhead { client, head } => push_two(out, connection, b"ahead", *client, *head),
        Cause::Taken { rev } => push_end(out, connection, b"taken", &[Word::Signed(*rev)]),
        Cause::Expired { rev } => push_end(out, connection, b"expired", &[Word::Signed(*rev)]),
        Cause::Moved { mine, found } => push_two(out, connection, b"moved", *mine, *found),
        Cause::LinkFault => push_end(out, connection, b"link", &[]),
        Cause::Lagged { cursor, floor } => push_two(out, connection, b"lagged", *cursor, *floor),
        Cause::FeedClosed => push_end(out, connection, b"feed", &[]),
        Cause::Damaged { key, value } => push_end(
            out,
            connection,
            b"damaged",
            &[Word::Hex(key.as_slice()), Word::Hex(value.as_slice())],
        ),
        Cause::Restart => push_end(out, connection, b"restart", &[]),
        Cause::Memory => push_end(out, connection, b"memory", &[]),
    }
}

/// Adds the line of an end that two signed numbers tell.
fn push_two(
    out: &mut Vec<u8>,
    connection: u32,
    end: &[u8],
    first: i64,
    second: i64,
) -> Result<(), Memory>
    ensures ok { OnOk result (out.new.items ≡ out.old.items ++ close_text connection (end.now ∷ signed_decimal first ∷ signed_decimal second ∷ [])) }
    ensures err { OnErr result (out.new.items ≡ out.old.items) }
{
    push_end(
        out,
        connection,
        end,
        &[Word::Signed(first), Word::Signed(second)],
    )
}

/// Adds the line of an end, by its words.
fn push_end(
    out: &mut Vec<u8>,
    connection: u32,
    end: &[u8],
    words: &[Word<'_>],
) -> Result<(), Memory>
    ensures ok { OnOk result (out.new.items ≡ out.old.items ++ close_text connection (end.now ∷ map word_text words.now)) }
    ensures err { OnErr result (out.new.items ≡ out.old.items) }
{
    let connection = Word::Number(u64::from(connection));
    push_words(out, b"close", &[connection, Word::Name(end)], words)
}
