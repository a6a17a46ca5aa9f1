//! Rows of lines of transcripts.

use row_files::{Words, bytes_of};
use std::alloc::Global;
use zk_model::Layout;
use zk_service::{Cause, Ended, UpdateKind, UpdateRec};
use zk_transcript::TranscriptLine;
use zt_text::{Unread, Why, push_done, push_fault, push_line, push_unread};
use zx_base::{Bytes, Memory};

/// The line of a transcript that has these fields; they stand in the order of the types.
pub fn written(alloc: Global, row: &str) -> Result<Option<String>, Memory> {
    let mut out = Vec::new(alloc);
    if !push_row(alloc, &mut out, row)? {
        return Ok(None);
    }
    line_in(alloc, out.as_slice())
}

/// The one line of a text.
fn line_in(alloc: Global, text: &[u8]) -> Result<Option<String>, Memory> {
    let Ok(text) = str::from_utf8(text) else {
        return Ok(None);
    };
    match text.strip_suffix("\n") {
        Some(line) => Ok(Some(String::from_str(alloc, line)?)),
        None => Ok(None),
    }
}

/// Adds the line; false where the words say none.
fn push_row(alloc: Global, out: &mut Vec<u8>, row: &str) -> Result<bool, Memory> {
    let mut words = Words::new(row);
    let Some(form) = words.word() else {
        return Ok(false);
    };
    match form {
        "Done" => {
            push_done(out)?;
            Ok(true)
        }
        "Fault" => push_why(out, &mut words),
        "Unread" => push_cause(out, &mut words),
        form => push_form(alloc, out, form, &mut words),
    }
}

fn push_why(out: &mut Vec<u8>, words: &mut Words<'_>) -> Result<bool, Memory> {
    let (Some(line), Some(why)) = (words.place(), words.word()) else {
        return Ok(false);
    };
    match why_of(why) {
        Some(why) => {
            push_fault(out, line, why)?;
            Ok(true)
        }
        None => Ok(false),
    }
}

fn why_of(word: &str) -> Option<Why> {
    Some(match word {
        "NumberInUse" => Why::NumberInUse,
        "NoSuchConnection" => Why::NoSuchConnection,
        "ConnectionClosed" => Why::ConnectionClosed,
        "NotAConnection" => Why::NotAConnection,
        "FrameOpen" => Why::FrameOpen,
        "TooLong" => Why::TooLong,
        "NoRequestOut" => Why::NoRequestOut,
        "AlreadyCarriedOut" => Why::AlreadyCarriedOut,
        "NotCarriedOut" => Why::NotCarriedOut,
        "NoSuchStray" => Why::NoSuchStray,
        "RequestOut" => Why::RequestOut,
        "NoEntry" => Why::NoEntry,
        "NoLag" => Why::NoLag,
        "NoSuchLease" => Why::NoSuchLease,
        "StoreFull" => Why::StoreFull,
        "KeyKept" => Why::KeyKept,
        "ClockLimit" => Why::ClockLimit,
        _ => return None,
    })
}

fn push_cause(out: &mut Vec<u8>, words: &mut Words<'_>) -> Result<bool, Memory> {
    let (Some(line), Some(unread)) = (words.place(), words.word()) else {
        return Ok(false);
    };
    let unread = match unread {
        "Unreadable" => Unread::Unreadable,
        "TooLong" => Unread::TooLong,
        _ => return Ok(false),
    };
    push_unread(out, line, unread)?;
    Ok(true)
}

fn push_form(
    alloc: Global,
    out: &mut Vec<u8>,
    form: &str,
    words: &mut Words<'_>,
) -> Result<bool, Memory> {
    match line_of(alloc, form, words)? {
        Some(line) => {
            push_line(out, &line)?;
            Ok(true)
        }
        None => Ok(false),
    }
}

fn line_of(
    alloc: Global,
    form: &str,
    words: &mut Words<'_>,
) -> Result<Option<TranscriptLine>, Memory> {
    match form {
        "Update" => Ok(update(words)),
        "Open" => Ok(open(words, Layout::Two)),
        "Open1" => Ok(open(words, Layout::One)),
        "Lapse" => Ok(lapse(words)),
        "Frame" => frame(alloc, words),
        "Send" => send(alloc, words),
        "Close" => close(alloc, words),
        _ => Ok(None),
    }
}

fn update(words: &mut Words<'_>) -> Option<TranscriptLine> {
    let zxid = words.long()?;
    let kind = kind(words)?;
    Some(TranscriptLine::Update(UpdateRec { zxid, kind }))
}

fn kind(words: &mut Words<'_>) -> Option<UpdateKind> {
    match words.word()? {
        "Begin" => Some(UpdateKind::Begin {
            now: words.place()?,
        }),
        "Session" => {
            let id = words.long()?;
            let connection = words.number()?;
            Some(UpdateKind::Session { id, connection })
        }
        "Attach" => {
            let id = words.long()?;
            let connection = words.number()?;
            Some(UpdateKind::Attach { id, connection })
        }
        "Asked" => {
            let connection = words.number()?;
            let index = words.place()?;
            let now = words.place()?;
            Some(UpdateKind::Asked {
                connection,
                index,
                now,
            })
        }
        "Closed" => {
            let id = words.long()?;
            let connection = words.number()?;
            let index = words.place()?;
            Some(UpdateKind::Closed {
                id,
                connection,
                index,
            })
        }
        "Reaped" => Some(UpdateKind::Reaped { id: words.long()? }),
        _ => None,
    }
}

fn open(words: &mut Words<'_>, layout: Layout) -> Option<TranscriptLine> {
    let connection = words.number()?;
    let proxy = words.number()?;
    let id = words.long()?;
    let mut passwd = [0u8; 16];
    hex::decode_to_slice(words.word()?, &mut passwd).ok()?;
    Some(TranscriptLine::Open {
        connection,
        proxy,
        id,
        passwd,
        layout,
    })
}

fn lapse(words: &mut Words<'_>) -> Option<TranscriptLine> {
    let revision = words.long()?;
    let id = words.long()?;
    Some(TranscriptLine::Lapse { revision, id })
}

/// The bytes of the next word.
fn hex(alloc: Global, words: &mut Words<'_>) -> Result<Option<Bytes>, Memory> {
    let Some(digits) = words.word() else {
        return Ok(None);
    };
    let Some(bytes) = bytes_of(alloc, digits)? else {
        return Ok(None);
    };
    Ok(Some(Bytes::from_vec(bytes)))
}

fn frame(alloc: Global, words: &mut Words<'_>) -> Result<Option<TranscriptLine>, Memory> {
    let (Some(connection), Some(index), Some(zxid)) = (words.number(), words.place(), words.long())
    else {
        return Ok(None);
    };
    let Some(bytes) = hex(alloc, words)? else {
        return Ok(None);
    };
    Ok(Some(TranscriptLine::Frame {
        connection,
        index,
        zxid,
        bytes,
    }))
}

fn send(alloc: Global, words: &mut Words<'_>) -> Result<Option<TranscriptLine>, Memory> {
    let Some(connection) = words.number() else {
        return Ok(None);
    };
    let Some(bytes) = hex(alloc, words)? else {
        return Ok(None);
    };
    Ok(Some(TranscriptLine::Send { connection, bytes }))
}

fn close(alloc: Global, words: &mut Words<'_>) -> Result<Option<TranscriptLine>, Memory> {
    let (Some(connection), Some(end)) = (words.number(), words.word()) else {
        return Ok(None);
    };
    let end = match end {
        "Damaged" => damaged(alloc, words)?,
        end => ended(end, words),
    };
    match end {
        Some(end) => Ok(Some(TranscriptLine::Close { connection, end })),
        None => Ok(None),
    }
}

fn damaged(alloc: Global, words: &mut Words<'_>) -> Result<Option<Ended>, Memory> {
    let Some(key) = hex(alloc, words)? else {
        return Ok(None);
    };
    let Some(value) = hex(alloc, words)? else {
        return Ok(None);
    };
    Ok(Some(Ended::Cause(Cause::Damaged { key, value })))
}

fn ended(end: &str, words: &mut Words<'_>) -> Option<Ended> {
    match end {
        "Reaped" => Some(Ended::Reaped {
            zxid: words.long()?,
        }),
        "Kept" => Some(Ended::Kept { rev: words.long()? }),
        "Gone" => Some(Ended::Gone { rev: words.long()? }),
        end => Some(Ended::Cause(cause(end, words)?)),
    }
}

fn cause(cause: &str, words: &mut Words<'_>) -> Option<Cause> {
    Some(match cause {
        "Closed" => Cause::Closed,
        "ClientEnd" => Cause::ClientEnd {
            place: words.place()?,
        },
        "ReadFault" => Cause::ReadFault,
        "WriteFault" => Cause::WriteFault,
        "BadLength" => {
            let place = words.place()?;
            let length = words.int()?;
            Cause::BadLength { place, length }
        }
        "NoHeader" => Cause::NoHeader {
            place: words.place()?,
        },
        "AuthRefused" => Cause::AuthRefused,
        "Unknown" => Cause::Unknown,
        "ZxidAhead" => {
            let client = words.long()?;
            let head = words.long()?;
            Cause::ZxidAhead { client, head }
        }
        "Taken" => Cause::Taken { rev: words.long()? },
        "Expired" => Cause::Expired { rev: words.long()? },
        "Moved" => {
            let mine = words.long()?;
            let found = words.long()?;
            Cause::Moved { mine, found }
        }
        "LinkFault" => Cause::LinkFault,
        "Lagged" => {
            let cursor = words.long()?;
            let floor = words.long()?;
            Cause::Lagged { cursor, floor }
        }
        "FeedClosed" => Cause::FeedClosed,
        "Restart" => Cause::Restart,
        "Memory" => Cause::Memory,
        _ => return None,
    })
}
