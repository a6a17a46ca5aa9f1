//! Rows of requests.

use crate::packets::{frame_of, is_written, note_of, push_texts};
use row_files::{Piece, bytes_of, hex_of, joined, push, push_word, word_of};
use std::alloc::Global;
use zk_model::{Acl, Part, Request};
use zk_wire::{WireFault, read_request, request_can_be_sent, write_request};
use zx_base::{Bytes, Memory, Seq, Text};

/// The fields of a request's packet, or its fault. Fields have their names of zookeeper.jute; bytes are hex, `-` for none.
pub fn read(alloc: Global, packet: &str) -> Result<Option<String>, Memory> {
    match bytes_of(alloc, packet)? {
        Some(packet) => read_packet(alloc, packet.as_slice()),
        None => Ok(None),
    }
}

fn read_packet(alloc: Global, packet: &[u8]) -> Result<Option<String>, Memory> {
    match frame_of(alloc, packet)? {
        Some(frame) => Ok(Some(read_frame(alloc, frame.as_slice(), packet)?)),
        None => Ok(None),
    }
}

/// The fields of the frame that a packet holds.
fn read_frame(alloc: Global, frame: &[u8], packet: &[u8]) -> Result<String, Memory> {
    match read_request(alloc, frame) {
        Ok(numbered) => {
            let same = is_same(alloc, &numbered, packet)?;
            numbered_text(alloc, &numbered, same)
        }
        Err(fault) => fault_of(alloc, fault),
    }
}

/// Whether a request is written as this packet.
fn is_same(alloc: Global, numbered: &(i32, Request), packet: &[u8]) -> Result<bool, Memory> {
    Ok(is_written(&again(alloc, numbered)?, packet))
}

fn numbered_text(alloc: Global, numbered: &(i32, Request), same: bool) -> Result<String, Memory> {
    let said = said_of(alloc, &numbered.1)?;
    let pieces = [
        Piece::Text("xid "),
        Piece::Number(i64::from(numbered.0)),
        Piece::Text(" "),
        Piece::Text(said.as_str()),
        Piece::Text(note_of(same)),
    ];
    joined(alloc, &pieces)
}

/// The packet of a request as it is written again.
pub fn written_again(alloc: Global, packet: &str) -> Result<Option<String>, Memory> {
    match bytes_of(alloc, packet)? {
        Some(packet) => packet_again(alloc, packet.as_slice()),
        None => Ok(None),
    }
}

fn packet_again(alloc: Global, packet: &[u8]) -> Result<Option<String>, Memory> {
    match frame_of(alloc, packet)? {
        Some(frame) => Ok(Some(frame_again(alloc, frame.as_slice())?)),
        None => Ok(None),
    }
}

fn frame_again(alloc: Global, frame: &[u8]) -> Result<String, Memory> {
    match read_request(alloc, frame) {
        Ok(numbered) => again_text(alloc, &numbered),
        Err(fault) => fault_of(alloc, fault),
    }
}

fn again_text(alloc: Global, numbered: &(i32, Request)) -> Result<String, Memory> {
    hex_of(alloc, again(alloc, numbered)?.as_slice())
}

/// The packet of a request, empty where it cannot be sent.
fn again(alloc: Global, numbered: &(i32, Request)) -> Result<Vec<u8>, Memory> {
    if request_can_be_sent(&numbered.1) {
        write_request(alloc, numbered.0, &numbered.1)
    } else {
        Ok(Vec::new(alloc))
    }
}

/// A fault in words, as the rows spell it.
pub fn fault_of(alloc: Global, fault: WireFault) -> Result<String, Memory> {
    match fault {
        WireFault::NoHeader => Ok(String::from_str(alloc, "no header")?),
        WireFault::Unreadable { xid, place } => {
            numbered_fault(alloc, xid, " unreadable at ", Piece::Count(place))
        }
        WireFault::Unknown { xid, kind } => {
            numbered_fault(alloc, xid, " unknown ", Piece::Number(i64::from(kind)))
        }
        WireFault::Memory => Err(Memory),
    }
}

fn numbered_fault<'a>(
    alloc: Global,
    xid: i32,
    words: &'a str,
    number: Piece<'a>,
) -> Result<String, Memory> {
    let pieces = [
        Piece::Text("xid "),
        Piece::Number(i64::from(xid)),
        Piece::Text(words),
        number,
    ];
    joined(alloc, &pieces)
}

fn said_of(alloc: Global, request: &Request) -> Result<String, Memory> {
    match request {
        Request::Create {
            path,
            content,
            acl,
            flags,
        } => made(alloc, "create path ", path, content, acl, *flags),
        Request::Create2 {
            path,
            content,
            acl,
            flags,
        } => made(alloc, "create2 path ", path, content, acl, *flags),
        Request::CheckWatches { path, kind } => typed(alloc, "checkWatches path ", path, *kind),
        Request::RemoveWatches { path, kind } => typed(alloc, "removeWatches path ", path, *kind),
        Request::Delete { path, version } => versioned(alloc, "delete path ", path, *version),
        Request::Exists { path, watch } => watched(alloc, "exists path ", path, *watch),
        Request::GetData { path, watch } => watched(alloc, "getData path ", path, *watch),
        Request::SetData {
            path,
            content,
            version,
        } => filled(alloc, path, content.as_slice(), *version),
        Request::GetAcl { path } => named(alloc, "getACL path ", path),
        Request::GetChildren { path, watch } => watched(alloc, "getChildren path ", path, *watch),
        Request::GetChildren2 { path, watch } => watched(alloc, "getChildren2 path ", path, *watch),
        Request::Sync { path } => named(alloc, "sync path ", path),
        Request::Ping => Ok(String::from_str(alloc, "ping")?),
        Request::Check { path, version } => versioned(alloc, "check path ", path, *version),
        Request::Multi { parts } => parts_of(alloc, parts.as_slice()),
        Request::Auth { kind, scheme, auth } => authorized(alloc, *kind, scheme, auth),
        Request::SetWatches {
            relative,
            exists,
            datas,
            children,
        } => listed(alloc, *relative, datas, exists, children),
        Request::Close => Ok(String::from_str(alloc, "closeSession")?),
    }
}

fn listed(
    alloc: Global,
    relative: i64,
    datas: &Seq<Text>,
    exists: &Seq<Text>,
    children: &Seq<Text>,
) -> Result<String, Memory> {
    let mut all = format!(in alloc; "setWatches relativeZxid {relative}")?;
    push_texts(&mut all, "dataWatches", datas.as_slice())?;
    push_texts(&mut all, "existWatches", exists.as_slice())?;
    push_texts(&mut all, "childWatches", children.as_slice())?;
    Ok(all)
}

fn named<'a>(alloc: Global, name: &'a str, path: &'a Text) -> Result<String, Memory> {
    let pieces = [Piece::Text(name), Piece::Text(word_of(path.as_slice()))];
    joined(alloc, &pieces)
}

fn watched<'a>(
    alloc: Global,
    name: &'a str,
    path: &'a Text,
    watch: bool,
) -> Result<String, Memory> {
    let pieces = [
        Piece::Text(name),
        Piece::Text(word_of(path.as_slice())),
        Piece::Text(" watch "),
        Piece::Text(if watch { "true" } else { "false" }),
    ];
    joined(alloc, &pieces)
}

fn versioned<'a>(
    alloc: Global,
    name: &'a str,
    path: &'a Text,
    version: i32,
) -> Result<String, Memory> {
    let pieces = [
        Piece::Text(name),
        Piece::Text(word_of(path.as_slice())),
        Piece::Text(" version "),
        Piece::Number(i64::from(version)),
    ];
    joined(alloc, &pieces)
}

fn typed<'a>(alloc: Global, name: &'a str, path: &'a Text, kind: i32) -> Result<String, Memory> {
    let pieces = [
        Piece::Text(name),
        Piece::Text(word_of(path.as_slice())),
        Piece::Text(" type "),
        Piece::Number(i64::from(kind)),
    ];
    joined(alloc, &pieces)
}

fn made(
    alloc: Global,
    name: &str,
    path: &Text,
    content: &Bytes,
    entries: &Seq<Acl>,
    flags: i32,
) -> Result<String, Memory> {
    let digits = hex_of(alloc, content.as_slice())?;
    let acl = acls_of(alloc, entries.as_slice())?;
    made_text(
        alloc,
        name,
        word_of(path.as_slice()),
        digits.as_str(),
        acl.as_str(),
        flags,
    )
}

fn made_text<'a>(
    alloc: Global,
    name: &'a str,
    path: &'a str,
    digits: &'a str,
    acl: &'a str,
    flags: i32,
) -> Result<String, Memory> {
    let pieces = [
        Piece::Text(name),
        Piece::Text(path),
        Piece::Text(" data "),
        Piece::Text(digits),
        Piece::Text(" acl"),
        Piece::Text(acl),
        Piece::Text(" flags "),
        Piece::Number(i64::from(flags)),
    ];
    joined(alloc, &pieces)
}

fn filled(alloc: Global, path: &Text, content: &[u8], version: i32) -> Result<String, Memory> {
    let digits = hex_of(alloc, content)?;
    filled_text(alloc, word_of(path.as_slice()), digits.as_str(), version)
}

fn filled_text<'a>(
    alloc: Global,
    path: &'a str,
    digits: &'a str,
    version: i32,
) -> Result<String, Memory> {
    let pieces = [
        Piece::Text("setData path "),
        Piece::Text(path),
        Piece::Text(" data "),
        Piece::Text(digits),
        Piece::Text(" version "),
        Piece::Number(i64::from(version)),
    ];
    joined(alloc, &pieces)
}

fn authorized(alloc: Global, kind: i32, scheme: &Text, auth: &Bytes) -> Result<String, Memory> {
    let auth = hex_of(alloc, auth.as_slice())?;
    let pieces = [
        Piece::Text("auth type "),
        Piece::Number(i64::from(kind)),
        Piece::Text(" scheme "),
        Piece::Text(word_of(scheme.as_slice())),
        Piece::Text(" auth "),
        Piece::Text(auth.as_str()),
    ];
    joined(alloc, &pieces)
}

/// A blank and an entry, for each entry.
fn acls_of(alloc: Global, entries: &[Acl]) -> Result<String, Memory> {
    let mut all = String::new(alloc);
    for entry in entries {
        push_acl(alloc, &mut all, entry)?;
    }
    Ok(all)
}

fn push_acl(alloc: Global, all: &mut String, entry: &Acl) -> Result<(), Memory> {
    let pieces = [
        Piece::Number(i64::from(entry.perms)),
        Piece::Text(":"),
        Piece::Text(word_of(entry.scheme.as_slice())),
        Piece::Text(":"),
        Piece::Text(word_of(entry.id.as_slice())),
    ];
    push_word(all, joined(alloc, &pieces)?.as_str())
}

/// The parts of a multi, with `;` after each.
fn parts_of(alloc: Global, parts: &[Part]) -> Result<String, Memory> {
    let mut all = String::from_str(alloc, "multi")?;
    for part in parts {
        push_part(alloc, &mut all, part)?;
    }
    Ok(all)
}

fn push_part(alloc: Global, all: &mut String, part: &Part) -> Result<(), Memory> {
    push_word(all, part_of(alloc, part)?.as_str())?;
    push(all, ";")
}

fn part_of(alloc: Global, part: &Part) -> Result<String, Memory> {
    match part {
        Part::Create {
            path,
            content,
            acl,
            flags,
        } => made(alloc, "create path ", path, content, acl, *flags),
        Part::Delete { path, version } => versioned(alloc, "delete path ", path, *version),
        Part::SetData {
            path,
            content,
            version,
        } => filled(alloc, path, content.as_slice(), *version),
        Part::Check { path, version } => versioned(alloc, "check path ", path, *version),
    }
}
