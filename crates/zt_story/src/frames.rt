//! Frames of clients that are made from words.

use crate::fault::Fault;
use crate::words::Words;
use std::alloc::Global;
use zk_model::{Acl, Part, Request};
use zk_wire::{request_can_be_sent, write_request};
use zt_text::{password, session_id};
use zx_base::{Seq, Text};

/// The bytes of a packet's length.
const LENGTH: usize = 4;

/// The version that matches any.
const ANY: i32 = -1;

/// The permissions of the open access list: all of them.
const ALL: i32 = 31;

/// The frame that the words say, without its length. None: the words begin neither with `connect` nor with `xid`.
pub fn frame_of(alloc: Global, words: &mut Words<'_>) -> Result<Option<Vec<u8>>, Fault> {
    if words.takes(b"connect") {
        let frame = connect_frame(alloc, words)?;
        words.end()?;
        return Ok(Some(frame));
    }
    if words.takes(b"xid") {
        let xid = words.int()?;
        let request = request_of(alloc, words)?;
        words.end()?;
        return Ok(Some(request_frame(alloc, xid, &request)?));
    }
    Ok(None)
}

fn connect_frame(alloc: Global, words: &mut Words<'_>) -> Result<Vec<u8>, Fault> {
    words.expect(b"timeout")?;
    let timeout = words.int()?;
    let zxid = if words.takes(b"zxid") {
        words.long()?
    } else {
        0
    };
    let (session, passwd) = session_of(words)?;
    let mut frame = Vec::new(alloc);
    frame.extend_from_slice(&[0; LENGTH])?;
    frame.extend_from_slice(&zxid.to_be_bytes())?;
    frame.extend_from_slice(&timeout.to_be_bytes())?;
    frame.extend_from_slice(&session.to_be_bytes())?;
    frame.extend_from_slice(&[0, 0, 0, 16])?;
    frame.extend_from_slice(&passwd)?;
    if let Some(flag) = read_only_of(words)? {
        frame.push(flag)?;
    }
    Ok(frame)
}

/// The byte that says whether the client would take a server that only reads: 0 where nothing is said of it.
fn read_only_of(words: &mut Words<'_>) -> Result<Option<u8>, Fault> {
    if !words.takes(b"readonly") {
        return Ok(Some(0));
    }
    match words.word()? {
        b"0" => Ok(Some(0)),
        b"1" => Ok(Some(1)),
        b"-" => Ok(None),
        _ => Err(Fault::Unreadable),
    }
}

/// The session that a connect resumes, and its password: zeros where it begins a new one.
fn session_of(words: &mut Words<'_>) -> Result<(i64, [u8; 16]), Fault> {
    if !words.takes(b"session") {
        return Ok((0, [0; 16]));
    }
    let session = words.word()?;
    let passwd = words.word()?;
    match (session_id(session), password(passwd)) {
        (Some(session), Some(passwd)) => Ok((session, passwd)),
        _ => Err(Fault::Unreadable),
    }
}

fn request_frame(alloc: Global, xid: i32, request: &Request) -> Result<Vec<u8>, Fault> {
    if !request_can_be_sent(request) {
        return Err(Fault::Unreadable);
    }
    let packet = write_request(alloc, xid, request)?;
    let frame = packet.get(LENGTH..).unwrap_or(&[]);
    Ok(Vec::from_slice(alloc, frame)?)
}

fn request_of(alloc: Global, words: &mut Words<'_>) -> Result<Request, Fault> {
    match words.word()? {
        b"ping" => Ok(Request::Ping),
        b"closeSession" => Ok(Request::Close),
        b"auth" => {
            let kind = words.int()?;
            let scheme = words.text()?;
            let auth = words.text()?;
            Ok(Request::Auth { kind, scheme, auth })
        }
        b"create2" => create2_of(alloc, words),
        b"setWatches" => watches_of(alloc, words),
        b"checkWatches" => {
            let (path, kind) = of_type(words)?;
            Ok(Request::CheckWatches { path, kind })
        }
        b"removeWatches" => {
            let (path, kind) = of_type(words)?;
            Ok(Request::RemoveWatches { path, kind })
        }
        b"multi" => {
            let parts = parts_of(alloc, words)?;
            Ok(Request::Multi { parts })
        }
        name => match part_of(alloc, name, words)? {
            Some(part) => Ok(as_request(part)),
            None => read_of(name, words),
        },
    }
}

/// A request that reads, by its name.
fn read_of(name: &[u8], words: &mut Words<'_>) -> Result<Request, Fault> {
    match name {
        b"getACL" => {
            let path = words.text()?;
            Ok(Request::GetAcl { path })
        }
        b"sync" => {
            let path = words.text()?;
            Ok(Request::Sync { path })
        }
        b"exists" => {
            let (path, watch) = watching(words)?;
            Ok(Request::Exists { path, watch })
        }
        b"getData" => {
            let (path, watch) = watching(words)?;
            Ok(Request::GetData { path, watch })
        }
        b"getChildren" => {
            let (path, watch) = watching(words)?;
            Ok(Request::GetChildren { path, watch })
        }
        b"getChildren2" => {
            let (path, watch) = watching(words)?;
            Ok(Request::GetChildren2 { path, watch })
        }
        _ => Err(Fault::Unreadable),
    }
}

/// A path, and whether a watch is left there.
fn watching(words: &mut Words<'_>) -> Result<(Text, bool), Fault> {
    let path = words.text()?;
    let watch = words.takes(b"watch");
    Ok((path, watch))
}

/// A create whose reply has the new node's Stat.
fn create2_of(alloc: Global, words: &mut Words<'_>) -> Result<Request, Fault> {
    let path = words.text()?;
    let content = words.text()?;
    let flags = flags_of(words)?;
    let acl = acl_of(alloc, words)?;
    Ok(Request::Create2 {
        path,
        content,
        acl,
        flags,
    })
}

/// A path, and the type of the watches there that are asked for or taken away.
fn of_type(words: &mut Words<'_>) -> Result<(Text, i32), Fault> {
    let path = words.text()?;
    let kind = match words.word()? {
        b"children" => 1,
        b"data" => 2,
        b"any" => 3,
        b"type" => words.int()?,
        _ => return Err(Fault::Unreadable),
    };
    Ok((path, kind))
}

/// A request that may be part of a multi, by its name. None: no such request has the name.
fn part_of(alloc: Global, name: &[u8], words: &mut Words<'_>) -> Result<Option<Part>, Fault> {
    match name {
        b"create" => {
            let path = words.text()?;
            let content = words.text()?;
            let flags = flags_of(words)?;
            let acl = acl_of(alloc, words)?;
            Ok(Some(Part::Create {
                path,
                content,
                acl,
                flags,
            }))
        }
        b"delete" => {
            let path = words.text()?;
            let version = version_of(words)?;
            Ok(Some(Part::Delete { path, version }))
        }
        b"setData" => {
            let path = words.text()?;
            let content = words.text()?;
            let version = version_of(words)?;
            Ok(Some(Part::SetData {
                path,
                content,
                version,
            }))
        }
        b"check" => {
            let path = words.text()?;
            let version = version_of(words)?;
            Ok(Some(Part::Check { path, version }))
        }
        _ => Ok(None),
    }
}

/// The request of its own that a part says.
fn as_request(part: Part) -> Request {
    match part {
        Part::Create {
            path,
            content,
            acl,
            flags,
        } => Request::Create {
            path,
            content,
            acl,
            flags,
        },
        Part::Delete { path, version } => Request::Delete { path, version },
        Part::SetData {
            path,
            content,
            version,
        } => Request::SetData {
            path,
            content,
            version,
        },
        Part::Check { path, version } => Request::Check { path, version },
    }
}

/// The parts of a multi, with `and` between them.
fn parts_of(alloc: Global, words: &mut Words<'_>) -> Result<Seq<Part>, Fault> {
    let mut parts = Vec::new(alloc);
    for _part in 0..words.left() {
        let name = words.word()?;
        let Some(part) = part_of(alloc, name, words)? else {
            return Err(Fault::Unreadable);
        };
        parts.push(part)?;
        if !words.takes(b"and") {
            break;
        }
    }
    Ok(Seq::from_vec(parts))
}

/// The version that a request asks for: any where none is named.
fn version_of(words: &mut Words<'_>) -> Result<i32, Fault> {
    if words.takes(b"version") {
        words.int()
    } else {
        Ok(ANY)
    }
}

/// The flags of a create: the number, or what kind of node it makes.
fn flags_of(words: &mut Words<'_>) -> Result<i32, Fault> {
    if words.takes(b"flags") {
        return words.int();
    }
    let is_ephemeral = words.takes(b"ephemeral");
    let is_sequential = words.takes(b"sequential");
    match (is_ephemeral, is_sequential) {
        (false, false) => Ok(0),
        (true, false) => Ok(1),
        (false, true) => Ok(2),
        (true, true) => Ok(3),
    }
}

/// The entries of an access list; without any it is the open one.
fn acl_of(alloc: Global, words: &mut Words<'_>) -> Result<Seq<Acl>, Fault> {
    let mut acl = Vec::new(alloc);
    for _entry in 0..words.left() {
        if !words.takes(b"acl") {
            break;
        }
        let perms = words.int()?;
        let scheme = words.text()?;
        let id = words.text()?;
        acl.push(Acl { perms, scheme, id })?;
    }
    if acl.is_empty() {
        let scheme = Text::copy_of(alloc, b"world")?;
        let id = Text::copy_of(alloc, b"anyone")?;
        acl.push(Acl {
            perms: ALL,
            scheme,
            id,
        })?;
    }
    Ok(Seq::from_vec(acl))
}

/// The watches of a client that resumes its session, each after the kind of its watch.
fn watches_of(alloc: Global, words: &mut Words<'_>) -> Result<Request, Fault> {
    let relative = words.long()?;
    let mut datas = Vec::new(alloc);
    let mut exists = Vec::new(alloc);
    let mut children = Vec::new(alloc);
    for _watch in 0..words.left() {
        if words.takes(b"data") {
            datas.push(words.text()?)?;
        } else if words.takes(b"exist") {
            exists.push(words.text()?)?;
        } else if words.takes(b"child") {
            children.push(words.text()?)?;
        } else {
            break;
        }
    }
    Ok(Request::SetWatches {
        relative,
        exists: Seq::from_vec(exists),
        datas: Seq::from_vec(datas),
        children: Seq::from_vec(children),
    })
}
