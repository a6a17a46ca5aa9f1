//! Frames of clients in words.
//!
//! The first frame of a connection is `connect timeout N`, with `zxid N` where the client has seen one and `session ID PW` where it
//! resumes a session. Each later one is `xid N`, the request's name and its fields; what is left out has its usual value: no
//! watch, any version, a persistent node, the open access list.

use crate::words::{push_hex_after, push_number_after, push_text, push_text_after, push_word};
use std::alloc::Global;
use zk_model::{Acl, ConnectRequest, Part, Request};
use zk_wire::{WireFault, read_connect, read_request};
use zt_text::push_hex;
use zx_base::{Bytes, Memory, Seq, Text};

/// Adds the words of a connection's first frame, and says whether it has some.
pub fn push_first(alloc: Global, line: &mut Vec<u8>, frame: &[u8]) -> Result<bool, Memory> {
    match read_connect(alloc, frame) {
        Ok(request) => {
            push_connect(line, &request)?;
            Ok(true)
        }
        Err(WireFault::Memory) => Err(Memory),
        Err(_) => Ok(false),
    }
}

/// Adds the words of a later frame, and says whether it has some.
pub fn push_later(alloc: Global, line: &mut Vec<u8>, frame: &[u8]) -> Result<bool, Memory> {
    match read_request(alloc, frame) {
        Ok((xid, request)) => {
            push_number_after(line, b"xid", i64::from(xid))?;
            push_request(line, &request)?;
            Ok(true)
        }
        Err(WireFault::Memory) => Err(Memory),
        Err(_) => Ok(false),
    }
}

fn push_connect(line: &mut Vec<u8>, request: &ConnectRequest) -> Result<(), Memory> {
    push_word(line, b"connect")?;
    push_number_after(line, b"timeout", i64::from(request.timeout))?;
    if request.last_zxid != 0 {
        push_number_after(line, b"zxid", request.last_zxid)?;
    }
    if request.session != 0 {
        push_hex_after(line, b"session", &request.session.to_be_bytes())?;
        line.push(b' ')?;
        push_hex(line, request.passwd.as_slice())?;
    }
    push_read_only(line, request.read_only)
}

/// Adds the byte that says read-only in a connect and its answer: nothing where it is 0, as newer clients send it, and `-` where it
/// is not there.
pub fn push_read_only(line: &mut Vec<u8>, read_only: Option<bool>) -> Result<(), Memory> {
    match read_only {
        Some(false) => Ok(()),
        Some(true) => push_word(line, b"readonly 1"),
        None => push_word(line, b"readonly -"),
    }
}

fn push_request(line: &mut Vec<u8>, request: &Request) -> Result<(), Memory> {
    match request {
        Request::Create {
            path,
            content,
            acl,
            flags,
        } => push_create(line, b"create", path, content, acl, *flags),
        Request::Create2 {
            path,
            content,
            acl,
            flags,
        } => push_create(line, b"create2", path, content, acl, *flags),
        Request::Delete { path, version } => push_versioned(line, b"delete", path, *version),
        Request::Exists { path, watch } => push_watching(line, b"exists", path, *watch),
        Request::GetData { path, watch } => push_watching(line, b"getData", path, *watch),
        Request::SetData {
            path,
            content,
            version,
        } => push_set(line, path, content.as_slice(), *version),
        Request::GetAcl { path } => push_text_after(line, b"getACL", path.as_slice()),
        Request::GetChildren { path, watch } => push_watching(line, b"getChildren", path, *watch),
        Request::GetChildren2 { path, watch } => push_watching(line, b"getChildren2", path, *watch),
        Request::Sync { path } => push_text_after(line, b"sync", path.as_slice()),
        Request::Ping => push_word(line, b"ping"),
        Request::Check { path, version } => push_versioned(line, b"check", path, *version),
        Request::Multi { parts } => push_multi(line, parts.as_slice()),
        Request::Auth { kind, scheme, auth } => push_auth(line, *kind, scheme, auth),
        Request::SetWatches {
            relative,
            exists,
            datas,
            children,
        } => push_watches(line, *relative, datas, exists, children),
        Request::CheckWatches { path, kind } => push_of_type(line, b"checkWatches", path, *kind),
        Request::RemoveWatches { path, kind } => push_of_type(line, b"removeWatches", path, *kind),
        Request::Close => push_word(line, b"closeSession"),
    }
}

fn push_multi(line: &mut Vec<u8>, parts: &[Part]) -> Result<(), Memory> {
    push_word(line, b"multi")?;
    for (place, part) in parts.iter().enumerate() {
        if place > 0 {
            push_word(line, b"and")?;
        }
        push_part(line, part)?;
    }
    Ok(())
}

fn push_part(line: &mut Vec<u8>, part: &Part) -> Result<(), Memory> {
    match part {
        Part::Create {
            path,
            content,
            acl,
            flags,
        } => push_create(line, b"create", path, content, acl, *flags),
        Part::Delete { path, version } => push_versioned(line, b"delete", path, *version),
        Part::SetData {
            path,
            content,
            version,
        } => push_set(line, path, content.as_slice(), *version),
        Part::Check { path, version } => push_versioned(line, b"check", path, *version),
    }
}

fn push_create(
    line: &mut Vec<u8>,
    name: &[u8],
    path: &Text,
    content: &Bytes,
    acl: &Seq<Acl>,
    flags: i32,
) -> Result<(), Memory> {
    push_text_after(line, name, path.as_slice())?;
    push_text(line, content.as_slice())?;
    push_flags(line, flags)?;
    push_acl(line, acl.as_slice())
}

/// Adds an access list, and nothing where it is the open one.
fn push_acl(line: &mut Vec<u8>, acl: &[Acl]) -> Result<(), Memory> {
    if is_open(acl) {
        return Ok(());
    }
    for entry in acl {
        push_number_after(line, b"acl", i64::from(entry.perms))?;
        push_text(line, entry.scheme.as_slice())?;
        push_text(line, entry.id.as_slice())?;
    }
    Ok(())
}

fn push_flags(line: &mut Vec<u8>, flags: i32) -> Result<(), Memory> {
    match flags {
        0 => Ok(()),
        1 => push_word(line, b"ephemeral"),
        2 => push_word(line, b"sequential"),
        3 => push_word(line, b"ephemeral sequential"),
        _ => push_number_after(line, b"flags", i64::from(flags)),
    }
}

/// Whether everybody may do everything.
fn is_open(acl: &[Acl]) -> bool {
    match acl {
        [entry] => entry.perms == 31 && entry.scheme.is(b"world") && entry.id.is(b"anyone"),
        _ => false,
    }
}

fn push_auth(line: &mut Vec<u8>, kind: i32, scheme: &Text, auth: &Bytes) -> Result<(), Memory> {
    push_number_after(line, b"auth", i64::from(kind))?;
    push_text(line, scheme.as_slice())?;
    push_text(line, auth.as_slice())
}

fn push_set(line: &mut Vec<u8>, path: &Text, content: &[u8], version: i32) -> Result<(), Memory> {
    push_text_after(line, b"setData", path.as_slice())?;
    push_text(line, content)?;
    push_version(line, version)
}

fn push_versioned(
    line: &mut Vec<u8>,
    name: &[u8],
    path: &Text,
    version: i32,
) -> Result<(), Memory> {
    push_text_after(line, name, path.as_slice())?;
    push_version(line, version)
}

fn push_version(line: &mut Vec<u8>, version: i32) -> Result<(), Memory> {
    if version == -1 {
        Ok(())
    } else {
        push_number_after(line, b"version", i64::from(version))
    }
}

fn push_watching(line: &mut Vec<u8>, name: &[u8], path: &Text, watch: bool) -> Result<(), Memory> {
    push_text_after(line, name, path.as_slice())?;
    if watch {
        push_word(line, b"watch")
    } else {
        Ok(())
    }
}

/// Adds a request about the watches of a path, by their type (`Watcher.WatcherType`).
fn push_of_type(line: &mut Vec<u8>, name: &[u8], path: &Text, kind: i32) -> Result<(), Memory> {
    push_text_after(line, name, path.as_slice())?;
    match kind {
        1 => push_word(line, b"children"),
        2 => push_word(line, b"data"),
        3 => push_word(line, b"any"),
        _ => push_number_after(line, b"type", i64::from(kind)),
    }
}

/// Adds the watches of a client that has connected again, each after the kind of its watch.
fn push_watches(
    line: &mut Vec<u8>,
    relative: i64,
    datas: &Seq<Text>,
    exists: &Seq<Text>,
    children: &Seq<Text>,
) -> Result<(), Memory> {
    push_number_after(line, b"setWatches", relative)?;
    push_each_after(line, b"data", datas.as_slice())?;
    push_each_after(line, b"exist", exists.as_slice())?;
    push_each_after(line, b"child", children.as_slice())
}

/// Adds each text, after the name.
fn push_each_after(line: &mut Vec<u8>, name: &[u8], texts: &[Text]) -> Result<(), Memory> {
    for text in texts {
        push_text_after(line, name, text.as_slice())?;
    }
    Ok(())
}
