//! Requests, as the words of a row spell them.

use crate::texts::{content, text};
use row_files::Words;
use std::alloc::Global;
use zk_model::{Acl, Part, Request};
use zx_base::{Memory, Seq, Text};

/// The permissions of the open access list: all five.
const ALL: i32 = 31;

/// The permission to read alone.
const READ: i32 = 1;

/// The request that the next words spell; `None` where they spell none.
pub fn request(alloc: Global, words: &mut Words) -> Result<Option<Request>, Memory> {
    let Some(kind) = words.word() else {
        return Ok(None);
    };
    match kind {
        "ping" => Ok(Some(Request::Ping)),
        "close" => Ok(Some(Request::Close)),
        "auth" => auth(alloc, words),
        "watches" => set_watches(alloc, words),
        "multi" => multi(alloc, words),
        "acl" | "sync" | "exists" | "get" | "children" | "children2" => read(alloc, kind, words),
        "create2" => create2(alloc, words),
        "check_watches" | "remove_watches" => watchers(alloc, kind, words),
        _ => update(alloc, kind, words),
    }
}

fn auth(alloc: Global, words: &mut Words) -> Result<Option<Request>, Memory> {
    let Some(scheme) = words.word() else {
        return Ok(None);
    };
    Ok(Some(Request::Auth {
        kind: 0,
        scheme: text(alloc, scheme)?,
        auth: Seq::new(alloc),
    }))
}

/// `SINCE DATA EXIST CHILD`
fn set_watches(alloc: Global, words: &mut Words) -> Result<Option<Request>, Memory> {
    let (Some(relative), Some(data)) = (words.long(), words.word()) else {
        return Ok(None);
    };
    let (Some(exist), Some(child)) = (words.word(), words.word()) else {
        return Ok(None);
    };
    Ok(Some(Request::SetWatches {
        relative,
        exists: texts(alloc, exist)?,
        datas: texts(alloc, data)?,
        children: texts(alloc, child)?,
    }))
}

/// Texts with commas between them, `-` for none.
fn texts(alloc: Global, word: &str) -> Result<Seq<Text>, Memory> {
    let mut all = Seq::new(alloc);
    if word != "-" {
        for one in word.split(',') {
            all.push(text(alloc, one)?)?;
        }
    }
    Ok(all)
}

/// `PATH`, and ` WATCH` after it where the request can arm one.
fn read(alloc: Global, kind: &str, words: &mut Words) -> Result<Option<Request>, Memory> {
    let Some(path) = words.word() else {
        return Ok(None);
    };
    let path = text(alloc, path)?;
    Ok(match kind {
        "acl" => Some(Request::GetAcl { path }),
        "sync" => Some(Request::Sync { path }),
        _ => watched(kind, path, words),
    })
}

fn watched(kind: &str, path: Text, words: &mut Words) -> Option<Request> {
    let watch = match words.word()? {
        "0" => false,
        "1" => true,
        _ => return None,
    };
    match kind {
        "exists" => Some(Request::Exists { path, watch }),
        "get" => Some(Request::GetData { path, watch }),
        "children" => Some(Request::GetChildren { path, watch }),
        _ => Some(Request::GetChildren2 { path, watch }),
    }
}

/// `PATH TYPE`, the type as a number
fn watchers(alloc: Global, kind: &str, words: &mut Words) -> Result<Option<Request>, Memory> {
    let (Some(path), Some(number)) = (words.word(), words.int()) else {
        return Ok(None);
    };
    let path = text(alloc, path)?;
    Ok(Some(match kind {
        "check_watches" => Request::CheckWatches { path, kind: number },
        _ => Request::RemoveWatches { path, kind: number },
    }))
}

/// As a create.
fn create2(alloc: Global, words: &mut Words) -> Result<Option<Request>, Memory> {
    match create(alloc, ALL, words)? {
        Some(
            Part::Create {
                path,
                content,
                acl,
                flags,
            },
        ) => Ok(Some(Request::Create2 {
            path,
            content,
            acl,
            flags,
        })),
        _ => Ok(None),
    }
}

/// A request that could be a part of a multi.
fn update(alloc: Global, kind: &str, words: &mut Words) -> Result<Option<Request>, Memory> {
    match part(alloc, kind, words)? {
        Some(part) => Ok(Some(alone(part))),
        None => Ok(None),
    }
}

/// A part as a request of its own.
fn alone(part: Part) -> Request {
    match part {
        Part::Create {
            path,
            content,
            acl,
            flags,
        } => Request::Create {
            path,
            content,
            acl,
            flags,
        },
        Part::Delete { path, version } => Request::Delete { path, version },
        Part::SetData {
            path,
            content,
            version,
        } => Request::SetData {
            path,
            content,
            version,
        },
        Part::Check { path, version } => Request::Check { path, version },
    }
}

/// `PART + PART + ..`, at most 30 parts
fn multi(alloc: Global, words: &mut Words) -> Result<Option<Request>, Memory> {
    let mut parts = Seq::new(alloc);
    for _ in 0..30 {
        let Some(kind) = words.word() else {
            break;
        };
        let Some(part) = part(alloc, kind, words)? else {
            return Ok(None);
        };
        parts.push(part)?;
        match words.word() {
            Some("+") => {}
            Some(_) => return Ok(None),
            None => break,
        }
    }
    Ok(Some(Request::Multi { parts }))
}

/// The part of this kind.
fn part(alloc: Global, kind: &str, words: &mut Words) -> Result<Option<Part>, Memory> {
    match kind {
        "create" => create(alloc, ALL, words),
        "create_closed" => create(alloc, READ, words),
        "set" => set_data(alloc, words),
        "delete" | "check" => versioned(alloc, kind, words),
        _ => Ok(None),
    }
}

/// `PATH DATA FLAGS`
fn create(alloc: Global, perms: i32, words: &mut Words) -> Result<Option<Part>, Memory> {
    let (Some(path), Some(data), Some(flags)) = (words.word(), words.word(), words.int()) else {
        return Ok(None);
    };
    Ok(Some(Part::Create {
        path: text(alloc, path)?,
        content: content(alloc, data)?,
        acl: access(alloc, perms)?,
        flags,
    }))
}

/// One entry, which grants these permissions to anyone.
fn access(alloc: Global, perms: i32) -> Result<Seq<Acl>, Memory> {
    let mut entries = Seq::new(alloc);
    entries.push(Acl {
        perms,
        scheme: text(alloc, "world")?,
        id: text(alloc, "anyone")?,
    })?;
    Ok(entries)
}

/// `PATH DATA VERSION`
fn set_data(alloc: Global, words: &mut Words) -> Result<Option<Part>, Memory> {
    let (Some(path), Some(data), Some(version)) = (words.word(), words.word(), words.int()) else {
        return Ok(None);
    };
    Ok(Some(Part::SetData {
        path: text(alloc, path)?,
        content: content(alloc, data)?,
        version,
    }))
}

/// `PATH VERSION`
fn versioned(alloc: Global, kind: &str, words: &mut Words) -> Result<Option<Part>, Memory> {
    let (Some(path), Some(version)) = (words.word(), words.int()) else {
        return Ok(None);
    };
    let path = text(alloc, path)?;
    Ok(Some(match kind {
        "delete" => Part::Delete { path, version },
        _ => Part::Check { path, version },
    }))
}
