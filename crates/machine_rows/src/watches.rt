//! The watches of one connection.

use row_files::{Steps, Words, said};
use row_words::{notice_texts, read_path, trigger_of};
use std::alloc::Global;
use zk_model::watcher::is_watcher_type;
use zw_watch::{Armed, SeenPath, WatchList};
use zx_base::{Memory, Text};

/// What the connection has armed.
#[derive(Drop)]
pub struct Watching {
    pub armed: Armed,
}

impl Steps for Watching {
    fn step(&mut self, alloc: Global, step: &str) -> Result<Option<String>, Memory> {
        taken(alloc, &mut self.armed, step)
    }
}

/// What comes of one step.
fn taken(alloc: Global, armed: &mut Armed, step: &str) -> Result<Option<String>, Memory> {
    if step == "left" {
        return said(alloc, if armed.is_empty() { "nothing" } else { "some" });
    }
    let Some((word, rest)) = step.split_once(' ') else {
        return Ok(None);
    };
    match word {
        "data" => arm(alloc, armed, rest, false),
        "child" => arm(alloc, armed, rest, true),
        "set" => set(alloc, armed, rest),
        "has" | "remove" => named(alloc, armed, word, rest),
        _ => fire(alloc, armed, word, rest),
    }
}

fn arm(
    alloc: Global,
    armed: &mut Armed,
    text: &str,
    child: bool,
) -> Result<Option<String>, Memory> {
    let Some(path) = read_path(alloc, text)? else {
        return Ok(None);
    };
    armed.arm(&path, child)?;
    said(alloc, "armed")
}

/// `PATH TYPE`: whether the path has a watch of this type, which `remove` takes away.
fn named(
    alloc: Global,
    armed: &mut Armed,
    word: &str,
    rest: &str,
) -> Result<Option<String>, Memory> {
    let mut words = Words::new(rest);
    let (Some(text), Some(kind)) = (words.word(), words.int()) else {
        return Ok(None);
    };
    let Some(path) = read_path(alloc, text)? else {
        return Ok(None);
    };
    if !is_watcher_type(kind) {
        return Ok(None);
    }
    let found = if word == "has" {
        armed.has(&path, kind)
    } else {
        armed.remove(&path, kind)
    };
    said(alloc, if found { "yes" } else { "no" })
}

fn fire(
    alloc: Global,
    armed: &mut Armed,
    word: &str,
    text: &str,
) -> Result<Option<String>, Memory> {
    let Some(path) = read_path(alloc, text)? else {
        return Ok(None);
    };
    let Some(trigger) = trigger_of(word, path) else {
        return Ok(None);
    };
    match armed.fire(&trigger)? {
        Some(notice) => Ok(Some(notice_texts(alloc, &[notice])?)),
        None => said(alloc, "none"),
    }
}

fn set(alloc: Global, armed: &mut Armed, rest: &str) -> Result<Option<String>, Memory> {
    let Some((relative, paths)) = rest.split_once(", ") else {
        return Ok(None);
    };
    let Ok(relative) = relative.parse::<i64>() else {
        return Ok(None);
    };
    let Some(seen) = seen_paths(alloc, paths)? else {
        return Ok(None);
    };
    let notices = armed.rearm(seen.as_slice(), relative)?;
    if notices.is_empty() {
        return said(alloc, "none");
    }
    Ok(Some(notice_texts(alloc, notices.as_slice())?))
}

fn seen_paths(alloc: Global, paths: &str) -> Result<Option<Vec<SeenPath>>, Memory> {
    let mut seen = Vec::new(alloc);
    for words in paths.split(", ") {
        let Some(path) = seen_path(alloc, words)? else {
            return Ok(None);
        };
        seen.push(path)?;
    }
    Ok(Some(seen))
}

fn seen_path(alloc: Global, row: &str) -> Result<Option<SeenPath>, Memory> {
    let mut words = Words::new(row);
    let (Some(list), Some(text), Some(at)) = (words.word(), words.word(), words.word()) else {
        return Ok(None);
    };
    let Some(list) = list_of(list) else {
        return Ok(None);
    };
    let at = if at == "none" {
        None
    } else {
        let Ok(at) = at.parse::<i64>() else {
            return Ok(None);
        };
        Some(at)
    };
    Ok(Some(SeenPath {
        path: Text::copy_of(alloc, text.as_bytes())?,
        list,
        at,
    }))
}

fn list_of(word: &str) -> Option<WatchList> {
    match word {
        "datas" => Some(WatchList::Datas),
        "exists" => Some(WatchList::Exists),
        "children" => Some(WatchList::Children),
        _ => None,
    }
}
