//! What was found at the paths of a setWatches.

use row_files::{Words, push_number, push_word, word_of};
use row_words::text;
use std::alloc::Global;
use zn_reads::seen_paths;
use zn_view::View;
use zw_watch::{SeenPath, WatchList};
use zx_base::{Memory, Text};

/// The paths of each list.
#[derive(Drop)]
struct Lists {
    datas: Vec<Text>,
    exists: Vec<Text>,
    children: Vec<Text>,
}

/// Adds a path to the list of this name; false where no list has it.
fn push_path(alloc: Global, lists: &mut Lists, list: &str, path: &str) -> Result<bool, Memory> {
    let path = text(alloc, path)?;
    match list {
        "datas" => lists.datas.push(path)?,
        "exists" => lists.exists.push(path)?,
        "children" => lists.children.push(path)?,
        _ => return Ok(false),
    }
    Ok(true)
}

fn lists_of(alloc: Global, words: &mut Words) -> Result<Option<Lists>, Memory> {
    let mut lists = Lists {
        datas: Vec::new(alloc),
        exists: Vec::new(alloc),
        children: Vec::new(alloc),
    };
    for _ in 0..20 {
        let (Some(list), Some(path)) = (words.word(), words.word()) else {
            break;
        };
        if !push_path(alloc, &mut lists, list, path)? {
            return Ok(None);
        }
    }
    Ok(Some(lists))
}

fn list_word(list: WatchList) -> &'static str {
    match list {
        WatchList::Datas => "datas",
        WatchList::Exists => "exists",
        WatchList::Children => "children",
    }
}

fn push_seen(alloc: Global, all: &mut String, seen: &SeenPath) -> Result<(), Memory> {
    push_word(all, list_word(seen.list))?;
    push_word(all, word_of(seen.path.as_slice()))?;
    match seen.at {
        Some(at) => push_number(alloc, all, " ", at),
        None => push_word(all, "none"),
    }
}

/// `LIST PATH LIST PATH ..`, at most 20 paths, LIST `datas`, `exists` or `children`: what was found at each
pub fn seen(alloc: Global, view: &View, words: &mut Words) -> Result<Option<String>, Memory> {
    let Some(lists) = lists_of(alloc, words)? else {
        return Ok(None);
    };
    let seen = seen_paths(alloc, &lists.datas, &lists.exists, &lists.children, view)?;
    let mut all = String::from_str(alloc, "seen")?;
    for path in &seen {
        push_seen(alloc, &mut all, path)?;
    }
    Ok(Some(all))
}
