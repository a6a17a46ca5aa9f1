//! What a world says of its run.

use row_files::{push, push_number, said};
use std::alloc::Global;
use zk_transcript::TranscriptLine;
use zp_world::World;
use zt_text::push_line;
use zx_base::Memory;

/// The updates, in order.
pub fn updates(alloc: Global, world: &World) -> Result<Option<String>, Memory> {
    let mut text = Vec::new(alloc);
    for update in world.updates() {
        let line = TranscriptLine::Update(*update);
        push_line(&mut text, &line)?;
    }
    in_one_line(alloc, text.as_slice())
}

/// The numbers of the connections, in the order of their conversations.
pub fn connections(alloc: Global, world: &World) -> Result<Option<String>, Memory> {
    let conversations = world.conversations()?;
    let mut found = String::new(alloc);
    for one in &conversations {
        let front = if found.is_empty() { "" } else { " " };
        push_number(alloc, &mut found, front, i64::from(one.connection))?;
    }
    unless_empty(alloc, found)
}

/// The lines of the conversation at this place, which is in decimal; `None` where there is none.
pub fn conversation(alloc: Global, world: &World, place: &str) -> Result<Option<String>, Memory> {
    let Ok(place) = place.parse::<usize>() else {
        return Ok(None);
    };
    let conversations = world.conversations()?;
    let Some(found) = conversations.as_slice().get(place) else {
        return Ok(None);
    };
    let mut text = Vec::new(alloc);
    for line in found.lines.as_slice() {
        push_line(&mut text, line)?;
    }
    in_one_line(alloc, text.as_slice())
}

/// Lines of a transcript, with `; ` between two of them.
fn in_one_line(alloc: Global, text: &[u8]) -> Result<Option<String>, Memory> {
    let Ok(text) = str::from_utf8(text) else {
        return Ok(None);
    };
    let mut found = String::new(alloc);
    for line in text.lines() {
        if !found.is_empty() {
            push(&mut found, "; ")?;
        }
        push(&mut found, line)?;
    }
    unless_empty(alloc, found)
}

/// A text, or `-` where it is empty.
fn unless_empty(alloc: Global, text: String) -> Result<Option<String>, Memory> {
    if text.is_empty() {
        return said(alloc, "-");
    }
    Ok(Some(text))
}
