//! What a trace is told of a connection.

use crate::feeding::OPEN;
use crate::serving::{NONE, serve_by};
use crate::ticking::Ticking;
use row_files::{push, push_number, push_word};
use std::alloc::Global;
use std::sync::Wait;
use zp_conn::{Event, ListTrace};
use zp_core::Input;
use zx_base::Memory;

/// The kind of an input.
fn word_of(input: &Input) -> &'static str {
    match input {
        Input::Frame(_) => "frame",
        Input::BadLength { .. } => "length",
        Input::Answer(_) => "answer",
        Input::Failed => "failed",
        Input::Entry(_) => "entry",
        Input::Lagged { .. } => "lagged",
        Input::FeedClosed => "closed",
        Input::ClientEnd { .. } => "end",
    }
}

/// An input's time and kind, or a packet's length.
fn push_event(alloc: Global, found: &mut String, event: &Event) -> Result<(), Memory> {
    match event {
        Event::In(input, now) => {
            push_number(alloc, found, "", i64::try_from(*now).unwrap_or(i64::MAX))?;
            push_word(found, word_of(input))
        }
        Event::Out(packet) => push_number(alloc, found, "out ", packet.as_slice().len() as i64),
    }
}

/// What a trace was told while a stream was served, in order, by a clock that stands at 1,000 first and goes on by so many
/// milliseconds with each reading.
pub fn traced<R: Wait>(
    rt: &R,
    alloc: Global,
    bytes: &[u8],
    piece: u32,
    step: u64,
) -> Result<String, Memory> {
    let mut clock = Ticking { now: 1000, step };
    let mut trace = ListTrace::new(alloc);
    let _served = serve_by(rt, alloc, bytes, piece, NONE, OPEN, &mut clock, &mut trace)?;
    let mut found = String::new(alloc);
    for event in trace.events() {
        if !found.is_empty() {
            push(&mut found, "; ")?;
        }
        push_event(alloc, &mut found, event)?;
    }
    Ok(found)
}
