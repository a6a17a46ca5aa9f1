//! The calls of `ev_http`, and what each gives, as text.

use crate::marks::unescaped;
use crate::sources::{idle_source, paused_source, source_of};
use ev_http::{HttpFault, Lines, read_request, read_response, send_request, send_response};
use ev_types::Route;
use std::alloc::{AllocError, Global};
use zx_outside::{Got, MemSink, MemSource, Source};

/// What the call of this name gives from these bytes in pieces of this size; `None` where there is no call of the name.
pub fn outcome(
    alloc: Global,
    call: &str,
    given: &str,
    cut: u32,
) -> Result<Option<Vec<u8>>, AllocError> {
    let found = match call {
        "response" => response(alloc, source_of(alloc, given, cut)?),
        "request" => request(alloc, source_of(alloc, given, cut)?),
        "lines" => lines(alloc, source_of(alloc, given, cut)?),
        "idle" => response(alloc, idle_source(alloc, given)?),
        "paused" => lines(alloc, paused_source(alloc, given)?),
        "ask" => ask(alloc, given, Vec::new(alloc)),
        "torn" => ask(alloc, given, Vec::from_slice(alloc, &[2])?),
        "answer" => answer(alloc, given),
        _ => return Ok(None),
    };
    Ok(Some(found?))
}

/// Appends what a source has left, in at most 1,000 reads.
fn append_rest(source: &mut MemSource, text: &mut Vec<u8>) -> Result<(), AllocError> {
    text.extend_from_slice(b" left ")?;
    let mut buffer = [0u8; 64];
    for _ in 0..1000 {
        match source.read(&mut buffer) {
            Got::Bytes(count) => text.extend_from_slice(&buffer[..count])?,
            Got::Nothing => {}
            Got::End | Got::Failed => return Ok(()),
        }
    }
    Ok(())
}

fn text_of(alloc: Global, fault: HttpFault) -> Result<Vec<u8>, AllocError> {
    let text = format!(in alloc; "{fault:?}")?;
    Vec::from_slice(alloc, text.as_bytes())
}

/// `FIRST BODY left REST`
fn taken(
    alloc: Global,
    first: &[u8],
    body: &[u8],
    source: &mut MemSource,
) -> Result<Vec<u8>, AllocError> {
    let mut found = Vec::from_slice(alloc, first)?;
    found.extend_from_slice(body)?;
    append_rest(source, &mut found)?;
    Ok(found)
}

fn response(alloc: Global, source: MemSource) -> Result<Vec<u8>, AllocError> {
    let mut source = source;
    match read_response(alloc, &mut source) {
        Ok(body) => taken(alloc, b"ok ", body.as_slice(), &mut source),
        Err(fault) => text_of(alloc, fault),
    }
}

fn request(alloc: Global, source: MemSource) -> Result<Vec<u8>, AllocError> {
    let mut source = source;
    match read_request(alloc, &mut source) {
        Ok((route, body)) => {
            let name = format!(in alloc; "ok {route:?} ")?;
            taken(alloc, name.as_bytes(), body.as_slice(), &mut source)
        }
        Err(fault) => text_of(alloc, fault),
    }
}

fn lines(alloc: Global, source: MemSource) -> Result<Vec<u8>, AllocError> {
    let mut lines = Lines::new(alloc, source);
    let mut found = Vec::new(alloc);
    for _ in 0..1000 {
        if !append_next(alloc, &mut lines, &mut found)? {
            break;
        }
    }
    Ok(found)
}

/// Appends the next line, or the fault in its place; false after a fault but `Idle`.
fn append_next(
    alloc: Global,
    lines: &mut Lines<MemSource>,
    found: &mut Vec<u8>,
) -> Result<bool, AllocError> {
    match lines.next() {
        Ok(line) => {
            found.extend_from_slice(line.as_slice())?;
            found.push(b'\n')?;
            Ok(true)
        }
        Err(HttpFault::Idle) => {
            found.extend_from_slice(b"Idle\n")?;
            Ok(true)
        }
        Err(fault) => {
            found.extend_from_slice(text_of(alloc, fault)?.as_slice())?;
            Ok(false)
        }
    }
}

fn route_named(name: &str) -> Route {
    match name {
        "Txn" => Route::Txn,
        "Range" => Route::Range,
        "Grant" => Route::Grant,
        "Alive" => Route::Alive,
        _ => Route::Watch,
    }
}

/// What `send_request` writes to a sink whose listed writes fail.
fn ask(alloc: Global, text: &str, failing: Vec<u64>) -> Result<Vec<u8>, AllocError> {
    let mut sink = MemSink::new(alloc, failing);
    let Some((name, rest)) = text.split_once(' ') else {
        return Vec::from_slice(alloc, b"no route");
    };
    let Some((host, body)) = rest.split_once(' ') else {
        return Vec::from_slice(alloc, b"no host");
    };
    let body = unescaped(alloc, body.as_bytes())?;
    match send_request(alloc, &mut sink, host, route_named(name), body.as_slice()) {
        Ok(()) => Vec::from_slice(alloc, sink.bytes()),
        Err(fault) => text_of(alloc, fault),
    }
}

fn answer(alloc: Global, text: &str) -> Result<Vec<u8>, AllocError> {
    let mut sink = MemSink::new(alloc, Vec::new(alloc));
    let Some((number, body)) = text.split_once(' ') else {
        return Vec::from_slice(alloc, b"no status");
    };
    let Ok(status) = number.parse::<u16>() else {
        return Vec::from_slice(alloc, b"no status");
    };
    let body = unescaped(alloc, body.as_bytes())?;
    match send_response(alloc, &mut sink, status, body.as_slice()) {
        Ok(()) => Vec::from_slice(alloc, sink.bytes()),
        Err(fault) => text_of(alloc, fault),
    }
}
