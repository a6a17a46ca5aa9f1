//! Sends a response whose body comes in chunks, as a watch's does.

ghost use Rattle.std.specs.Prelude.{◌≡◌, ◌<◌, length, IfOk, string_bytes};
ghost use Rattle.ev_http.specs.Chunked.{stream_head, chunk, chunk_line, last_chunk};
ghost use Rattle.ev_http.specs.Sending.{Wrote, Sends};

use crate::fault::HttpFault;
use crate::send::write_all;
use std::alloc::{AllocError, Global};
use zx_outside::Sink;

/// The head of a response of status 200 whose body comes in chunks.
#[tactic(auto, unfolding(crate::specs::Chunked::stream_head))]
fn stream_head() -> &'static str
    ensures { result.now ≡ stream_head }
{
    "HTTP/1.1 200 OK\r\ncontent-type: application/json\r\ntransfer-encoding: chunked\r\n\r\n"
}

/// What ends a chunked body: the chunk without bytes, and no trailer field.
#[tactic(auto, unfolding(crate::specs::Chunked::last_chunk))]
fn last_chunk() -> &'static str
    ensures { result.now ≡ last_chunk }
{
    "0\r\n\r\n"
}

/// The line before a chunk of so many bytes.
#[tactic(auto, unfolding(crate::specs::Chunked::chunk_line))]
fn chunk_line(alloc: Global, length: usize) -> Result<String, AllocError>
    ensures { IfOk result (λ text. string_bytes text ≡ chunk_line length) }
{
    format!(in alloc; "{length:x}\r\n")
}

/// A chunk with these bytes.
fn chunk(alloc: Global, bytes: &[u8]) -> Result<Vec<u8>, AllocError>
    ensures { IfOk result (λ v. v.items ≡ chunk bytes.now) }
{
    let mut text = chunk_line(alloc, bytes.len())?.into_bytes();
    text.extend_from_slice(bytes)?;
    text.extend_from_slice(b"\r\n".as_slice())?;
    Ok(text)
}

/// Sends the head of a response of status 200 whose body comes in chunks. After `WriteFault` a front of it was sent.
pub fn send_stream_head<K: Sink>(sink: &mut K) -> Result<(), HttpFault>
    ensures { Wrote result stream_head (K.taken sink.old) (K.taken sink.new) (K.counts sink.old) (K.counts sink.new) (K.name sink.old) (K.name sink.new) }
{
    write_all(sink, stream_head().as_bytes())
}

/// Sends one chunk of a body, with one byte or more. After `WriteFault` a front of it was sent; after `Memory` nothing was.
pub fn send_chunk<K: Sink>(alloc: Global, sink: &mut K, bytes: &[u8]) -> Result<(), HttpFault>
    requires { 0 < length bytes.now }
    ensures { Sends result (chunk bytes.now) (K.taken sink.old) (K.taken sink.new) (K.counts sink.old) (K.counts sink.new) (K.name sink.old) (K.name sink.new) }
{
    match chunk(alloc, bytes) {
        Ok(text) => write_all(sink, text.as_slice()),
        Err(_) => Err(HttpFault::Memory),
    }
}

/// Ends a body that came in chunks. After `WriteFault` a front of the last chunk was sent.
pub fn send_last_chunk<K: Sink>(sink: &mut K) -> Result<(), HttpFault>
    ensures { Wrote result last_chunk (K.taken sink.old) (K.taken sink.new) (K.counts sink.old) (K.counts sink.new) (K.name sink.old) (K.name sink.new) }
{
    write_all(sink, last_chunk().as_bytes())
}
