//! Many frames and replies.

use anyhow::{Result as Outcome, bail};
use row_files::{Piece, joined};
use std::alloc::Global;
use std::process::ExitCode;
use std::time::Instant;
use zk_model::{Body, Reply, Request, Stat};
use zk_wire::{Cutter, read_request, reply_can_be_sent, write_reply};
use zx_base::{Bytes, Memory};

/// The packet of a create of 100 bytes of data with the open access list: 176 bytes, the length included.
const PACKET: [u8; 176] =
    *b"\0\0\0\xac\0\0\0\x07\0\0\0\x01\0\0\0\x19/services/web/instance-01\0\0\0\x64xxxxxxxxxxxxxxxxxxxxxxxxxxxxxxxxxxxxxxxxxxxxxxxxxxxxxxxxxxxxxxxxxxxxxxxxxxxxxxxxxxxxxxxxxxxxxxxxxxxx\0\0\0\x01\0\0\0\x1f\0\0\0\x05world\0\0\0\x06anyone\0\0\0\0";

/// The bytes that a connection reads at once.
const PIECE: usize = 65_536;

const STAT: Stat = Stat {
    czxid: 3,
    mzxid: 3,
    ctime: 1000,
    mtime: 1000,
    version: 0,
    cversion: 0,
    aversion: 0,
    ephemeral_owner: 0,
    data_length: 100,
    num_children: 0,
    pzxid: 3,
};

/// So many packets, one after the other.
fn stream_of(alloc: Global, count: u32) -> Result<Vec<u8>, Memory> {
    let mut stream = Vec::new(alloc);
    for _ in 0..count {
        stream.extend_from_slice(&PACKET)?;
    }
    Ok(stream)
}

/// How many bytes the paths of these frames have together.
fn paths_of(alloc: Global, frames: &[Bytes]) -> u64 {
    let mut paths: u64 = 0;
    for frame in frames {
        if let Ok(numbered) = read_request(alloc, frame.as_slice()) {
            paths = paths.saturating_add(path_length(&numbered.1));
        }
    }
    paths
}

/// How many bytes the path of a create has; 0 of another request.
fn path_length(request: &Request) -> u64 {
    match request {
        Request::Create { path, .. } | Request::Create2 { path, .. } => path.len() as u64,
        _ => 0,
    }
}

/// Cuts and reads a stream, and counts the bytes of its paths.
fn read_all(alloc: Global, stream: &[u8]) -> u64 {
    let mut cutter = Cutter::new(alloc);
    let mut paths: u64 = 0;
    for piece in stream.chunks(PIECE) {
        if let Ok(frames) = cutter.take(piece) {
            paths = paths.saturating_add(paths_of(alloc, &frames));
        }
    }
    paths
}

/// Writes a reply so many times, and counts the bytes.
fn write_all(alloc: Global, count: u32, reply: &Reply) -> u64 {
    let mut bytes: u64 = 0;
    if reply_can_be_sent(reply) {
        for zxid in 0..count {
            if let Ok(packet) = write_reply(alloc, 7, zxid as i64, reply) {
                bytes = bytes.saturating_add(packet.len() as u64);
            }
        }
    }
    bytes
}

/// A reply to a getData of 100 bytes.
fn reply(alloc: Global) -> Result<Reply, Memory> {
    let content = Bytes::copy_of(alloc, &[120; 100])?;
    Ok(Reply::Good(Body::Content(content, STAT)))
}

/// How many bytes the paths of so many frames have, and so many replies.
pub fn counted(alloc: Global, count: &str) -> Result<Option<String>, Memory> {
    let Ok(count) = count.parse::<u32>() else {
        return Ok(None);
    };
    let stream = stream_of(alloc, count)?;
    let reply = reply(alloc)?;
    let pieces = [
        Piece::Count(read_all(alloc, stream.as_slice())),
        Piece::Text(" bytes of paths read, "),
        Piece::Count(write_all(alloc, count, &reply)),
        Piece::Text(" bytes of replies written"),
    ];
    Ok(Some(joined(alloc, &pieces)?))
}

/// Prints the microseconds in which so many frames are cut and read, and so many replies are written.
pub fn print_times(rt: &HostRuntime, count: &str) -> Outcome<ExitCode> {
    let count = count.parse::<u32>().unwrap_or(0);
    let (Ok(stream), Ok(reply)) = (stream_of(rt.alloc(), count), reply(rt.alloc())) else {
        bail!("out of memory");
    };
    let start = Instant::now(rt)?;
    let paths = read_all(rt.alloc(), stream.as_slice());
    let reading = start.elapsed(rt)?.as_micros();
    let start = Instant::now(rt)?;
    let bytes = write_all(rt.alloc(), count, &reply);
    let writing = start.elapsed(rt)?.as_micros();
    println!(rt; "{paths} bytes of paths read, {bytes} bytes of replies written")?;
    println!(rt; "{reading} {writing}")?;
    Ok(ExitCode::SUCCESS)
}
