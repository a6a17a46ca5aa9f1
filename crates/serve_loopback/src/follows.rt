//! Followers over a net in memory.

use row_files::{Piece, joined, said};
use std::alloc::Global;
use std::sync::Wait;
use zp_server::follow;
use zw_hub::{FeedEnd, hub};
use zx_base::Memory;
use zx_net::MemNet;
use zx_random::MemStop;

/// How a follower ended.
fn end_of(alloc: Global, end: Option<FeedEnd>) -> Result<Option<String>, Memory> {
    match end {
        None => said(alloc, "stopped"),
        Some(FeedEnd::Compacted { rev }) => Ok(Some(joined(
            alloc,
            &[Piece::Text("compacted "), Piece::Number(rev)],
        )?)),
        Some(FeedEnd::Gap { expected, found }) => Ok(Some(joined(
            alloc,
            &[
                Piece::Text("gap "),
                Piece::Number(expected),
                Piece::Text(" "),
                Piece::Number(found),
            ],
        )?)),
        Some(FeedEnd::Damaged { .. }) => said(alloc, "damaged"),
        Some(FeedEnd::NoLine) => said(alloc, "no line"),
        Some(FeedEnd::Memory) => Err(Memory),
    }
}

/// A watch's stream of one line.
pub fn stream_of(alloc: Global, line: &str) -> Result<Vec<u8>, Memory> {
    let head = joined(
        alloc,
        &[
            Piece::Text("HTTP/1.1 200 OK\r\nContent-Length: "),
            Piece::Count((line.len() as u64).saturating_add(1)),
            Piece::Text("\r\n\r\n"),
            Piece::Text(line),
            Piece::Text("\n"),
        ],
    )?;
    Ok(head.into_bytes())
}

/// How a follower ended that was told to stop at its reading of a number, and whose first dial gave a stream of a line, if there is
/// one.
pub fn followed<R: Wait + Eprint + Copy + Drop>(
    rt: &R,
    alloc: Global,
    given: &str,
) -> Result<Option<String>, Memory> {
    let mut streams = Vec::new(alloc);
    let from = match given.split_once(' ') {
        Some((from, line)) => {
            streams.push(stream_of(alloc, line)?)?;
            from
        }
        None => given,
    };
    let Ok(from) = from.parse::<u64>() else {
        return Ok(None);
    };
    let (mut hub, _readers, _keeper) = hub(*rt, alloc, 1, 1)?;
    let mut net = MemNet::new(alloc, Vec::new(alloc), streams);
    let mut stop = MemStop::new(from);
    let end = follow(rt, alloc, &mut net, "etcd:2379", 1, 2, &mut hub, &mut stop);
    end_of(alloc, end)
}
