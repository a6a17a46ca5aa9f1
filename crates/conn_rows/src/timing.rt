//! Times a connection over many frames.

use crate::serving::{NONE, serve};
use anyhow::{Result, bail};
use std::alloc::Global;
use std::process::ExitCode;
use std::rt::Clock;
use std::sync::Wait;
use std::time::Instant;
use zp_conn::Cause;
use zx_base::Memory;

/// A connect, and a create of `/a` with the data x, each with its length before it.
const BEGIN: [u8; 103] =
    *b"\0\0\0-\0\0\0\0\0\0\0\0\0\0\0\0\0\0u0\0\0\0\0\0\0\0\0\0\0\0\x10\0\0\0\0\0\0\0\0\0\0\0\0\0\0\0\0\0\0\0\02\0\0\0\x01\0\0\0\x01\0\0\0\x02/a\0\0\0\x01x\0\0\0\x01\0\0\0\x1f\0\0\0\x05world\0\0\0\x06anyone\0\0\0\0";

/// A ping.
const PING: [u8; 12] = *b"\0\0\0\x08\xff\xff\xff\xfe\0\0\0\x0b";

/// A getData of `/a`.
const GET_DATA: [u8; 19] = *b"\0\0\0\x0f\0\0\0\x02\0\0\0\x04\0\0\0\x02/a\0";

/// The first two frames, and then this one so many times.
fn stream_of(alloc: Global, frame: &[u8], count: u32) -> Result<Vec<u8>, Memory> {
    let mut stream = Vec::new(alloc);
    stream.extend_from_slice(&BEGIN)?;
    for _ in 0..count {
        stream.extend_from_slice(frame)?;
    }
    Ok(stream)
}

/// Prints in how many microseconds a connection serves so many of this frame.
fn print_time<R: Wait + Clock + Print>(
    rt: &R,
    alloc: Global,
    name: &str,
    frame: &[u8],
    count: u32,
) -> Result<()> {
    let Ok(stream) = stream_of(alloc, frame, count) else {
        bail!("out of memory");
    };
    let start = Instant::now(rt)?;
    let Ok(served) = serve(rt, alloc, stream.as_slice(), 0, NONE) else {
        bail!("out of memory");
    };
    let micros = start.elapsed(rt)?.as_micros();
    if !matches!(served.cause, Cause::ClientEnd { .. }) {
        bail!("the connection ended before its stream");
    }
    println!(rt; "{name} {count} {micros}")?;
    Ok(())
}

/// Prints the times of pings and of getDatas.
pub fn print_times<R: Wait + Clock + Print>(
    rt: &R,
    alloc: Global,
    count: &str,
) -> Result<ExitCode> {
    let Ok(count) = count.parse::<u32>() else {
        bail!("no count");
    };
    print_time(rt, alloc, "pings", &PING, count)?;
    print_time(rt, alloc, "getDatas", &GET_DATA, count)?;
    Ok(ExitCode::SUCCESS)
}
