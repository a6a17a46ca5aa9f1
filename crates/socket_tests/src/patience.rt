//! Peers that say nothing for too long.

use crate::common::{Ends, TURNS, comes, comes_late, drained, turn};
use std::io::Write;
use std::net::{TcpListener, TcpStream};
use std::test::Fail;
use std::thread;
use std::time::{Duration, Instant};
use zx_outside::{Got, Source};
use zx_sockets::{Patience, ends_of};

/// The near end of a stream, and both ends of it as it was accepted, with this patience before and after a connect.
fn ends_with_patience(
    rt: HostRuntime,
    first: Duration,
    later: Duration,
) -> Result<(TcpStream, Ends), Fail> {
    let listener = TcpListener::bind(&rt, "127.0.0.1:0")?;
    let address = listener.local_addr()?;
    let near = TcpStream::connect(&rt, address)?;
    let (far, _) = listener.accept()?;
    match ends_of(rt, rt.alloc(), far, 7, Patience::new(&rt, first, later)) {
        Ok(ends) => Ok((near, ends)),
        Err(_) => Err(Fail::from("ends")),
    }
}

#[test]
fn silence_is_a_fault_in_the_end(rt: HostRuntime) -> Result<(), Fail> {
    let limit = Duration::from_millis(0);
    let (near, (mut source, _sink)) = ends_with_patience(rt, limit, limit)?;
    assert!(rt; turn(&mut source) == Got::Failed);
    drop(near);
    Ok(())
}

#[test]
fn a_peer_has_to_send_as_much_as_a_connect(rt: HostRuntime) -> Result<(), Fail> {
    let (first, later) = (Duration::from_millis(0), Duration::from_secs(3600));
    let (near, (mut source, _sink)) = ends_with_patience(rt, first, later)?;
    assert!(rt; as_much_as_a_connect_comes(&mut source, &near)?);
    Ok(())
}

/// Whether fewer bytes than the least connect has break no silence, and as many do.
fn as_much_as_a_connect_comes<S: Source>(source: &mut S, near: &TcpStream) -> Result<bool, Fail> {
    let mut to_far = near;
    let is_silent = turn(source) == Got::Failed
        && to_far.write(&[b'x'; 31])? == 31
        && turn(source) == Got::Failed;
    let is_broken = to_far.write(&[b'x'; 32])? == 32 && comes_late(source);
    // What counts from then on is the silence after each byte.
    let goes_on = drained(source) == Got::Nothing
        && to_far.write(b"x")? == 1
        && comes_late(source)
        && turn(source) == Got::Nothing;
    Ok(is_silent && is_broken && goes_on)
}

#[test]
fn a_peer_has_to_go_on_after_its_connect(rt: HostRuntime) -> Result<(), Fail> {
    let (first, later) = (Duration::from_secs(3600), Duration::from_millis(0));
    let (near, (mut source, _sink)) = ends_with_patience(rt, first, later)?;
    assert!(rt; silence_after_a_connect(&mut source, &near)?);
    Ok(())
}

/// Whether fewer bytes than the least connect has leave the first limit, and the silence after as many is too long.
fn silence_after_a_connect<S: Source>(source: &mut S, near: &TcpStream) -> Result<bool, Fail> {
    let mut to_far = near;
    let waits = to_far.write(&[b'x'; 31])? == 31
        && comes_late(source)
        && drained(source) == Got::Nothing;
    let comes = to_far.write(b"x")? == 1 && comes_late(source);
    for _ in 0..TURNS {
        if turn(source) == Got::Failed {
            return Ok(waits && comes);
        }
    }
    Ok(false)
}

/// Whether these bytes break a silence that is too long. A machine that is too slow to look within the limit is asked again.
fn breaks_the_silence<S: Source>(
    rt: HostRuntime,
    source: &mut S,
    near: &TcpStream,
    bytes: &[u8],
    limit: Duration,
) -> Result<bool, Fail> {
    let mut to_far = near;
    thread::sleep(&rt, limit);
    for _ in 0..10u32 {
        let since = Instant::now(&rt)?;
        if to_far.write(bytes)? != bytes.len() || !comes_late(source) {
            return Ok(false);
        }
        let answer = drained(source);
        if since.elapsed(&rt)? < limit {
            return Ok(answer == Got::Nothing);
        }
    }
    Ok(true)
}

#[test]
fn a_byte_breaks_the_silence(rt: HostRuntime) -> Result<(), Fail> {
    let limit = Duration::from_secs(1);
    let (near, (mut source, _sink)) = ends_with_patience(rt, limit, limit)?;
    // As many bytes as a connect has do, and then one alone.
    assert!(rt; breaks_the_silence(rt, &mut source, &near, &[b'x'; 32], limit)?);
    assert!(rt; breaks_the_silence(rt, &mut source, &near, b"x", limit)?);
    Ok(())
}
