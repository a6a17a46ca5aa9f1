//! Streams over the loopback, and what comes of them.

use std::net::TcpListener;
use std::test::Fail;
use zx_net::Net;
use zx_outside::{Got, Source};
use zx_sockets::{SocketSink, SocketSource, StdNet};

/// How many turns a test waits at most for what has to come.
pub(crate) const TURNS: u32 = 6000;

/// A source and a sink.
pub(crate) type Ends = (SocketSource<HostRuntime>, SocketSink);

/// An address of the loopback at which nobody listens.
pub(crate) fn free_address(rt: &HostRuntime) -> Result<String, Fail> {
    let listener = TcpListener::bind(rt, "127.0.0.1:0")?;
    let port = listener.local_addr()?.port();
    Ok(format!(in rt.alloc(); "127.0.0.1:{port}")?)
}

/// Both ends of a stream that was dialled, and both ends of it as it was accepted.
pub(crate) fn ends_of_a_stream(rt: HostRuntime) -> Result<(Ends, Ends), Fail> {
    let address = free_address(&rt)?;
    let mut net = StdNet::new(rt, rt.alloc());
    let Ok(mut door) = net.bind(address.as_str()) else {
        return Err(Fail::from("bind"));
    };
    // The dialled stream waits at the door, so one thread is enough.
    let Ok(near) = net.dial(address.as_str()) else {
        return Err(Fail::from("dial"));
    };
    let Ok(far) = net.accept(&mut door) else {
        return Err(Fail::from("accept"));
    };
    Ok((near, far))
}

/// The next byte that comes.
pub(crate) fn next_byte<S: Source>(source: &mut S) -> Option<u8> {
    let mut one = [0u8; 1];
    for _ in 0..TURNS {
        match source.read(&mut one) {
            Got::Bytes(_) => return Some(one[0]),
            Got::Nothing => {}
            Got::End | Got::Failed => return None,
        }
    }
    None
}

/// Whether these bytes come next.
pub(crate) fn comes<S: Source>(source: &mut S, wanted: &[u8]) -> bool {
    for byte in wanted {
        if next_byte(source) != Some(*byte) {
            return false;
        }
    }
    true
}

/// Whether a byte comes, over faults too.
pub(crate) fn comes_late<S: Source>(source: &mut S) -> bool {
    for _ in 0..TURNS {
        if let Got::Bytes(_) = turn(source) {
            return true;
        }
    }
    false
}

/// What a read answers that gives no byte any more.
pub(crate) fn drained<S: Source>(source: &mut S) -> Got {
    for _ in 0..TURNS {
        match turn(source) {
            Got::Bytes(_) => {}
            other => return other,
        }
    }
    Got::Failed
}

/// What a read answers.
pub(crate) fn turn<S: Source>(source: &mut S) -> Got {
    let mut one = [0u8; 1];
    source.read(&mut one)
}
