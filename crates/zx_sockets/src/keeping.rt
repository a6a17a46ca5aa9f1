//! Has the system notice that a peer is gone without a word.

use libc::net as c;
use std::net::TcpStream;
use std::os::fd::AsRawFd;

/// After so many seconds without a byte the system asks the peer's system for a sign of life (tcp(7), `TCP_KEEPIDLE`).
const SILENCE: i32 = 60;

/// So many seconds pass between two such asks.
const PAUSE: i32 = 10;

/// After so many asks without an answer the stream is broken.
const ASKS: i32 = 6;

/// A number as an option's value.
fn value(number: i32) -> [u8; 16] {
    let mut bytes = [0u8; 16];
    bytes[..4].copy_from_slice(&number.to_ne_bytes());
    bytes
}

/// Has the reads and writes of a stream fail once its peer's system is gone, some two minutes later. Whether the system does so; where it
/// does not, the stream is as before.
pub fn keep_watch(stream: &TcpStream) -> bool {
    let fd = stream.as_raw_fd();
    let (socket, tcp) = (c::SOL_SOCKET, c::IPPROTO_TCP);
    let (silence, pause, asks, on) = (value(SILENCE), value(PAUSE), value(ASKS), value(1));
    // Each call names its option, so that the check can tell that there is one.
    unsafe {
        c::setsockopt(fd, tcp, c::TCP_KEEPIDLE, &silence, 4) == 0
            && c::setsockopt(fd, tcp, c::TCP_KEEPINTVL, &pause, 4) == 0
            && c::setsockopt(fd, tcp, c::TCP_KEEPCNT, &asks, 4) == 0
            && c::setsockopt(fd, socket, c::SO_KEEPALIVE, &on, 4) == 0
    }
}
