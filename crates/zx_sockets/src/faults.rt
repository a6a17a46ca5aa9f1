//! What the system's faults mean, by their codes (errno of Linux, errno(3)).

ghost use Rattle.std.specs.Prelude.{◌≡◌};
ghost use Rattle.zx_sockets.specs.Faults.{is_passing, fault_of};

use std::io;
use std::io::ErrorKind;
use std::net::{Ipv4Addr, Net as SystemNet, UdpSocket};
use zx_net::NetFault;

/// It is not allowed.
const EPERM: i32 = 1;

/// A signal came.
const EINTR: i32 = 4;

/// No memory is left.
const ENOMEM: i32 = 12;

/// It is not allowed, as a port below 1024 may not be.
const EACCES: i32 = 13;

/// No descriptor is left in the system.
const ENFILE: i32 = 23;

/// No descriptor is left in the process.
const EMFILE: i32 = 24;

/// Errors of a network that wait on a new stream (accept(2), "Error handling").
const ENONET: i32 = 64;

const EPROTO: i32 = 71;

const ENOPROTOOPT: i32 = 92;

const EOPNOTSUPP: i32 = 95;

const ENETDOWN: i32 = 100;

const ENETUNREACH: i32 = 101;

const EHOSTDOWN: i32 = 112;

const EHOSTUNREACH: i32 = 113;

/// Something listens at the address already.
const EADDRINUSE: i32 = 98;

/// The address is not one of this machine.
const EADDRNOTAVAIL: i32 = 99;

/// A peer is gone before it was accepted.
const ECONNABORTED: i32 = 103;

/// No memory is left for a socket's buffers.
const ENOBUFS: i32 = 105;

/// The faults of an accept that pass.
const PASSING: [i32; 14] = [
    EINTR,
    ENOMEM,
    ENFILE,
    EMFILE,
    ENONET,
    EPROTO,
    ENOPROTOOPT,
    EOPNOTSUPP,
    ENETDOWN,
    ENETUNREACH,
    ECONNABORTED,
    ENOBUFS,
    EHOSTDOWN,
    EHOSTUNREACH,
];

/// So the system says that this program may not.
const DENIED: [i32; 2] = [EPERM, EACCES];

/// So the system says that no room is left.
const NO_ROOM: [i32; 4] = [ENOMEM, ENFILE, EMFILE, ENOBUFS];

/// Whether an accept with this fault may be tried again.
pub fn is_passing(code: Option<i32>) -> bool
    ensures { result ≡ is_passing code }
{
    match code {
        Some(code) => PASSING.contains(&code),
        None => false,
    }
}

/// What a fault with this code says of a bind, an accept or a dial.
pub fn fault_of(code: Option<i32>) -> NetFault
    ensures { result ≡ fault_of code }
{
    let Some(code) = code else {
        return NetFault::Failed;
    };
    if code == EADDRINUSE {
        NetFault::InUse
    } else if code == EADDRNOTAVAIL {
        NetFault::NoAddress
    } else if DENIED.contains(&code) {
        NetFault::Denied
    } else if NO_ROOM.contains(&code) {
        NetFault::NoRoom
    } else {
        NetFault::Failed
    }
}

/// What it says of a text that the system gave no address for it. Where no descriptor is left the system answers that it knows no such
/// name (getaddrinfo(3)), so it is asked for one.
pub fn fault_of_text<R: SystemNet>(rt: &R, error: &io::Error) -> NetFault {
    match error.kind() {
        ErrorKind::InvalidInput => NetFault::NoAddress,
        ErrorKind::OutOfMemory => NetFault::NoRoom,
        _ => match UdpSocket::bind(rt, (Ipv4Addr::LOCALHOST, 0)) {
            Err(error) if fault_of(error.raw_os_error()) == NetFault::NoRoom => NetFault::NoRoom,
            _ => NetFault::NoAddress,
        },
    }
}
