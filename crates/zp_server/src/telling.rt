//! What an operator is told of clients, on standard error.

/// Tells that so many clients are served, and no more can be. Where standard error takes nothing, nobody is told.
pub fn tell_full<R: Eprint>(rt: &R, served: usize) {
    let _told = eprintln!(rt;
        "zetcd: {served} clients are served: further ones wait until one of them leaves"
    );
}

/// Tells which session a connection was given.
pub fn tell_session<R: Eprint>(rt: &R, number: u64, session: u64) {
    let _told = eprintln!(rt; "zetcd: connection {number}: session 0x{session:x}");
}
