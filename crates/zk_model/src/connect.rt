//! The first packet of a connection and its answer (zookeeper.jute, `ConnectRequest`, `ConnectResponse`).

use zx_base::Bytes;

/// What a client says first on a connection: it begins a session, or resumes one.
#[derive(Drop)]
pub struct ConnectRequest {
    /// The version of the protocol, 0 in clients of release 3.4. The service does not look at it.
    pub protocol: i32,
    /// The greatest zxid that the client has seen.
    pub last_zxid: i64,
    /// The session timeout that the client asks for, in milliseconds.
    pub timeout: i32,
    /// The session to resume, or 0 for a new one.
    pub session: i64,
    /// The password of the session to resume. A new session gets one that the service chooses.
    pub passwd: Bytes,
    /// Whether the client would take a server that only reads. Absent in the requests of older clients.
    pub read_only: Option<bool>,
}

/// The answer to a connect: the session that the connection is attached to, or that it has none.
#[derive(Clone, Copy)]
pub struct ConnectResponse {
    /// The timeout granted, in milliseconds; 0 where the session was refused.
    pub timeout: i32,
    /// The session, or 0 where it was refused.
    pub session: i64,
    /// The session's password, by which it can be resumed; 16 zeros where it was refused.
    pub passwd: [u8; 16],
    /// Whether the server only reads. The service sends it exactly where the request had it, and then as false.
    pub read_only: Option<bool>,
}
