//! A connect, from its request to its session.

use ev_types::Ask;
use zk_model::{ConnectRequest, ConnectResponse};
use zk_service::Fresh;
use zn_layout::LeaseRec;
use zn_view::Who;

/// What a connecting connection waits for.
#[derive(Clone, Copy)]
pub enum Phase {
    /// Nothing was asked yet.
    Unasked,
    /// The head, and the life of the session that is to be resumed.
    Looking,
    /// The lease of a new session.
    Granting,
    /// The transaction of a new session.
    Creating,
    /// A keepalive of the session that is to be resumed. Its life was seen as `life`, last put at revision `seen`.
    Keeping { seen: i64, life: LeaseRec },
    /// The life of the session and the head once more, after a keepalive that answered no seconds.
    LookingAgain,
    /// The transaction that attaches the session, whose life was seen as `life`, last put at revision `seen`.
    Attaching { seen: i64, life: LeaseRec },
    /// Nothing more.
    Over,
}

/// A connect and how far it has come.
#[derive(Drop)]
pub struct Connect {
    pub request: ConnectRequest,
    pub fresh: Fresh,
    pub phase: Phase,
}

/// What a step of a connect answers.
#[derive(Drop)]
pub enum ConnectStep {
    /// This is to be carried out; the next step takes its answer.
    Ask(Ask),
    /// The session is attached to this connection.
    Attached {
        response: ConnectResponse,
        who: Who,
        /// The session's timeout, in milliseconds.
        timeout: i32,
        /// The number of the update that attached it.
        number: i64,
        /// The zxid of that update.
        zxid: i64,
    },
    /// The client has seen a zxid, `client`, that is greater than that of the last update, `head`. It gets no answer.
    Ahead {
        client: i64,
        head: i64,
    },
    /// There is no session of that number and password: the client is refused.
    Unknown,
    /// The fresh number is in use at this revision. The client gets no answer.
    Taken {
        rev: i64,
    },
}
