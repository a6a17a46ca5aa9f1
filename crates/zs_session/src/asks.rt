//! What is read for a session, and the lease of a new one.

ghost use Rattle.std.specs.Prelude.{◌≡◌, pos, ◌≤ℤ◌, IfOk};
ghost use Rattle.zk_service.specs.States.{granted_timeout as timeout_by};
ghost use Rattle.zs_session.specs.Sessions.{lease_seconds as seconds_of, session_wants as wants_of_session, attach_wants as wants_of_attach, first_wants as wants_of_first};

use std::alloc::Global;
use zk_model::ConnectRequest;
use zk_model::limit::{MAX_TIMEOUT, MIN_TIMEOUT};
use zn_layout::{head_key, lease_key, session_key};
use zn_view::{Want, head_wants};
use zx_base::{Memory, Seq};

/// A requested timeout, brought into the service's range. Both are in milliseconds.
pub(crate) fn granted_timeout(asked: i32) -> i32
    ensures { result ≡ timeout_by asked }
{
    if asked < MIN_TIMEOUT {
        MIN_TIMEOUT
    } else if MAX_TIMEOUT < asked {
        MAX_TIMEOUT
    } else {
        asked
    }
}

/// The seconds of a lease for a timeout in milliseconds, rounded up.
pub(crate) fn lease_seconds(timeout: i32) -> i64
    ensures { result ≡ seconds_of timeout }
{
    i64::from((timeout.unsigned_abs() + 999) / 1000)
}

/// The keys of a session, its life and its nodes, and the head.
pub(crate) fn session_wants(alloc: Global, id: i64) -> Result<Seq<Want>, Memory>
    requires { pos 1 ≤ℤ id }
    ensures { IfOk result (λ wants. wants ≡ wants_of_session id) }
{
    let mut wants = Seq::new(alloc);
    wants.push(Want::Key(lease_key(alloc, id)?))?;
    wants.push(Want::Key(session_key(alloc, id)?))?;
    wants.push(Want::Key(head_key(alloc)?))?;
    Ok(wants)
}

/// What an attachment of a session looks up: the record of its life, and the head. The session's number is at least 1.
pub fn attach_wants(alloc: Global, id: i64) -> Result<Seq<Want>, Memory>
    requires { pos 1 ≤ℤ id }
    ensures { IfOk result (λ wants. wants ≡ wants_of_attach id) }
{
    let mut wants = Seq::new(alloc);
    wants.push(Want::Key(lease_key(alloc, id)?))?;
    wants.push(Want::Key(head_key(alloc)?))?;
    Ok(wants)
}

/// What is looked up first for a connect: the head, and the life of the session that is to be resumed. A number below 1 has none.
pub(crate) fn first_wants(alloc: Global, request: &ConnectRequest) -> Result<Seq<Want>, Memory>
    ensures { IfOk result (λ wants. wants ≡ wants_of_first request.now) }
{
    if request.session < 1 {
        return head_wants(alloc);
    }
    attach_wants(alloc, request.session)
}
