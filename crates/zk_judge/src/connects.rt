//! The answers to a connect.

ghost use Rattle.std.specs.Prelude.{◌≡◌, ◌+◌, ◌<◌, ◌↔◌, length, option_map, IfOk, IsTrue};
ghost use Rattle.zk_jute.specs.Packets.{connect_packet};
ghost use Rattle.zk_transcript.specs.History.{state_at};
ghost use Rattle.zk_service.specs.Answers.{is_other_session as is_other_session_of, may_refuse as may_refuse_of, refusal, welcome};
ghost use Rattle.zk_judge.specs.Staged.{IsWelcomeTo};

use crate::index::Index;
use crate::walker::Party;
use std::alloc::Global;
use zk_history::{Session, State};
use zk_model::{ConnectRequest, ConnectResponse};
use zk_service::answered_read_only;
use zk_wire::write_connect;
use zx_base::{Bytes, Memory};

/// A password of 16 bytes as an array.
fn password(bytes: &[u8]) -> [u8; 16]
    requires { length bytes.now ≡ 16 }
    ensures { result ≡ bytes.now }
{
    let mut passwd = [0; 16];
    passwd.as_mut_slice().copy_from_slice(bytes);
    passwd
}

/// The packet that welcomes a connect to its session.
fn welcome_packet(
    alloc: Global,
    request: &ConnectRequest,
    id: i64,
    session: &Session,
) -> Result<Bytes, Memory>
    requires { length session.now.passwd ≡ 16 }
    ensures { IfOk result (λ b. b ≡ connect_packet (welcome request.now id session.now)) }
{
    let response = ConnectResponse {
        timeout: session.timeout(),
        session: id,
        passwd: password(session.passwd()),
        read_only: answered_read_only(request),
    };
    Ok(Bytes::from_vec(write_connect(alloc, &response)?))
}

/// The packet that refuses a connect.
pub fn refusal_packet(alloc: Global, request: &ConnectRequest) -> Result<Bytes, Memory>
    ensures { IfOk result (λ b. b ≡ connect_packet (refusal request.now)) }
{
    let response = ConnectResponse {
        timeout: 0,
        session: 0,
        passwd: [0; 16],
        read_only: answered_read_only(request),
    };
    Ok(Bytes::from_vec(write_connect(alloc, &response)?))
}

fn is_other_session(request: &ConnectRequest, session: Option<&Session>) -> bool
    ensures { result ≡ is_other_session_of request.now (option_map (λ s. s.now) session.entry) }
{
    match session {
        None => true,
        Some(session) => session.is_lapsed() || !request.passwd.is(session.passwd()),
    }
}

/// Whether a state lets this connect be refused: it names a session, its client has seen no zxid above the state's, and the session
/// is not open, has lapsed or has another password.
pub fn may_refuse(request: &ConnectRequest, state: &State) -> bool
    ensures { result ≡ may_refuse_of request.now state.now }
{
    request.session != 0
        && request.last_zxid <= state.zxid()
        && is_other_session(request, state.session(request.session))
}

/// Whether the first packet is the welcome to the session, and stands after the line at `place`, which attached it.
pub fn is_welcomed(
    alloc: Global,
    index: &Index,
    state: &State,
    party: Party,
    place: usize,
    first: usize,
    bytes: &[u8],
) -> Result<bool, Memory>
    requires { state.now ≡ state_at index.now.lines.now (place + 1) }
    ensures { IfOk result (λ b. IsTrue b ↔ IsWelcomeTo index.now.lines.now party place (first, bytes.now) state.now) }
{
    let Some(request) = index.connect(alloc, party.connection)? else {
        return Ok(false);
    };
    let Some(session) = state.session(party.session) else {
        return Ok(false);
    };
    let packet = welcome_packet(alloc, &request, party.session, session)?;
    Ok(place < first && packet.is(bytes))
}
