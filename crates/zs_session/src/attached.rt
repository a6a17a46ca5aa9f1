//! The session that a connection got.

ghost use Rattle.std.specs.Prelude.{◌≡◌};
ghost use Rattle.zn_layout.specs.Keys.{HeadKey, key_bytes};
ghost use Rattle.zn_view.specs.Asks.{kept_under};
ghost use Rattle.zn_view.specs.Seen.{head_number};
ghost use Rattle.zs_session.specs.Connecting.{number_shown, attached as attached_by};

use crate::connect::ConnectStep;
use ev_types::{ActAns, Kv};
use zk_model::{ConnectRequest, ConnectResponse};
use zk_service::answered_read_only;
use zn_layout::HEAD_NAME;
use zn_view::{Who, last_found};

/// The version of the head among what was found, 0 without one.
#[tactic(auto, unfolding(zn_layout::specs::Keys::key_bytes))]
fn number_among(kvs: &[Kv]) -> i64
    ensures { result ≡ head_number (kept_under (key_bytes HeadKey) kvs.now) }
{
    for kv in kvs {
        if kv.key.is(HEAD_NAME) {
            return kv.version;
        }
    }
    0
}

/// The number of an update, by the head that the answer of its transaction shows in its last part: 0 where that shows none.
pub fn number_in(parts: &[ActAns]) -> i64
    ensures { result ≡ number_shown parts.now }
{
    number_among(last_found(parts))
}

/// The session `id` is attached by the transaction of this zxid, whose answer has these parts. The timeout is in
/// milliseconds.
pub(crate) fn attached(
    request: &ConnectRequest,
    id: i64,
    timeout: i32,
    passwd: [u8; 16],
    zxid: i64,
    parts: &[ActAns],
) -> ConnectStep
    ensures { result ≡ attached_by request.now id timeout passwd zxid parts.now }
{
    ConnectStep::Attached {
        response: ConnectResponse {
            timeout,
            session: id,
            passwd,
            read_only: answered_read_only(request),
        },
        who: Who {
            session: id,
            mine: zxid,
        },
        timeout,
        number: number_in(parts),
        zxid,
    }
}
