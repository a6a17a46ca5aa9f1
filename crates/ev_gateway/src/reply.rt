//! What an ask over HTTP is answered.

ghost use Rattle.std.specs.Prelude.{◌≡◌, ◌≢◌, ◌<◌, IfOk};
ghost use Rattle.ev_types.specs.declared.route.Route.TheVariants as routes;
ghost use Rattle.ev_call.specs.Asks.{IsGrantable};
ghost use Rattle.ev_gateway.specs.Serving.{Replies, Settles, denied_text, unreadable_text};

use ev_json::{JsonFault, read_ask, what_is_read_fits, write_answer};
use ev_shared::SharedStore;
use ev_store::StoreFault;
use ev_types::{Ask, Route};
use std::alloc::Global;
use std::sync::Wait;
use zx_base::Memory;

/// The status of an answer.
const OK: u16 = 200;

/// The status of a refusal.
pub const BAD_REQUEST: u16 = 400;

/// A status with a body.
#[derive(Drop)]
pub struct Reply {
    pub status: u16,
    pub text: Vec<u8>,
}

#[tactic(auto, unfolding(crate::specs::Serving::denied_text))]
fn denied() -> &'static str
    ensures { result.now ≡ denied_text }
{
    "{\"error\":\"denied\"}"
}

#[tactic(auto, unfolding(crate::specs::Serving::unreadable_text))]
fn unreadable() -> &'static str
    ensures { result.now ≡ unreadable_text }
{
    "{\"error\":\"unreadable\"}"
}

/// The reply to a body that cannot be read.
pub fn refusal(alloc: Global) -> Result<Reply, Memory>
    ensures status { IfOk result (λ r. r.status ≡ 400) }
    ensures text { IfOk result (λ r. r.text.items ≡ unreadable_text) }
{
    Ok(Reply {
        status: BAD_REQUEST,
        text: Vec::from_slice(alloc, unreadable().as_bytes())?,
    })
}

/// The reply to an ask, once the store carried it out or denied it.
fn settle<R: Wait>(
    rt: &R,
    alloc: Global,
    store: &SharedStore,
    now: u64,
    ask: &Ask,
) -> Result<Reply, Memory>
    requires { IsGrantable ask.now }
    ensures { IfOk result (λ r. Settles ask.now r.status r.text.items) }
{
    match store.call_at(rt, now, ask) {
        Ok(answer) => Ok(Reply {
            status: OK,
            text: write_answer(alloc, &answer)?,
        }),
        Err(StoreFault::Denied(_)) => Ok(Reply {
            status: BAD_REQUEST,
            text: Vec::from_slice(alloc, denied().as_bytes())?,
        }),
        Err(StoreFault::Memory) => Err(Memory),
    }
}

/// The reply to a request that is no watch.
#[tactic(auto, using(crate::proofs::Reading::grantable))]
pub fn reply_to<R: Wait>(
    rt: &R,
    alloc: Global,
    store: &SharedStore,
    now: u64,
    route: Route,
    body: &[u8],
) -> Result<Reply, Memory>
    requires { route ≢ routes.Watch }
    ensures { IfOk result (λ r. Replies route body.now r.status r.text.items) }
{
    match read_ask(alloc, route, body) {
        Ok(ask) => {
            what_is_read_fits();
            settle(rt, alloc, store, now, &ask)
        }
        Err(JsonFault::Memory) => Err(Memory),
        Err(_) => refusal(alloc),
    }
}
