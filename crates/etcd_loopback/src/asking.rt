//! Asks an etcd what lines spell.

ghost use Rattle.std.specs.Prelude.{◌≢◌, IfSome};
ghost use Rattle.ev_call.specs.Asks.{IsGrantable};
ghost use Rattle.ev_types.specs.declared.route.Route.TheVariants as routes;

use crate::client::host;
use anyhow::{Result, bail};
use ev_json::{read_ask, what_is_read_fits, write_answer};
use ev_link::{Etcd, HttpLink};
use ev_types::{Ask, Route};
use std::alloc::Global;
use zx_base::Memory;
use zx_net::Net;
use zx_outside::{Sink, Source};

/// The route of this name, if it is one that asks.
fn route_of(name: &str) -> Option<Route>
    ensures { IfSome result (λ route. route ≢ routes.Watch) }
{
    match name {
        "/v3/kv/txn" => Some(Route::Txn),
        "/v3/kv/range" => Some(Route::Range),
        "/v3/lease/grant" => Some(Route::Grant),
        "/v3/lease/keepalive" => Some(Route::Alive),
        _ => None,
    }
}

/// The ask that a line spells: its route, a blank, and its body.
#[tactic(auto, using(ev_gateway::proofs::Reading::grantable))]
fn ask_of(alloc: Global, line: &str) -> Option<Ask>
    ensures { IfSome result (λ ask. IsGrantable ask) }
{
    let (name, body) = line.split_once(' ')?;
    let route = route_of(name)?;
    match read_ask(alloc, route, body.as_bytes()) {
        Ok(ask) => {
            what_is_read_fits();
            Some(ask)
        }
        Err(_) => None,
    }
}

/// The text of the answer to the ask that a line spells.
fn answer_to<S: Source + Drop, K: Sink + Drop>(
    alloc: Global,
    link: &mut HttpLink<S, K>,
    line: &str,
) -> Result<String> {
    let Some(ask) = ask_of(alloc, line) else {
        bail!("this is no ask: {line}");
    };
    let Ok(answer) = link.call(&ask) else {
        bail!("no answer to {line}");
    };
    match write_answer(alloc, &answer) {
        Ok(text) => Ok(String::from_utf8(text)?),
        Err(Memory) => bail!("out of memory"),
    }
}

/// Asks the etcd at this address, over one link, what the lines of standard input spell, and writes its answers, a line each.
pub fn ask_all<N: Net>(rt: &HostRuntime, net: &mut N, address: &str) -> Result<()> {
    let alloc = rt.alloc();
    let Ok((source, sink)) = net.dial(address) else {
        bail!("{address} cannot be dialled");
    };
    let Ok(mut link) = HttpLink::new(alloc, source, sink, host()) else {
        bail!("out of memory");
    };
    for line in rt.lines(alloc) {
        let line = line?;
        let answer = answer_to(alloc, &mut link, line.as_str())?;
        println!(rt; "{answer}")?;
    }
    Ok(())
}
