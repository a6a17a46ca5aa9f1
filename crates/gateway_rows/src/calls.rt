//! Rows of a link over HTTP.

ghost use Rattle.std.specs.Prelude.{IfOk};
ghost use Rattle.ev_call.specs.Addresses.{IsAddress};
ghost use Rattle.ev_call.specs.Asks.{IsGrantable};

use crate::hosts::OneHost;
use crate::marks::{push_escaped, unescaped};
use crate::serving::fault_of;
use ev_http::HttpFault;
use ev_json::write_answer;
use ev_link::{CallFault, Cluster, DialCluster, Etcd, HttpLink, LinkFailure};
use ev_types::{Act, Answer, Ask, RangeReq, TxnReq};
use row_files::{Words, push, push_number};
use std::alloc::Global;
use zx_base::{Bytes, Memory, Seq};
use zx_net::MemNet;
use zx_outside::{MemSink, MemSource};

/// What so many calls came to.
pub fn made(alloc: Global, given: &str) -> Result<Option<String>, Memory> {
    let Some((count, bytes)) = given.split_once(' ') else {
        return Ok(None);
    };
    let Some(count) = Words::new(count).number() else {
        return Ok(None);
    };
    let bytes = unescaped(alloc, bytes)?;
    Ok(Some(make(alloc, count, bytes)?))
}

/// What each request names as its host.
#[tactic(auto, using(ev_link::proofs::Local::local))]
fn host() -> &'static str
    ensures { IsAddress result.now }
{
    "localhost"
}

/// The ask for the key `zk/head`.
fn head_ask(alloc: Global) -> Result<Ask, Memory>
    ensures { IfOk result (λ ask. IsGrantable ask) }
{
    let read = Act::Range(RangeReq {
        key: Bytes::copy_of(alloc, b"zk/head".as_slice())?,
        end: Bytes::new(alloc),
        revision: 0,
        limit: 0,
        keys_only: false,
    });
    let mut success = Seq::new(alloc);
    success.push(read)?;
    Ok(Ask::Txn(TxnReq {
        guards: Seq::new(alloc),
        success,
        failure: Seq::new(alloc),
    }))
}

fn make(alloc: Global, count: u32, bytes: Vec<u8>) -> Result<String, Memory> {
    let source = MemSource::new(bytes, Vec::new(alloc), Vec::new(alloc));
    let sink = MemSink::new(alloc, Vec::new(alloc));
    let mut link = HttpLink::new(alloc, source, sink, host())?;
    let mut found = String::new(alloc);
    push_calls(alloc, &mut found, &mut link, count)?;
    push_failure(alloc, &mut found, link.last_failure())?;
    Ok(found)
}

/// Asks so many times over a link, and adds what each call came to.
fn push_calls<L: Etcd>(
    alloc: Global,
    found: &mut String,
    link: &mut L,
    count: u32,
) -> Result<(), Memory> {
    for _ in 0..count {
        push_call(alloc, found, link)?;
    }
    Ok(())
}

fn push_call<L: Etcd>(alloc: Global, found: &mut String, link: &mut L) -> Result<(), Memory> {
    let ask = head_ask(alloc)?;
    push_result(alloc, found, &link.call(&ask))
}

/// What so many calls of a link that dials came to, and one more after it was told its address anew.
pub fn dialled(alloc: Global, given: &str) -> Result<Option<String>, Memory> {
    let Some((failing, rest)) = given.split_once(' ') else {
        return Ok(None);
    };
    let Some((count, bytes)) = rest.split_once(' ') else {
        return Ok(None);
    };
    let (Some(failing), Some(count)) = (Words::new(failing).place(), Words::new(count).number())
    else {
        return Ok(None);
    };
    let bytes = unescaped(alloc, bytes)?;
    Ok(Some(dial(alloc, failing, count, bytes)?))
}

fn dial(alloc: Global, failing: u64, count: u32, bytes: Vec<u8>) -> Result<String, Memory> {
    let mut numbers = Vec::new(alloc);
    numbers.push(failing)?;
    let mut streams = Vec::new(alloc);
    streams.push(bytes)?;
    let mut link = DialCluster::new(alloc, MemNet::new(alloc, numbers, streams));
    call_anew(alloc, &mut link, count, host())
}

/// Asks so many times over a link, and once more after it was told this address.
fn call_anew<L: Cluster>(
    alloc: Global,
    link: &mut L,
    count: u32,
    address: &str,
) -> Result<String, Memory>
    requires { IsAddress address.now }
{
    let mut found = String::new(alloc);
    push_calls(alloc, &mut found, link, count)?;
    link.to(address)?;
    push(&mut found, "anew ")?;
    push_call(alloc, &mut found, link)?;
    push(&mut found, "end")?;
    Ok(found)
}

/// What a call of a link that dials came to where only this address can be dialled, and one more after it was told the address `x`.
pub fn named(alloc: Global, given: &str) -> Result<Option<String>, Memory> {
    let Some((address, bytes)) = given.split_once(' ') else {
        return Ok(None);
    };
    let bytes = unescaped(alloc, bytes)?;
    Ok(Some(dial_at(alloc, address, bytes)?))
}

/// Another address.
#[tactic(auto, using(crate::proofs::Named::named))]
fn other_host() -> &'static str
    ensures { IsAddress result.now }
{
    "x"
}

fn dial_at(alloc: Global, address: &str, bytes: Vec<u8>) -> Result<String, Memory> {
    let mut link = DialCluster::new(alloc, OneHost::new(alloc, address, bytes));
    call_anew(alloc, &mut link, 1, other_host())
}

fn push_failure(
    alloc: Global,
    found: &mut String,
    failure: Option<&LinkFailure>,
) -> Result<(), Memory> {
    match failure {
        None => push(found, "open"),
        Some(LinkFailure::Json(_)) => push(found, "json"),
        Some(LinkFailure::Http(HttpFault::Status(status))) => {
            push_number(alloc, found, "status ", i64::from(*status))
        }
        Some(LinkFailure::Http(fault)) => push(found, fault_of(*fault)),
    }
}

fn push_result(
    alloc: Global,
    found: &mut String,
    answered: &Result<Answer, CallFault>,
) -> Result<(), Memory> {
    match answered {
        Ok(answer) => push_escaped(found, write_answer(alloc, answer)?.as_slice())?,
        Err(CallFault::Failed) => push(found, "failed")?,
        Err(CallFault::Memory) => push(found, "memory")?,
    }
    push(found, " ")
}
