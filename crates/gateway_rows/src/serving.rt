//! Rows of the gateway.

ghost use Rattle.std.specs.Prelude.{IfOk};
ghost use Rattle.ev_call.specs.Asks.{IsGrantable};

use crate::marks::{push_escaped, unescaped};
use crate::ticking::Ticking;
use ev_gateway::{GatewayEnd, gateway};
use ev_http::HttpFault;
use ev_shared::SharedStore;
use ev_store::Store;
use ev_types::{Act, Ask, TxnReq};
use row_files::{Words, push};
use std::alloc::Global;
use std::sync::Wait;
use std::time::Clock;
use zx_base::{Bytes, Memory, Seq};
use zx_outside::{MemSink, MemSource};

/// How the gateway ended, and what it sent.
pub fn served<R: Wait + Clock>(
    rt: &R,
    alloc: Global,
    given: &str,
) -> Result<Option<String>, Memory> {
    let Some((limit, rest)) = given.split_once(' ') else {
        return Ok(None);
    };
    let Some((step, bytes)) = rest.split_once(' ') else {
        return Ok(None);
    };
    let (Some(limit), Some(step)) = (Words::new(limit).place(), Words::new(step).place()) else {
        return Ok(None);
    };
    let store = SharedStore::new(alloc, Store::new(alloc)?);
    store.close(rt);
    serve(rt, alloc, &store, limit, step, bytes)
}

/// The same over a store that is open.
pub fn open<R: Wait + Clock>(rt: &R, alloc: Global, bytes: &str) -> Result<Option<String>, Memory> {
    let store = SharedStore::new(alloc, Store::new(alloc)?);
    serve(rt, alloc, &store, MANY, 0, bytes)
}

/// How many messages are answered at most: more than come.
const MANY: u64 = 9;

/// How often the key was put in such a store.
const PUTS: u32 = 3;

/// The transaction that puts `1` at the key `a`.
fn put(alloc: Global) -> Result<Ask, Memory>
    ensures { IfOk result (λ ask. IsGrantable ask) }
{
    let act = Act::Put {
        key: Bytes::copy_of(alloc, b"a".as_slice())?,
        value: Bytes::copy_of(alloc, b"1".as_slice())?,
        lease: 0,
    };
    let mut success = Seq::new(alloc);
    success.push(act)?;
    Ok(Ask::Txn(TxnReq {
        guards: Seq::new(alloc),
        success,
        failure: Seq::new(alloc),
    }))
}

/// The same over a store in which the key `a` was put at the revisions 2, 3 and 4, and which was then compacted to this one.
pub fn compacted<R: Wait + Clock>(
    rt: &R,
    alloc: Global,
    given: &str,
) -> Result<Option<String>, Memory> {
    let Some((floor, bytes)) = given.split_once(' ') else {
        return Ok(None);
    };
    let Some(floor) = Words::new(floor).number() else {
        return Ok(None);
    };
    let store = SharedStore::new(alloc, compacted_to(alloc, floor)?);
    store.close(rt);
    serve(rt, alloc, &store, MANY, 0, bytes)
}

/// Such a store.
fn compacted_to(alloc: Global, floor: u32) -> Result<Store, Memory> {
    let ask = put(alloc)?;
    let mut store = Store::new(alloc)?;
    for _ in 0..PUTS {
        let _answer = store.carry_out(&ask);
    }
    let _compacted = store.compact(i64::from(floor));
    Ok(store)
}

fn serve<R: Wait + Clock>(
    rt: &R,
    alloc: Global,
    store: &SharedStore,
    limit: u64,
    step: u64,
    bytes: &str,
) -> Result<Option<String>, Memory> {
    let mut source = MemSource::new(unescaped(alloc, bytes)?, Vec::new(alloc), Vec::new(alloc));
    let mut sink = MemSink::new(alloc, Vec::new(alloc));
    let mut clock = Ticking { now: 0, step };
    let end = gateway(rt, alloc, store, &mut source, &mut sink, &mut clock, limit);
    shown(alloc, name_of(end), sink.bytes())
}

/// The name of an end, and what was sent before it.
fn shown(alloc: Global, end: &str, sent: &[u8]) -> Result<Option<String>, Memory> {
    let mut found = String::from_str(alloc, end)?;
    push(&mut found, " ")?;
    push_escaped(&mut found, sent)?;
    Ok(Some(found))
}

fn name_of(end: GatewayEnd) -> &'static str {
    match end {
        GatewayEnd::Ended => "ended",
        GatewayEnd::Left => "left",
        GatewayEnd::Limit => "limit",
        GatewayEnd::Memory => "memory",
        GatewayEnd::Http(fault) => fault_of(fault),
    }
}

/// The name of a fault of HTTP.
pub fn fault_of(fault: HttpFault) -> &'static str {
    match fault {
        HttpFault::Head => "head",
        HttpFault::Status(_) => "status",
        HttpFault::Route => "route",
        HttpFault::Body { .. } => "body",
        HttpFault::TooLong { .. } => "too-long",
        HttpFault::Ended { .. } => "cut",
        HttpFault::Idle => "idle",
        HttpFault::ReadFault => "read",
        HttpFault::WriteFault => "write",
        HttpFault::Memory => "no-memory",
    }
}
