//! The asks of a row.

ghost use Rattle.std.specs.Prelude.{IfOk, IfSome};
ghost use Rattle.ev_call.specs.Asks.{IsGrantable};

use ev_call::{CallFault, Etcd};
use ev_types::{Act, Answer, Ask, RangeReq, TxnReq};
use row_files::{push, push_number};
use std::alloc::Global;
use zn_layout::begin_ask;
use zx_base::{Bytes, Memory, Seq};

/// The range of the key `zk/head`.
fn head_range(alloc: Global) -> Result<RangeReq, Memory> {
    Ok(RangeReq {
        key: Bytes::copy_of(alloc, b"zk/head".as_slice())?,
        end: Bytes::new(alloc),
        revision: 0,
        limit: 0,
        keys_only: false,
    })
}

/// A transaction without guards, with at most one operation in each of its lists.
fn transaction(alloc: Global, first: Act, other: Option<Act>) -> Result<Ask, Memory>
    ensures { IfOk result (λ ask. IsGrantable ask) }
{
    let mut success = Seq::new(alloc);
    success.push(first)?;
    let mut failure = Seq::new(alloc);
    if let Some(other) = other {
        failure.push(other)?;
    }
    Ok(Ask::Txn(TxnReq {
        guards: Seq::new(alloc),
        success,
        failure,
    }))
}

/// A put of the key `zk/head`.
fn head_put(alloc: Global) -> Result<Act, Memory> {
    Ok(Act::Put {
        key: Bytes::copy_of(alloc, b"zk/head".as_slice())?,
        value: Bytes::new(alloc),
        lease: 0,
    })
}

/// The ask of this name.
fn ask_of(alloc: Global, name: &str) -> Result<Option<Ask>, Memory>
    ensures { IfOk result (λ found. IfSome found (λ ask. IsGrantable ask)) }
{
    if name == "head" {
        let read = Act::Range(head_range(alloc)?);
        return Ok(Some(transaction(alloc, read, None)?));
    }
    if name == "else" {
        let read = Act::Range(head_range(alloc)?);
        let put = head_put(alloc)?;
        return Ok(Some(transaction(alloc, read, Some(put))?));
    }
    if name == "begin" {
        let Ask::Txn(first) = begin_ask(alloc, 0)? else {
            return Ok(None);
        };
        return Ok(Some(Ask::Txn(first)));
    }
    if name == "range" {
        return Ok(Some(Ask::Range(head_range(alloc)?)));
    }
    if name == "alive" {
        return Ok(Some(Ask::Alive { id: 7 }));
    }
    if name == "grant" {
        return Ok(Some(Ask::Grant { id: 7, ttl: 2 }));
    }
    Ok(None)
}

/// Makes the calls of the asks of these names, with blanks between them, and says what each came to. `None` where one is no ask.
pub fn call_all<L: Etcd>(
    alloc: Global,
    link: &mut L,
    names: &str,
) -> Result<Option<String>, Memory> {
    let mut found = String::new(alloc);
    for name in names.split(' ') {
        let Some(ask) = ask_of(alloc, name)? else {
            return Ok(None);
        };
        let answered = link.call(&ask);
        push_result(alloc, &mut found, &answered)?;
    }
    Ok(Some(found))
}

fn push_result(
    alloc: Global,
    found: &mut String,
    answered: &Result<Answer, CallFault>,
) -> Result<(), Memory> {
    match answered {
        Ok(answer) => push_number(alloc, found, "ok ", answer.revision())?,
        Err(CallFault::Failed) => push(found, "failed")?,
        Err(CallFault::Memory) => push(found, "memory")?,
    }
    push(found, "; ")
}
