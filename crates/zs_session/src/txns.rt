//! The transactions of a session.

ghost use Rattle.std.specs.Prelude.{◌≡◌, pos, ◌≤ℤ◌, [], IfOk, OnOk, ◌++◌};
ghost use Rattle.zk_model.specs.Limits.{min_timeout, max_timeout};
ghost use Rattle.zn_layout.specs.Changes.{act_of, put_key, update_acts};
ghost use Rattle.zn_layout.specs.Records.{session_value, IsLeaseRec};
ghost use Rattle.zs_session.specs.Sessions.{attach_changes, attach_guards, attach_txn as txn_of_attach, new_session_changes, new_session_guards, new_session_txn as txn_of_session, no_nodes, next_attach as attach_after, next_life as life_after, nodes_key, put_life as change_of_life};

use crate::asks::{attach_wants, session_wants};
use ev_types::{Act, Guard, TxnReq};
use std::alloc::Global;
use zk_service::Fresh;
use zn_layout::{
    HeadRec, LeaseRec, SessionRec, get_head, lease_key, put_head, session_key, write_lease,
    write_session,
};
use zn_view::ranges;
use zx_base::{Bytes, Memory, Seq};

/// Puts the record of a session's life, attached to its lease.
fn put_life(alloc: Global, id: i64, life: &LeaseRec) -> Result<Act, Memory>
    requires least { pos 1 ≤ℤ id }
    requires bounded { IsLeaseRec life.now }
    ensures { IfOk result (λ act. act ≡ act_of (change_of_life id life.now)) }
{
    Ok(Act::Put {
        key: lease_key(alloc, id)?,
        value: Bytes::from_vec(write_lease(alloc, life)?),
        lease: id,
    })
}

/// Puts the list of the nodes of a session that owns none.
fn put_no_nodes(alloc: Global, fresh: &Fresh) -> Result<Act, Memory>
    requires { pos 1 ≤ℤ fresh.now.id }
    ensures { IfOk result (λ act. act ≡ act_of (put_key (nodes_key fresh.now.id) (session_value (no_nodes fresh.now.layout)))) }
{
    let none = SessionRec {
        layout: fresh.layout,
        paths: Seq::new(alloc),
    };
    let key = session_key(alloc, fresh.id)?;
    Ok(Act::Put {
        key,
        value: Bytes::from_vec(write_session(alloc, &none)?),
        lease: 0,
    })
}

/// Puts the head of an update that no watch sees, and reads it.
fn push_head(acts: &mut Seq<Act>, alloc: Global) -> Result<(), Memory>
    ensures { OnOk result (acts.new ≡ acts.old ++ update_acts [] []) }
{
    let none = HeadRec {
        triggers: Seq::new(alloc),
    };
    acts.push(put_head(alloc, &none)?)?;
    acts.push(get_head(alloc)?)
}

fn new_session_acts(alloc: Global, fresh: &Fresh, timeout: i32) -> Result<Seq<Act>, Memory>
    requires least { pos 1 ≤ℤ fresh.now.id }
    requires timeout_least { min_timeout ≤ℤ timeout }
    requires timeout_most { timeout ≤ℤ max_timeout }
    ensures { IfOk result (λ acts. acts ≡ update_acts (new_session_changes fresh.now timeout) []) }
{
    let life = LeaseRec {
        timeout,
        attaches: 1,
        passwd: fresh.passwd,
    };
    let mut acts = Seq::new(alloc);
    acts.push(put_life(alloc, fresh.id, &life)?)?;
    acts.push(put_no_nodes(alloc, fresh)?)?;
    push_head(&mut acts, alloc)?;
    Ok(acts)
}

fn absence_guards(alloc: Global, id: i64) -> Result<Seq<Guard>, Memory>
    requires { pos 1 ≤ℤ id }
    ensures { IfOk result (λ guards. guards ≡ new_session_guards id) }
{
    let mut guards = Seq::new(alloc);
    guards.push(Guard {
        key: lease_key(alloc, id)?,
        mod_revision: 0,
    })?;
    guards.push(Guard {
        key: session_key(alloc, id)?,
        mod_revision: 0,
    })?;
    Ok(guards)
}

/// The transaction of a new session: neither of its keys is there, and both are put. The timeout is in milliseconds.
pub(crate) fn new_session_txn(alloc: Global, fresh: &Fresh, timeout: i32) -> Result<TxnReq, Memory>
    requires least { pos 1 ≤ℤ fresh.now.id }
    requires timeout_least { min_timeout ≤ℤ timeout }
    requires timeout_most { timeout ≤ℤ max_timeout }
    ensures { IfOk result (λ txn. txn ≡ txn_of_session fresh.now timeout) }
{
    let wants = session_wants(alloc, fresh.id)?;
    Ok(TxnReq {
        guards: absence_guards(alloc, fresh.id)?,
        success: new_session_acts(alloc, fresh, timeout)?,
        failure: ranges(alloc, 0, wants.as_slice())?,
    })
}

/// One attachment more; after the greatest number comes 1.
fn next_attach(attaches: i64) -> i64
    ensures { result ≡ attach_after attaches }
{
    if attaches == i64::MAX {
        1
    } else {
        attaches + 1
    }
}

fn next_life(life: &LeaseRec) -> LeaseRec
    requires { IsLeaseRec life.now }
    ensures is { result ≡ life_after life.now }
    ensures bounded { IsLeaseRec result }
{
    LeaseRec {
        timeout: life.timeout,
        attaches: next_attach(life.attaches),
        passwd: life.passwd,
    }
}

fn attach_acts(alloc: Global, id: i64, life: &LeaseRec) -> Result<Seq<Act>, Memory>
    requires least { pos 1 ≤ℤ id }
    requires bounded { IsLeaseRec life.now }
    ensures { IfOk result (λ acts. acts ≡ update_acts (attach_changes id life.now) []) }
{
    let next = next_life(life);
    let mut acts = Seq::new(alloc);
    acts.push(put_life(alloc, id, &next)?)?;
    push_head(&mut acts, alloc)?;
    Ok(acts)
}

fn life_guards(alloc: Global, id: i64, seen: i64) -> Result<Seq<Guard>, Memory>
    requires { pos 1 ≤ℤ id }
    ensures { IfOk result (λ guards. guards ≡ attach_guards id seen) }
{
    let mut guards = Seq::new(alloc);
    guards.push(Guard {
        key: lease_key(alloc, id)?,
        mod_revision: seen,
    })?;
    Ok(guards)
}

/// The transaction that attaches a session whose life was seen as `life`, last put at revision `seen`.
pub(crate) fn attach_txn(
    alloc: Global,
    id: i64,
    seen: i64,
    life: &LeaseRec,
) -> Result<TxnReq, Memory>
    requires least { pos 1 ≤ℤ id }
    requires bounded { IsLeaseRec life.now }
    ensures { IfOk result (λ txn. txn ≡ txn_of_attach id seen life.now) }
{
    let wants = attach_wants(alloc, id)?;
    Ok(TxnReq {
        guards: life_guards(alloc, id, seen)?,
        success: attach_acts(alloc, id, life)?,
        failure: ranges(alloc, 0, wants.as_slice())?,
    })
}
