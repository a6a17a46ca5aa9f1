//! Rows of a lease that a store had before it was shared.

use crate::ticking::Ticking;
use ev_call::{CallFault, Etcd};
use ev_shared::{SharedLink, SharedStore};
use ev_store::Store;
use ev_types::{Answer, Ask};
use row_files::{Words, push, push_number};
use std::alloc::Global;
use std::sync::{Arc, Wait};
use zx_base::Memory;

/// The lease.
const LEASE: i64 = 7;

/// The seconds that two keepalives of the lease are answered, each after so many asks of another lease.
pub fn kept<R: Wait + Copy + Drop>(
    rt: R,
    alloc: Global,
    given: &str,
) -> Result<Option<String>, Memory> {
    let mut words = Words::new(given);
    let (Some(step), Some(seconds)) = (words.place(), words.number()) else {
        return Ok(None);
    };
    let (Some(before), Some(after)) = (words.number(), words.number()) else {
        return Ok(None);
    };
    let mut found = String::new(alloc);
    keep(rt, alloc, &mut found, step, seconds, before, after)?;
    Ok(Some(found))
}

fn keep<R: Wait + Copy + Drop>(
    rt: R,
    alloc: Global,
    found: &mut String,
    step: u64,
    seconds: u32,
    before: u32,
    after: u32,
) -> Result<(), Memory> {
    let store = SharedStore::new(alloc, granted(alloc, found, seconds)?);
    let mut link = SharedLink::new(rt, Arc::new(alloc, store)?, Ticking { now: 0, step });
    keep_after(alloc, found, &mut link, before)?;
    keep_after(alloc, found, &mut link, after)
}

/// A store with the lease. Adds whether it was granted.
fn granted(alloc: Global, found: &mut String, seconds: u32) -> Result<Store, Memory> {
    let mut store = Store::new(alloc)?;
    let granted = store.carry_out(&Ask::Grant {
        id: LEASE,
        ttl: i64::from(seconds),
    });
    push(found, if granted.is_ok() { "granted" } else { "denied" })?;
    Ok(store)
}

/// The seconds that a keepalive is answered, after so many asks of another lease.
fn keep_after<L: Etcd>(
    alloc: Global,
    found: &mut String,
    link: &mut L,
    asks: u32,
) -> Result<(), Memory> {
    for _ in 0..asks {
        let _other = link.call(&Ask::Alive { id: LEASE + 1 });
    }
    push_seconds(alloc, found, &link.call(&Ask::Alive { id: LEASE }))
}

fn push_seconds(
    alloc: Global,
    found: &mut String,
    answered: &Result<Answer, CallFault>,
) -> Result<(), Memory> {
    match answered {
        Ok(Answer::Alive { ttl, .. }) => push_number(alloc, found, " ", *ttl),
        Ok(_) => push(found, " other"),
        Err(CallFault::Failed) => push(found, " failed"),
        Err(CallFault::Memory) => push(found, " memory"),
    }
}
