//! Rows of endpoints that are dialled.

use crate::asks::call_all;
use crate::hosts::Hosts;
use ev_addresses::{is_address, next_of};
use ev_failover::{Cluster, DialEndpoints, FailoverLink};
use row_files::{push, push_number};
use std::alloc::Global;
use zx_base::Memory;

/// What the asks came to, and what was dialled. The list `-` is not told.
pub fn called(alloc: Global, given: &str) -> Result<Option<String>, Memory> {
    let Some((list, names)) = given.split_once(' ') else {
        return Ok(None);
    };
    let mut link = FailoverLink::new(DialEndpoints::new(alloc, Hosts::new(alloc)));
    if list != "-" {
        if !is_address(list) {
            return Ok(None);
        }
        link.to(list)?;
    }
    let Some(mut found) = call_all(alloc, &mut link, names)? else {
        return Ok(None);
    };
    push(&mut found, "dialled")?;
    push(&mut found, link.ends().net().dialled())?;
    push_number(alloc, &mut found, ", next ", i64::from(link.current()))?;
    Ok(Some(found))
}

/// The number of the address that is dialled after the one with this number.
pub fn after(alloc: Global, given: &str) -> Result<Option<String>, Memory> {
    let Some((list, at)) = given.split_once(' ') else {
        return Ok(None);
    };
    let Some(at) = at.parse::<u32>().ok() else {
        return Ok(None);
    };
    let next = next_of(list, at as usize);
    let mut found = String::new(alloc);
    push_number(alloc, &mut found, "", i64::from(next as u32))?;
    Ok(Some(found))
}
