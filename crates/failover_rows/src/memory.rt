//! Rows of endpoints in memory.

use crate::asks::call_all;
use crate::noted::{Noted, push_tries};
use ev_failover::{FailoverLink, MemEndpoints};
use ev_store::Store;
use row_files::push_number;
use std::alloc::Global;
use zx_base::Memory;

/// The numbers of a word, with commas between them; none for `-`.
fn numbers(alloc: Global, word: &str) -> Result<Option<Vec<u64>>, Memory> {
    let mut numbers = Vec::new(alloc);
    if word == "-" {
        return Ok(Some(numbers));
    }
    for one in word.split(',') {
        let Some(number) = one.parse::<u64>().ok() else {
            return Ok(None);
        };
        numbers.push(number)?;
    }
    Ok(Some(numbers))
}

/// What the asks came to.
pub fn called(alloc: Global, given: &str) -> Result<Option<String>, Memory> {
    let Some((size, rest)) = given.split_once(' ') else {
        return Ok(None);
    };
    let Some((unsent, rest)) = rest.split_once(' ') else {
        return Ok(None);
    };
    let Some((failing, names)) = rest.split_once(' ') else {
        return Ok(None);
    };
    let Some(size) = size.parse::<u32>().ok() else {
        return Ok(None);
    };
    let (Some(unsent), Some(failing)) = (numbers(alloc, unsent)?, numbers(alloc, failing)?) else {
        return Ok(None);
    };
    call(alloc, size, unsent, failing, names)
}

fn call(
    alloc: Global,
    size: u32,
    unsent: Vec<u64>,
    failing: Vec<u64>,
    names: &str,
) -> Result<Option<String>, Memory> {
    let ends = MemEndpoints::new(alloc, size, Store::new(alloc)?, unsent, failing);
    let mut link = FailoverLink::new(Noted::new(alloc, ends));
    let Some(mut found) = call_all(alloc, &mut link, names)? else {
        return Ok(None);
    };
    push_tries(alloc, &mut found, link.ends())?;
    push_number(alloc, &mut found, "next ", i64::from(link.current()))?;
    Ok(Some(found))
}
