//! What bounds a multi: the load of its parts, and the row of codes where one of them is refused (`multi` of the ZooKeeper API).

ghost use Rattle.std.specs.Prelude.{◌≡◌, ◌∷◌, [], ◌+◌, ◌++◌, ◌<◌, ℕ, length, replicate, sum_by, IfOk};
ghost use Rattle.zk_model.specs.Loads.{within};
ghost use Rattle.zk_model.specs.Multi.{data_len, distinct, row_of};
ghost use Rattle.zk_model.specs.declared.reply.PartResult.TheVariants.{Code};

use crate::code::{OK, RUNTIME_INCONSISTENCY};
use crate::limit::MAX_LOAD;
use crate::path::Path;
use crate::reply::PartResult;
use crate::request::Part;
use std::alloc::Global;
use std::collections::BTreeSet;
use zx_base::Memory;

/// Some items followed by others.
pub fn joined<T: Drop>(first: Vec<T>, rest: Vec<T>) -> Result<Vec<T>, Memory>
    ensures { IfOk result (λ v. v.items ≡ first.items ++ rest.items) }
{
    let mut all = first;
    let mut more = rest;
    all.append(&mut more)?;
    Ok(all)
}

/// One item.
pub fn listed<T: Drop>(alloc: Global, item: T) -> Result<Vec<T>, Memory>
    ensures { IfOk result (λ v. v.items ≡ item ∷ []) }
{
    let mut items = Vec::new(alloc);
    items.push(item)?;
    Ok(items)
}

/// A sum and some more, or `None` above 1,000,000.
fn add_within(sum: Option<usize>, more: usize) -> Option<usize>
    ensures { (n : ℕ) → sum ≡ within n → result ≡ within (n + more) }
{
    match sum {
        Some(sum) if more <= MAX_LOAD && sum <= MAX_LOAD - more => Some(sum + more),
        _ => None,
    }
}

/// How many bytes of data a part has.
fn data_len(part: &Part) -> usize
    ensures { result ≡ data_len part.now }
{
    match part {
        Part::Create { content, .. } => content.len(),
        Part::SetData { content, .. } => content.len(),
        _ => 0,
    }
}

/// How many bytes of data all parts have together, or `None` above 1,000,000.
pub fn data_load(parts: &[Part]) -> Option<usize>
    ensures { result ≡ within (sum_by data_len parts.now) }
{
    let mut sum = Some(0);
    for part in parts {
        sum = add_within(sum, data_len(part));
    }
    sum
}

/// How many bytes these paths have, added to a sum, or `None` above 1,000,000.
pub fn path_load(paths: &[Path], before: Option<usize>) -> Option<usize>
    ensures { (n : ℕ) → before ≡ within n → result ≡ within (n + sum_by length paths.now) }
{
    let mut sum = before;
    for path in paths {
        sum = add_within(sum, path.bytes().len());
    }
    sum
}

/// Each session once, in the order of their numbers.
pub fn distinct(alloc: Global, sessions: &[i64]) -> Result<Vec<i64>, Memory>
    ensures { IfOk result (λ v. v.items ≡ distinct sessions.now) }
{
    let mut once = BTreeSet::new(alloc);
    for session in sessions {
        once.insert(*session)?;
    }
    Ok(once.iter().copied().collect(alloc)?)
}

/// A row of `len` times the same code.
fn codes(alloc: Global, len: usize, code: i32) -> Result<Vec<PartResult>, Memory>
    ensures { IfOk result (λ v. v.items ≡ replicate len (Code code)) }
{
    let mut row = Vec::new(alloc);
    for _ in 0..len {
        row.push(PartResult::Code(code))?;
    }
    Ok(row)
}

/// The codes of a transaction's `len` parts where the one at `place` is refused with `code`: 0 for each part before it,
/// `RUNTIMEINCONSISTENCY` for each after it (`KeeperException.Code`).
pub fn row_of(alloc: Global, len: usize, place: usize, code: i32) -> Result<Vec<PartResult>, Memory>
    requires { place < len }
    ensures { IfOk result (λ row. row.items ≡ row_of len place code) }
{
    let earlier = codes(alloc, place, OK)?;
    let refused = listed(alloc, PartResult::Code(code))?;
    let later = codes(alloc, len - place - 1, RUNTIME_INCONSISTENCY)?;
    Ok(joined(earlier, joined(refused, later)?)?)
}
