//! Copies of a transaction's guards and operations.

ghost use Rattle.std.specs.Prelude.{◌≡◌, IfOk};

use ev_types::{Act, Guard, RangeReq};
use std::alloc::Global;
use zx_base::{Bytes, Memory, Seq};

pub(crate) fn copy_guards(alloc: Global, guards: &[Guard]) -> Result<Seq<Guard>, Memory>
    ensures { IfOk result (λ copies. copies ≡ guards.now) }
{
    let mut copies = Seq::new(alloc);
    for guard in guards {
        copies.push(Guard {
            key: Bytes::copy_of(alloc, guard.key.as_slice())?,
            mod_revision: guard.mod_revision,
        })?;
    }
    Ok(copies)
}

fn copy_range(alloc: Global, range: &RangeReq) -> Result<RangeReq, Memory>
    ensures { IfOk result (λ copy. copy ≡ range.now) }
{
    Ok(RangeReq {
        key: Bytes::copy_of(alloc, range.key.as_slice())?,
        end: Bytes::copy_of(alloc, range.end.as_slice())?,
        revision: range.revision,
        limit: range.limit,
        keys_only: range.keys_only,
    })
}

fn copy_act(alloc: Global, act: &Act) -> Result<Act, Memory>
    ensures { IfOk result (λ copy. copy ≡ act.now) }
{
    match act {
        Act::Put { key, value, lease } => Ok(Act::Put {
            key: Bytes::copy_of(alloc, key.as_slice())?,
            value: Bytes::copy_of(alloc, value.as_slice())?,
            lease: *lease,
        }),
        Act::Delete { key } => Ok(Act::Delete {
            key: Bytes::copy_of(alloc, key.as_slice())?,
        }),
        Act::Range(range) => Ok(Act::Range(copy_range(alloc, range)?)),
    }
}

pub(crate) fn copy_acts(alloc: Global, acts: &[Act]) -> Result<Seq<Act>, Memory>
    ensures { IfOk result (λ copies. copies ≡ acts.now) }
{
    let mut copies = Seq::new(alloc);
    for act in acts {
        copies.push(copy_act(alloc, act)?)?;
    }
    Ok(copies)
}
