//! The asks that read a view.

ghost use Rattle.std.specs.Prelude.{◌≡◌, IfOk};
ghost use Rattle.zn_view.specs.Asks.{range_of, ranges_of, reading as reading_ask};

use crate::children::{children_end, children_start};
use crate::want::Want;
use ev_types::{Act, Ask, RangeReq, TxnReq};
use std::alloc::Global;
use zx_base::{Bytes, Memory, Seq};

/// The range that shows what is wanted: a key, or the keys of a node's children without their values.
fn range(alloc: Global, revision: i64, want: &Want) -> Result<RangeReq, Memory>
    ensures { IfOk result (λ r. r ≡ range_of revision want.now) }
{
    match want {
        Want::Key(key) => Ok(RangeReq {
            key: Bytes::copy_of(alloc, key.as_slice())?,
            end: Seq::new(alloc),
            revision,
            limit: 0,
            keys_only: false,
        }),
        Want::Children(path) => Ok(RangeReq {
            key: children_start(alloc, path)?,
            end: children_end(alloc, path)?,
            revision,
            limit: 0,
            keys_only: true,
        }),
    }
}

/// A range for each want, in their order, at this revision of an etcd; 0 is the present.
pub fn ranges(alloc: Global, revision: i64, wants: &[Want]) -> Result<Seq<Act>, Memory>
    ensures { IfOk result (λ acts. acts ≡ ranges_of revision wants.now) }
{
    let mut acts = Seq::new(alloc);
    for want in wants {
        acts.push(Act::Range(range(alloc, revision, want)?))?;
    }
    Ok(acts)
}

/// The ask that reads what is wanted at this revision: 0, the present, for a view's first round, and the view's revision for
/// each further one.
pub fn reading(alloc: Global, revision: i64, wants: &[Want]) -> Result<Ask, Memory>
    ensures { IfOk result (λ ask. ask ≡ reading_ask revision wants.now) }
{
    let success = ranges(alloc, revision, wants)?;
    Ok(Ask::Txn(TxnReq {
        guards: Seq::new(alloc),
        success,
        failure: Seq::new(alloc),
    }))
}
