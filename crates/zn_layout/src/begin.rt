//! The first transaction of a new store.

ghost use Rattle.std.specs.Prelude.{◌≡◌, ◌<◌, ◌^◌, pos, [], IfOk};
ghost use Rattle.zk_model.specs.Paths.{root};
ghost use Rattle.zn_layout.specs.Begin.{begin_ask as first_ask, begin_changes, new_record, first_counts};
ghost use Rattle.zn_layout.specs.Changes.{put_key, act_of, update_acts};
ghost use Rattle.zn_layout.specs.Keys.{DataKey, CountsKey};
ghost use Rattle.zn_layout.specs.Records.{node_value, counts_value};

use crate::act::{get_head, put_counts, put_head, put_node};
use crate::key::head_key;
use crate::record::{FIRST_COUNTS, HeadRec, NodeRec};
use ev_types::{Act, Ask, Guard, TxnReq};
use std::alloc::Global;
use zx_base::{Memory, Seq};

const ROOT: &[u8] = b"/";

/// Makes the root and the head of the first update where there is no head yet, and otherwise reads the head. `now` is the
/// time in milliseconds, below 2^62: the root's ctime and mtime.
#[tactic(auto, unfolding(crate::specs::Begin::begin_ask))]
pub fn begin_ask(alloc: Global, now: u64) -> Result<Ask, Memory>
    requires { now < 2 ^ 62 }
    ensures { IfOk result (λ a. a ≡ first_ask now) }
{
    let success = begin_success(alloc, now)?;
    let mut guards = Seq::new(alloc);
    guards.push(Guard {
        key: head_key(alloc)?,
        mod_revision: 0,
    })?;
    let mut failure = Seq::new(alloc);
    failure.push(get_head(alloc)?)?;
    Ok(Ask::Txn(TxnReq {
        guards,
        success,
        failure,
    }))
}

fn begin_success(alloc: Global, now: u64) -> Result<Seq<Act>, Memory>
    requires { now < 2 ^ 62 }
    ensures { IfOk result (λ acts. acts ≡ update_acts (begin_changes now) []) }
{
    let head = HeadRec {
        triggers: Seq::new(alloc),
    };
    let mut acts = Seq::new(alloc);
    acts.push(put_root(alloc, now)?)?;
    acts.push(put_no_counts(alloc)?)?;
    acts.push(put_head(alloc, &head)?)?;
    acts.push(get_head(alloc)?)?;
    Ok(acts)
}

fn put_root(alloc: Global, now: u64) -> Result<Act, Memory>
    requires { now < 2 ^ 62 }
    ensures { IfOk result (λ a. a ≡ act_of (put_key (DataKey root) (node_value (new_record [] now (pos 0))))) }
{
    let time = now as i64;
    let node = NodeRec {
        czxid: 0,
        version: 0,
        ctime: time,
        mtime: time,
        owner: 0,
        content: Seq::new(alloc),
    };
    put_node(alloc, ROOT, &node)
}

fn put_no_counts(alloc: Global) -> Result<Act, Memory>
    ensures { IfOk result (λ a. a ≡ act_of (put_key (CountsKey root) (counts_value first_counts))) }
{
    put_counts(alloc, ROOT, &FIRST_COUNTS)
}
