//! The head, as the store has it now.

ghost use Rattle.std.specs.Prelude.{◌≡◌, ℤ, Option, IfOk};
ghost use Rattle.ev_types.specs.Reads.{one_found};
ghost use Rattle.ev_types.specs.Store.{present};
ghost use Rattle.ev_types.specs.declared.answer.Answer.TheVariants as answers;
ghost use Rattle.ev_types.specs.declared.answer.Kv.{Kv as AnyKv};
ghost use Rattle.zn_layout.specs.Keys.{HeadKey};
ghost use Rattle.zn_layout.specs.StandsFor.{at};

use ev_store::{Store, StoreFault};
use ev_types::{Answer, Ask, Kv, RangeReq};
use std::alloc::Global;
use zn_layout::head_key;
use zx_base::{Bytes, Memory};

/// The key and value that a look at one key found, if it is there.
fn found_in(answer: Answer) -> Option<Kv>
    ensures { (rev : ℤ) (o : Option AnyKv) → answer ≡ answers.Range rev (one_found o) → result ≡ o }
{
    match answer {
        Answer::Range { found, .. } => {
            let mut kvs = found.kvs.into_vec();
            kvs.pop()
        }
        Answer::Txn { .. } => None,
        Answer::Granted { .. } => None,
        Answer::Alive { .. } => None,
    }
}

/// The head as the store has it, if it has one. The store stays as it is.
pub fn head_of(alloc: Global, store: &mut Store) -> Result<Option<Kv>, Memory>
    ensures same { store.new ≡ store.old }
    ensures head { IfOk result (λ head. head ≡ at (present store.old) HeadKey) }
{
    let ask = Ask::Range(RangeReq {
        key: head_key(alloc)?,
        end: Bytes::new(alloc),
        revision: 0,
        limit: 0,
        keys_only: false,
    });
    match store.carry_out(&ask) {
        Ok(answer) => Ok(found_in(answer)),
        Err(StoreFault::Denied(_denied)) => unreachable!(),
        Err(StoreFault::Memory) => Err(Memory),
    }
}
