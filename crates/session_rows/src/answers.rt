//! Answers of the etcd, tested before they are handed in.

ghost use Rattle.std.specs.Prelude.{IfOk, IfSome, IsTrue};
ghost use Rattle.ev_store.specs.Asks.{IsGrantable};
ghost use Rattle.zs_session.specs.Answering.{HasTxnNumbers, IsAnswerTo};

use ev_store::{Denied, Store, StoreFault};
use ev_types::{Answer, Ask};
use row_files::{push, push_number};
use std::alloc::Global;
use zn_view::{are_numbers, is_count};
use zx_base::Memory;

/// Whether the numbers of a transaction's answer are in an etcd's range.
fn has_numbers(answer: &Answer) -> bool
    ensures { IsTrue result → HasTxnNumbers answer.now }
{
    match answer {
        Answer::Txn {
            revision,
            parts,
            ..
        } => is_count(*revision) && are_numbers(parts.as_slice()),
        Answer::Range { .. } | Answer::Granted { .. } | Answer::Alive { .. } => true,
    }
}

fn is_grantable(ask: &Ask) -> bool
    ensures { IsTrue result → IsGrantable ask.now }
{
    match ask {
        Ask::Grant { id, ttl } => 1 <= *id && is_count(*ttl),
        Ask::Txn(_) | Ask::Range(_) | Ask::Alive { .. } => true,
    }
}

/// What the etcd answers. If it denies the ask, `None`, and the text of the denial is added: `no ask` and `no answer` where a
/// number is out of range.
#[tactic(auto, using(zs_session::proofs::Carrying::answers))]
pub fn answer_of(
    alloc: Global,
    text: &mut String,
    store: &mut Store,
    ask: &Ask,
) -> Result<Option<Answer>, Memory>
    ensures { IfOk result (λ r. IfSome r (IsAnswerTo ask.now)) }
{
    if !is_grantable(ask) {
        push(text, "no ask")?;
        return Ok(None);
    }
    match store.carry_out(ask) {
        Ok(answer) if has_numbers(&answer) => return Ok(Some(answer)),
        Ok(_other) => push(text, "no answer")?,
        Err(fault) => push_fault(alloc, text, &fault)?,
    }
    Ok(None)
}

/// Adds a denial as it stands in a row.
pub fn push_fault(alloc: Global, text: &mut String, fault: &StoreFault) -> Result<(), Memory> {
    match fault {
        StoreFault::Denied(Denied::LeaseExists { id }) => {
            push_number(alloc, text, "denied: lease ", *id)?;
            push(text, " exists")
        }
        StoreFault::Denied(Denied::NoLease { id }) => push_number(
            alloc,
            text,
            "denied: no lease ",
            *id,
        ),
        StoreFault::Denied(_) => push(text, "denied"),
        StoreFault::Memory => Err(Memory),
    }
}
