//! Transactions.

ghost use Rattle.std.specs.Prelude.{◌≡◌, IfOk, IfErr, OnErr};
ghost use Rattle.ev_types.specs.Store as etcd;
ghost use Rattle.ev_types.specs.Denials.{carry};
ghost use Rattle.ev_store.specs.FirstDenial.{first_denial, Names};

use crate::fault::StoreFault;
use crate::refusal::check_txn;
use crate::store::Store;
use ev_types::{Act, Answer, Ask, TxnReq};

impl Store {
    /// Carries out the success list where all guards hold, otherwise the failure list. The store grows last.
    #[tactic(auto, using(crate::proofs::Denying::txn_carried), unfolding(crate::specs::FirstDenial::first_denial))]
    pub(crate) fn transact(&mut self, txn: &TxnReq) -> Result<Answer, StoreFault>
        ensures carried { IfOk result (λ a. carry self.old (Ask.Txn txn.now) ≡ Some (self.new, a)) }
        ensures named { IfErr result (Names (first_denial self.old (Ask.Txn txn.now))) }
        ensures stays { OnErr result (self.new ≡ self.old) }
    {
        check_txn(self.alloc(), txn)?;
        let succeeded = self.all_hold(txn.guards.as_slice());
        let acts = chosen(txn, succeeded);
        self.check_acts(acts)?;
        let (changes, parts) = self.work(acts)?;
        self.add(changes)?;
        Ok(Answer::Txn {
            revision: self.revision(),
            succeeded,
            parts,
        })
    }
}

fn chosen(txn: &TxnReq, succeeded: bool) -> &[Act]
    ensures { result.now ≡ etcd.chosen succeeded txn.now }
{
    if succeeded {
        txn.success.as_slice()
    } else {
        txn.failure.as_slice()
    }
}
