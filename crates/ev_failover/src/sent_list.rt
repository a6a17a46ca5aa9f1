//! What was sent to which endpoint.

ghost use Rattle.std.specs.Prelude.{◌≡◌, [], length};
ghost use Rattle.ev_failover.specs.Endpoints.{faults_after, is_sent};

use crate::endpoints::EndFault;
use ev_types::{Answer, Ask};
use zx_history::GhostHistory;

/// What was sent to which endpoint so far, for proofs alone.
#[derive(Drop)]
pub struct SentList {
    to: GhostHistory<u32>,
    asks: GhostHistory<Ask>,
    ghost paired: { length to.items ≡ length asks.items },
}

impl SentList {
    ghost use Rattle.std.specs.Prelude.{Some, [], ◌≡◌};
    ghost use Rattle.ev_failover.specs.Endpoints.{IsSentBy, sent_of};

    /// Nothing.
    pub fn new() -> SentList
        ensures { sent_of result.to.items result.asks.items ≡ [] }
    {
        SentList {
            to: GhostHistory::new(),
            asks: GhostHistory::new(),
        }
    }

    /// Notes a call that came to this, unless it was not sent.
    #[tactic(auto, using(crate::proofs::Storing::is_told_in, crate::proofs::Storing::not_told))]
    pub fn note(&mut self, endpoint: u32, ask: &Ask, came: &Result<Answer, EndFault>)
        ensures { IsSentBy came.now endpoint ask.now (Some (sent_of self.old.to.items self.old.asks.items)) (Some (sent_of self.new.to.items self.new.asks.items)) }
    {
        if is_sent(came) {
            self.to = self.to.and(&endpoint);
            self.asks = self.asks.and(ask);
            return;
        }
    }
}

/// Whether the ask was sent in such a call, or may have been.
fn is_sent(came: &Result<Answer, EndFault>) -> bool
    ensures { result ≡ is_sent came.now }
{
    match came {
        Err(EndFault::NotSent) => false,
        Ok(_) | Err(EndFault::Failed | EndFault::Memory) => true,
    }
}

/// The count of faults after a call.
pub fn counted(faults: u64, came: &Result<Answer, EndFault>) -> u64
    ensures { result ≡ faults_after came.now faults }
{
    match came {
        Err(EndFault::NotSent | EndFault::Failed) => faults.saturating_add(1),
        Ok(_) | Err(EndFault::Memory) => faults,
    }
}
