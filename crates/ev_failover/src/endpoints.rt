//! The endpoints of one etcd.

ghost use Rattle.std.specs.Prelude.{◌≡◌, ℕ, List, Option, Result, IfOk};
ghost use Rattle.ev_types.specs.declared.answer.Answer.{Answer as SomeAnswer};
ghost use Rattle.ev_types.specs.declared.ask.Ask.{Ask as SomeAsk};

use ev_types::{Answer, Ask};

/// Why a call of an endpoint has no answer.
#[derive(Clone, Copy, PartialEq, Eq)]
pub enum EndFault {
    /// Nothing was sent, so nothing was carried out.
    NotSent,
    /// It failed when the ask was sent, or may have been: the ask was carried out, will be, or never is.
    Failed,
    /// The allocator refused memory. The ask may have been carried out.
    Memory,
}

/// The endpoints of one etcd, numbered from 0.
pub trait Endpoints {
    ghost use Rattle.std.specs.Prelude.{◌≤◌, ◌<◌};
    ghost use Rattle.ev_call.specs.Asks.{IsGrantable};
    ghost use Rattle.ev_call.specs.Fitting.{Fits};
    ghost use Rattle.ev_failover.specs.Endpoints.{IsSentBy, Sent, faults_after};
    ghost use Rattle.ev_failover.specs.declared.endpoints.EndFault.{EndFault as SomeFault};

    // How many endpoints there are.
    ghost size: { Self → ℕ };

    // How many calls were not sent, or failed.
    ghost faults: { Self → ℕ };

    // What was sent to which endpoint so far, the oldest first, where they tell it.
    ghost sent: { Self → Option (List Sent) };

    // What a call of an endpoint came to: the endpoints before and after it, and the outcome.
    ghost came: { Self → ℕ → SomeAsk → Result SomeAnswer SomeFault → Self → Type 0 };

    /// How many endpoints there are: 1 to 5.
    fn size(&self) -> u32
        ensures size { result ≡ size self.now }
        ensures least { 1 ≤ result }
        ensures most { result ≤ 5 };

    /// Asks this endpoint, and waits for its answer. `endpoint` is below the size.
    fn call_at(&mut self, endpoint: u32, ask: &Ask) -> Result<Answer, EndFault>
        requires within { endpoint < size self.old }
        requires granted { IsGrantable ask.now }
        ensures fits { IfOk result (Fits ask.now) }
        ensures faults { faults self.new ≡ faults_after result (faults self.old) }
        ensures size { size self.new ≡ size self.old }
        ensures sent { IsSentBy result endpoint ask.now (sent self.old) (sent self.new) }
        ensures came { came self.old endpoint ask.now result self.new };
}
