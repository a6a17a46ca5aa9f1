//! Calls of a link.

ghost use Rattle.std.specs.Prelude.{◌≡◌, IfOk};
ghost use Rattle.ev_call.specs.Asks.{IsGrantable};
ghost use Rattle.ev_call.specs.Fitting.{Fits};
ghost use Rattle.zs_reaper.specs.Calling.{Calls, Makes, link_told};
ghost use Rattle.zs_reaper.specs.declared.calling.TurnFault.TheVariants as faults;

use ev_call::{CallFault, Etcd};
use ev_types::{Answer, Ask};
use zx_base::Memory;

/// Why a turn stopped before its end.
#[derive(Clone, Copy, PartialEq, Eq)]
pub enum TurnFault {
    /// A call of the link failed.
    Failed,
    /// The answer to a list has no two lists.
    NoList,
    /// Memory was refused.
    Memory,
    /// Another had ended a session since it was listed: somebody else is at work here.
    Met,
}

impl From<Memory> for TurnFault {
    ghost from_gives = { λ _ fault. fault ≡ faults.Memory };

    fn from(_refused: Memory) -> TurnFault {
        TurnFault::Memory
    }
}

/// Asks etcd.
#[tactic(auto, using(crate::proofs::Making::one_call))]
pub(crate) fn call<L: Etcd>(link: &mut L, ask: &Ask) -> Result<Answer, TurnFault>
    requires { IsGrantable ask.now }
    ensures fits { IfOk result (Fits ask.now) }
    ensures calls { Makes (Calls ask.now result) (link_told L.told L.failures link.old) (link_told L.told L.failures link.new) }
{
    match link.call(ask) {
        Ok(answer) => Ok(answer),
        Err(CallFault::Failed) => Err(TurnFault::Failed),
        Err(CallFault::Memory) => Err(TurnFault::Memory),
    }
}
