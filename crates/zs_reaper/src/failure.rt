//! Why a link failed, as an operator is told.

ghost use Rattle.std.specs.Prelude.{◌≡◌};
ghost use Rattle.ev_link.specs.Asking.{failure_in};
ghost use Rattle.zs_reaper.specs.Turning.{fault_in};

use ev_faults::Fault;
use ev_link::{HttpLink, LinkFailure};
use zx_outside::{Sink, Source};

/// Why a link failed; of one that did not, that memory was refused.
pub fn fault_of<S: Source + Drop, K: Sink + Drop>(link: &HttpLink<S, K>) -> Fault
    ensures { result ≡ fault_in (failure_in link.now.state) }
{
    match link.last_failure() {
        Some(LinkFailure::Http(fault)) => Fault::Http(*fault),
        Some(LinkFailure::Json(fault)) => Fault::Json(*fault),
        None => Fault::Memory,
    }
}
