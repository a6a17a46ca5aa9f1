//! What a server knows of its connections.

ghost use Rattle.std.specs.Prelude.{◌≡◌, ◌<◌, IfSome, length, slice_get, Some};
ghost use Rattle.zp_server.specs.Striking.{Strikes};

use crate::telling::tell_full;
use ev_addresses::next_of;
use zk_service::Cause;
use zw_hub::HubReader;

/// Once the operator was told that all places are taken, so many have to be free before that is told again.
const ROOM_AGAIN: usize = 16;

/// What a server knows of its connections.
#[derive(Drop)]
pub struct Desk {
    /// The server's own reader.
    pub own: HubReader,
    /// The readers that serve no connection now.
    pub free: Vec<HubReader>,
    /// The numbers of the connections that are served.
    pub busy: Vec<u64>,
    /// The operator was told that no reader is free, and few were since.
    pub is_full: bool,
    /// The number of the endpoint that is dialled first for the next client.
    pub at: usize,
    /// A link failed since that was chosen.
    pub is_broken: bool,
}

impl Desk {
    ghost use Rattle.std.specs.Prelude.{◌≡◌, IsTrue, []};

    /// Whether no connection is served.
    pub fn is_idle(&self) -> bool
        ensures { IsTrue result → self.now.busy.items ≡ [] }
    {
        self.busy.as_slice().is_empty()
    }

    /// Tells the operator if no further client can be served until one leaves, once each time that the places run out.
    pub fn tell_if_full<W: Eprint>(&mut self, rt: &W)
        ensures own { self.new.own ≡ self.old.own }
        ensures busy { self.new.busy.items ≡ self.old.busy.items }
    {
        if self.free.is_empty() {
            if !self.is_full {
                tell_full(rt, self.busy.len());
            }
            self.is_full = true;
        } else if self.free.len() >= ROOM_AGAIN {
            self.is_full = false;
        }
    }
}

/// Whether a link failed since the endpoint was chosen that is dialled first, now that a connection ended for this cause too.
pub fn broken_by(is_broken: bool, cause: &Cause) -> bool {
    match cause {
        Cause::LinkFault => true,
        _ => is_broken,
    }
}

/// The number of the endpoint that is dialled first for the next client: the one that was dialled last, or the next one if a link failed
/// since.
pub fn chosen(endpoint: &str, at: usize, is_broken: bool) -> usize {
    if is_broken { next_of(endpoint, at) } else { at }
}

/// Where the number stands.
#[tactic(auto, using(crate::proofs::Striking::stands))]
fn place_of(busy: &[u64], number: u64) -> Option<usize>
    ensures within { IfSome result (λ at. at < length busy.now) }
    ensures there { IfSome result (λ at. slice_get busy.now at ≡ Some number) }
{
    for at in 0..busy.len() {
        if busy[at] == number {
            return Some(at);
        }
    }
    None
}

/// Strikes out a number, and says whether it was there.
#[tactic(auto, using(crate::proofs::Striking::struck))]
pub fn strike(busy: &mut Vec<u64>, number: u64) -> bool
    ensures { Strikes result number busy.old.items busy.new.items }
{
    match place_of(busy.as_slice(), number) {
        Some(at) => {
            busy.remove(at);
            true
        }
        None => false,
    }
}
