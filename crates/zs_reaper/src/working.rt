//! The reaper worker.

ghost use Rattle.std.specs.Prelude.{◌≡◌};
ghost use Rattle.ev_call.specs.Addresses.{IsAddress};
ghost use Rattle.zs_reaper.specs.Working.{OnlyDials};
ghost use Rattle.zx_outside.specs.Counts.{one_more};

use crate::pace::Pace;
use crate::turning::turn_over;
use ev_addresses::next_of;
use ev_faults::tell;
use std::alloc::Global;
use std::sync::Wait;
use std::thread;
use std::time::{Clock as SystemClock, Duration};
use zp_turns::Reaps;
use zx_net::Net;
use zx_random::StopWord;

/// How many reaper workers a proxy starts.
pub const REAPERS: usize = 4;

/// Ends sessions that have lapsed, turn by turn, until the word to stop is set; it reads the word before each pause. Of `REAPERS`
/// workers of a proxy each has a net and a link of its own. `word` is a random one: the pauses and the places at which turns begin are
/// drawn from it, so that workers begin apart. A session's end waits for its turn at a path in `turns`. Of turns in a row that fail, the
/// operator is told of the first. A link over which a call failed or ran out of memory is dropped, and the next turn dials anew: the
/// addresses in `endpoint`, one or more bytes of visible ASCII, in turn until one dial succeeds, at first from the one with the number `at`
/// on, and after a link that failed from the one after that.
#[tactic(auto, using(crate::proofs::Keeping::dials_first, crate::proofs::Keeping::dials_more))]
pub fn reap<R: Wait + SystemClock + Eprint, N: Net, Q: StopWord, U: Reaps>(
    rt: &R,
    alloc: Global,
    net: &mut N,
    endpoint: &str,
    at: usize,
    word: u64,
    stop: &mut Q,
    turns: &mut U,
)
    requires { IsAddress endpoint.now }
    ensures stopped { Q.set_readings stop.new ≡ one_more (Q.set_readings stop.old) }
    ensures dials { OnlyDials (N.counts net.old) (N.counts net.new) }
{
    let mut pace = Pace::new(word);
    let mut at = at;
    let mut link = None;
    let mut is_told = false;
    'turns: for _ in rt.forever() {
        if stop.is_set() {
            return;
        }
        thread::sleep(rt, Duration::from_millis(pace.pause()));
        match turn_over(alloc, net, endpoint, &mut at, &mut link, turns, &mut pace) {
            Ok(()) => {
                if !pace.is_busy() {
                    is_told = false;
                }
            }
            Err(fault) => {
                if !is_told {
                    tell(rt, "reaper at", endpoint, fault);
                }
                is_told = true;
                if link.is_none() {
                    at = next_of(endpoint, at);
                }
            }
        }
    }
    unreachable!()
}
