//! Steps a reaper.

ghost use Rattle.std.specs.Prelude.{◌≡◌, ◌||◌, IfOk};
ghost use Rattle.ev_call.specs.Asks.{IsGrantable};
ghost use Rattle.ev_call.specs.Fitting.{Fits};
ghost use Rattle.zs_reaper.specs.Calling.{Calls, Makes, link_told};
ghost use Rattle.zs_reaper.specs.Reaping.{Reaps as ReapsOne, ReapsEach};

use crate::calling::{TurnFault, call};
use crate::pace::Pace;
use ev_call::Etcd;
use ev_types::{Act, Answer, Ask};
use std::alloc::Global;
use zn_layout::COUNTS_FRONT;
use zp_turns::Reaps;
use zs_reap::{ReapStep, Reaper};
use zs_session::StepFault;

/// The most asks of one reap in one turn.
const MAX_ASKS: u32 = 64;

/// How many digits stand between what a key of counts begins with and the node's path.
const DEPTH: usize = 4;

/// The path of the node whose counts this key has.
fn path_in(key: &[u8]) -> Option<&[u8]> {
    key.strip_prefix(COUNTS_FRONT.as_slice())?.get(DEPTH..)
}

/// The path of the first node whose counts are read.
fn counted(ask: &Ask) -> Option<&[u8]> {
    let Ask::Txn(txn) = ask else {
        return None;
    };
    'acts: for act in txn.success.as_slice() {
        let Act::Range(range) = act else {
            continue;
        };
        if let Some(path) = path_in(range.key.as_slice()) {
            return Some(path);
        }
    }
    None
}

/// Asks etcd; where it asks for counts, by which the session's end is guarded then, once it is its turn at the first of the paths.
fn call_in_turn<L: Etcd, U: Reaps>(
    link: &mut L,
    turns: &mut U,
    ask: &Ask,
) -> Result<Answer, TurnFault>
    requires { IsGrantable ask.now }
    ensures fits { IfOk result (Fits ask.now) }
    ensures calls { Makes (Calls ask.now result) (link_told L.told L.failures link.old) (link_told L.told L.failures link.new) }
{
    match counted(ask) {
        Some(path) => turns.wait_at(path),
        None => {}
    }
    call(link, ask)
}

/// Ends one session, if it has lapsed. A session that others change again and again is left for a later turn. Answers whether a key
/// of the session has a value that is no record; one that another has ended is [`TurnFault::Met`].
#[tactic(auto, using(crate::proofs::Answers::may_next, crate::proofs::Answers::granted, crate::proofs::Walking::stands_first, crate::proofs::Walking::may_first, crate::proofs::Walking::stands_more, crate::proofs::Walking::reap_cut, crate::proofs::Walking::reap_ended, crate::proofs::Walking::reap_kept, crate::proofs::Walking::reap_gone, crate::proofs::Walking::reap_damaged, crate::proofs::Walking::reap_starved, crate::proofs::Walking::reap_left))]
fn reap_one<L: Etcd, U: Reaps>(
    alloc: Global,
    link: &mut L,
    turns: &mut U,
    pace: &mut Pace,
    session: i64,
) -> Result<bool, TurnFault>
    ensures { Makes (ReapsOne session result) (link_told L.told L.failures link.old) (link_told L.told L.failures link.new) }
{
    let mut reaper = Reaper::new(alloc, session);
    let mut answer: Option<Answer> = None;
    'asks: for asked in 0..MAX_ASKS {
        match reaper.step(answer.as_ref()) {
            Ok(ReapStep::Ask(ask)) => match call_in_turn(link, turns, &ask) {
                Ok(got) => answer = Some(got),
                Err(fault) => return Err(fault),
            },
            Ok(ReapStep::Reaped { .. }) => {
                pace.work();
                return Ok(false);
            }
            Ok(ReapStep::Kept { .. }) => return Ok(false),
            Ok(ReapStep::Gone { .. }) => return Err(TurnFault::Met),
            Err(StepFault::Damaged { .. }) => return Ok(true),
            Err(StepFault::Memory) => return Err(TurnFault::Memory),
        }
    }
    Ok(false)
}

/// Whether at least one of the two is damaged.
pub(crate) fn either(one: bool, other: bool) -> bool
    ensures { result ≡ (one || other) }
{
    one || other
}

/// Ends those of these sessions that have lapsed, one after the other, up to the first that another has ended.
#[tactic(auto, using(crate::proofs::Each::each_none, crate::proofs::Each::each_more, crate::proofs::Each::each_cut))]
pub(crate) fn reap_each<L: Etcd, U: Reaps>(
    alloc: Global,
    link: &mut L,
    turns: &mut U,
    pace: &mut Pace,
    sessions: &[i64],
) -> Result<bool, TurnFault>
    ensures { Makes (ReapsEach sessions.now result) (link_told L.told L.failures link.old) (link_told L.told L.failures link.new) }
{
    let mut is_damaged = false;
    'sessions: for session in sessions {
        let reaped = reap_one(alloc, link, turns, pace, *session);
        turns.end();
        match reaped {
            Ok(damaged) => is_damaged = either(is_damaged, damaged),
            Err(fault) => return Err(fault),
        }
    }
    Ok(is_damaged)
}
