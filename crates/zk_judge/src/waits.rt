//! A conversation as far as it is judged: the replies that need no state were gone over, and the next one waits for a moment.

ghost use Rattle.std.specs.Prelude.{◌≡◌, ◌⊎◌, ◌+◌, ◌-◌, ◌<◌, ◌≤◌, ◌<ℤ◌, ◌∷◌, pos, None, length, option_to_list, IfOk, IfSome};
ghost use Rattle.zk_transcript.specs.History.{state_at};
ghost use Rattle.zk_transcript.specs.Walks.{packets};
ghost use Rattle.zk_legal.specs.Faults.{history_fault};
ghost use Rattle.zk_judge.specs.Fronts.{IsTold};
ghost use Rattle.zk_judge.specs.Seen.{walker_of};
ghost use Rattle.zk_judge.specs.Sent.{packets_in};
ghost use Rattle.zk_judge.specs.Staged.{awaited_by};
ghost use Rattle.zk_judge.specs.Waiting.{IsEarliest, IsNotBefore, IsWait, IsWaiting, gives_rest, gives_rest_from, is_walked, left_of, next_tried, packets_after, tries_of};
ghost use Rattle.zk_judge.specs.declared.waits.Walked.TheVariants as walk;

use crate::firing::fire_above;
use crate::index::Index;
use crate::packets::{is_front, next_reply};
use crate::queues::plain_reply_given;
use crate::sent::Packets;
use crate::walker::{Party, Step, Walker};
use crate::walks::{allowed, moments, repeats};
use std::alloc::Global;
use zk_history::State;
use zx_base::Memory;

/// A connection whose next reply is tried as of a moment, and then as of a second one.
#[derive(Drop)]
pub struct Wait {
    pub party: Party,
    pub walker: Walker,
    /// How many of the packets that it was sent have been accounted for, the welcome included.
    pub taken: usize,
    /// The moment that is tried next, and the one that is tried after it.
    pub first: usize,
    pub second: Option<usize>,
}

/// Whether the least walk gives the packets, or what has to be tried for it.
#[derive(Drop)]
pub enum Walked {
    /// The least walk gives the packets, or it does not.
    Ends(bool),
    /// A reply has to be tried.
    Waits(Wait),
}

impl Walked {
    /// The moment that is tried next, where there is one.
    pub fn awaited(&self) -> Option<usize>
        ensures { result ≡ awaited_by self.now }
    {
        match self {
            Walked::Ends(_) => None,
            Walked::Waits(wait) => Some(wait.first),
        }
    }
}

/// The packets of a connection that are left after the first ones, of which there are `taken`.
fn packets_left<'a>(index: &'a Index, party: Party, taken: usize) -> Packets<'a>
    requires { taken ≤ length (packets party.connection index.now.lines.now) }
    ensures { packets_in result ≡ packets_after index.now.lines.now party taken }
{
    index.packets_of(party.connection).rest_after(taken)
}

/// Waits for the first of two moments that is neither before `from` nor after the last line.
fn wait_between(
    index: &Index,
    from: usize,
    party: Party,
    walker: Walker,
    taken: usize,
    first: usize,
    second: Option<usize>,
) -> Walked
    requires early { IsEarliest index.now.lines.now (walker_of walker) from }
    requires above { pos 0 <ℤ walker.zxid }
    requires told { IsTold index.now.lines.now (walker_of walker) }
    requires within { taken ≤ length (packets party.connection index.now.lines.now) }
    requires rises { IsNotBefore first second }
    ensures walked { is_walked index.now.lines.now result ≡ gives_rest_from index.now.lines.now party (walker_of walker) taken (first ∷ option_to_list second) }
    ensures waits { IsWaiting index.now.lines.now from result }
    ensures fewer { left_of index.now.lines.now result ≤ length (packets party.connection index.now.lines.now) - taken }
{
    if from <= first && first <= index.lines.len() {
        return Walked::Waits(Wait {
            party,
            walker,
            taken,
            first,
            second,
        });
    }
    match second {
        Some(second) if from <= second && second <= index.lines.len() => Walked::Waits(Wait {
            party,
            walker,
            taken,
            first: second,
            second: None,
        }),
        _ => Walked::Ends(false),
    }
}

/// Waits for the moments to try for the next reply, which its frame does not get without the tree.
fn wait_for_tries(
    index: &Index,
    from: usize,
    party: Party,
    walker: Walker,
    taken: usize,
    tries: Option<(usize, Option<usize>)>,
) -> Walked
    requires early { IsEarliest index.now.lines.now (walker_of walker) from }
    requires above { pos 0 <ℤ walker.zxid }
    requires told { IsTold index.now.lines.now (walker_of walker) }
    requires within { taken ≤ length (packets party.connection index.now.lines.now) }
    requires rises { IfSome tries (λ t. IsNotBefore t.0 t.1) }
    ensures walked { is_walked index.now.lines.now result ≡ gives_rest_from index.now.lines.now party (walker_of walker) taken (tries_of tries) }
    ensures waits { IsWaiting index.now.lines.now from result }
    ensures fewer { left_of index.now.lines.now result ≤ length (packets party.connection index.now.lines.now) - taken }
{
    match tries {
        Some((first, second)) => wait_between(index, from, party, walker, taken, first, second),
        None => Walked::Ends(false),
    }
}

/// Goes on over the replies that frames get without the tree, up to one that needs a state. No reply may be answered as of a
/// moment before `from`.
pub fn settle(
    alloc: Global,
    index: &Index,
    from: usize,
    party: Party,
    walker: Walker,
    taken: usize,
) -> Result<Walked, Memory>
    requires run { history_fault index.now.lines.now ≡ None }
    requires early { IsEarliest index.now.lines.now (walker_of walker) from }
    requires above { pos 0 <ℤ walker.zxid }
    requires told { IsTold index.now.lines.now (walker_of walker) }
    requires within { taken ≤ length (packets party.connection index.now.lines.now) }
    ensures walked { IfOk result (λ r. is_walked index.now.lines.now r ≡ gives_rest index.now.lines.now party (walker_of walker) taken) }
    ensures waits { IfOk result (λ r. IsWaiting index.now.lines.now from r) }
    ensures fewer { IfOk result (λ r. left_of index.now.lines.now r ≤ length (packets party.connection index.now.lines.now) - taken) }
{
    let mut walker = walker;
    let mut taken = taken;
    'replies: loop {
        let left = packets_left(index, party, taken);
        let Some(reply) = next_reply(left) else {
            let fired = fire_above(alloc, index, index.lines, walker)?;
            return Ok(Walked::Ends(is_front(left, &fired.due)));
        };
        if !repeats(alloc, index, party, &walker, reply)? {
            let tries = moments(index, party, &walker, reply);
            return Ok(wait_for_tries(index, from, party, walker, taken, tries));
        }
        match plain_reply_given(alloc, index, party, walker, left, reply)? {
            Some(step) => {
                walker = step.walker;
                taken += step.count;
            }
            None => return Ok(Walked::Ends(false)),
        }
    }
}

/// What is left to be tried for a reply where the moment that is tried next fails: its second one, with a copy of what is armed.
fn second_try(index: &Index, wait: &Wait) -> Result<Walked, Memory>
    requires { IsWait index.now.lines.now wait.now.first wait.now }
    ensures walked { IfOk result (λ r. None ≡ next_tried index.now.lines.now wait.now → is_walked index.now.lines.now r ≡ is_walked index.now.lines.now (walk.Waits wait.now)) }
    ensures waits { IfOk result (λ r. IsWaiting index.now.lines.now (wait.now.first + 1) r) }
{
    let moment = wait.first;
    match wait.second {
        Some(second) if moment < second && second <= index.lines.len() => Ok(Walked::Waits(Wait {
            party: wait.party,
            walker: wait.walker.copy()?,
            taken: wait.taken,
            first: second,
            second: None,
        })),
        _ => Ok(Walked::Ends(false)),
    }
}

/// Tries the next reply as of the moment that it waits for; `state` is the state then. A reply has a second moment only where it
/// says that the session has expired. No request is answered after such a reply, so a connection's watches are copied for at most
/// two of them.
fn try_next(alloc: Global, index: &Index, state: &State, wait: Wait) -> Result<Walked, Memory>
    requires run { history_fault index.now.lines.now ≡ None }
    requires stands { IsWait index.now.lines.now wait.first wait }
    requires state { state.now ≡ state_at index.now.lines.now wait.first }
    ensures walked { IfOk result (λ r. is_walked index.now.lines.now r ≡ is_walked index.now.lines.now (walk.Waits wait)) }
    ensures waits { IfOk result (λ r. IsWaiting index.now.lines.now wait.first r) }
    ensures fewer { IfOk result (λ r. IsWaiting index.now.lines.now (wait.first + 1) r ⊎ (left_of index.now.lines.now r < left_of index.now.lines.now (walk.Waits wait))) }
{
    let failed = second_try(index, &wait)?;
    let moment = wait.first;
    let left = packets_left(index, wait.party, wait.taken);
    let tried = allowed(alloc, index, state, wait.party, wait.walker, left, moment)?;
    match tried {
        Some(Step { walker, due }) => settle(
            alloc,
            index,
            moment,
            wait.party,
            walker,
            wait.taken + due.len(),
        ),
        None => Ok(failed),
    }
}

/// Answers the replies that are answered as of a moment; `state` is the state then.
fn answer_all(
    alloc: Global,
    index: &Index,
    state: &State,
    moment: usize,
    wait: Wait,
) -> Result<Walked, Memory>
    requires run { history_fault index.now.lines.now ≡ None }
    requires stands { IsWait index.now.lines.now moment wait }
    requires first { wait.first ≡ moment }
    requires state { state.now ≡ state_at index.now.lines.now moment }
    ensures walked { IfOk result (λ r. is_walked index.now.lines.now r ≡ is_walked index.now.lines.now (walk.Waits wait)) }
    ensures waits { IfOk result (λ r. IsWaiting index.now.lines.now (moment + 1) r) }
{
    let mut wait = wait;
    'replies: loop {
        match try_next(alloc, index, state, wait)? {
            Walked::Ends(is_least) => return Ok(Walked::Ends(is_least)),
            Walked::Waits(next) => {
                if next.first != moment {
                    return Ok(Walked::Waits(next));
                }
                wait = next;
            }
        }
    }
}

/// Answers the replies that are answered as of a moment, if the next one waits for it; `state` is the state then.
pub fn walk_on(
    alloc: Global,
    index: &Index,
    state: &State,
    moment: usize,
    walked: Walked,
) -> Result<Walked, Memory>
    requires run { history_fault index.now.lines.now ≡ None }
    requires waits { IsWaiting index.now.lines.now moment walked }
    requires state { state.now ≡ state_at index.now.lines.now moment }
    ensures walked { IfOk result (λ r. is_walked index.now.lines.now r ≡ is_walked index.now.lines.now walked) }
    ensures waits { IfOk result (λ r. IsWaiting index.now.lines.now (moment + 1) r) }
{
    match walked {
        Walked::Ends(is_least) => Ok(Walked::Ends(is_least)),
        Walked::Waits(wait) => {
            if wait.first == moment {
                answer_all(alloc, index, state, moment, wait)
            } else {
                Ok(Walked::Waits(wait))
            }
        }
    }
}
