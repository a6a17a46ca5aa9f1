//! A node's record that is guessed absent. Where a sequence node's create lacks the record of its node alone, it is planned as if that
//! were absent, which spares a round: the plan guards the record as absent, and where it is there, the failed guard shows it. Nothing
//! is answered on a guess.

ghost use Rattle.std.specs.Prelude.{◌≡◌, ◌∷◌, ◌≤ℤ◌, [], pos, IfOk, MatchOption, ◌<◌, ◌^◌};
ghost use Rattle.zn_view.specs.Needs.{AreNeeds};
ghost use Rattle.zn_view.specs.declared.want.Want.TheVariants as wants;
ghost use Rattle.zp_step.specs.Looking.{MayGuess, guessed, is_node_key as is_node_key_of, makes_sequence as makes_sequence_of};
ghost use Rattle.zp_core.specs.Guessing.{GuessesAt, GuessesOn, IsNoKey, may_guess as may_guess_of};
ghost use Rattle.zp_core.specs.Held.{IsRequest};

use crate::decisions::plan_decided;
use crate::stage::Task;
use std::alloc::Global;
use std::collections::VecDeque;
use zk_model::Request;
use zk_model::flags::is_sequential;
use zn_layout::DATA_FRONT;
use zn_view::{Plan, SeenKey, View, Want, Who};
use zx_base::{Bytes, Memory};

/// How many bytes tell the kind of a key.
const FIRST: usize = 5;

/// Whether this makes a sequence node. A multi makes none, whatever its parts are.
fn makes_sequence(request: &Request) -> bool
    ensures { result ≡ makes_sequence_of request.now }
{
    match request {
        Request::Create { flags, .. } | Request::Create2 { flags, .. } => is_sequential(*flags),
        _ => false,
    }
}

/// Whether this is the key of a node's record.
fn is_node_key(key: &[u8]) -> bool
    ensures { result ≡ is_node_key_of key.now }
{
    &key[..key.len().min(FIRST)] == DATA_FRONT.as_slice()
}

/// Whether the record under this key may be guessed absent, where it is all that is lacking.
fn may_guess(request: &Request, view: &View, key: &[u8]) -> bool
    ensures { result ≡ may_guess_of request.now view.now key.now }
{
    makes_sequence(request) && !view.is_new() && is_node_key(key)
}

/// The key that is lacking, where it is all that is.
fn only_key(lacking: &VecDeque<Want>) -> Option<&Bytes>
    ensures { MatchOption result (IsNoKey lacking.now.items) (λ key. lacking.now.items ≡ wants.Key key.now ∷ []) }
{
    if lacking.len() != 1 {
        return None;
    }
    match lacking.front() {
        Some(Want::Key(key)) => Some(key),
        Some(Want::Children(_)) | None => None,
    }
}

/// A copy of a view in which this key is absent. The view must stay as it is where the guess gives no plan.
fn with_absent(alloc: Global, view: &View, key: &Bytes) -> Result<View, Memory>
    ensures { IfOk result (λ v. v ≡ guessed view.now key.now) }
{
    let mut view = view.copy()?;
    view.lay(SeenKey {
        key: Bytes::copy_of(alloc, key.as_slice())?,
        found: None,
    })?;
    Ok(view)
}

/// A plan, and the view with the guess that it was made on.
#[derive(Drop)]
pub struct Guess {
    pub view: View,
    pub plan: Plan,
}

/// The plan on the guess that this key is absent: `None` where the decision on that is no plan.
fn plan_without(
    alloc: Global,
    who: Who,
    task: &Task,
    key: &Bytes,
    now: u64,
) -> Result<Option<Guess>, Memory>
    requires request { IsRequest task.now.request }
    requires real { pos 1 ≤ℤ who.session }
    requires time { now < 2 ^ 62 }
    requires needs { AreNeeds task.now.request who task.now.view (wants.Key key.now ∷ []) }
    requires may { MayGuess task.now.request task.now.view key.now }
    ensures { IfOk result (GuessesAt task.now.request who now task.now.view key.now) }
{
    let view = with_absent(alloc, &task.view, key)?;
    match plan_decided(alloc, &task.request, who, now, &view)? {
        Some(plan) => Ok(Some(Guess { view, plan })),
        None => Ok(None),
    }
}

/// The plan of a sequence node's create on the guess that its node is absent. `None` where more is lacking, or something else, and
/// where the decision on the guess is no plan.
pub(crate) fn guessed_plan(
    alloc: Global,
    who: Who,
    task: &Task,
    lacking: &VecDeque<Want>,
    now: u64,
) -> Result<Option<Guess>, Memory>
    requires request { IsRequest task.now.request }
    requires real { pos 1 ≤ℤ who.session }
    requires time { now < 2 ^ 62 }
    requires needs { AreNeeds task.now.request who task.now.view lacking.now.items }
    ensures { IfOk result (GuessesOn task.now.request who now task.now.view lacking.now.items) }
{
    let Some(key) = only_key(lacking) else {
        return Ok(None);
    };
    if !may_guess(&task.request, &task.view, key.as_slice()) {
        return Ok(None);
    }
    plan_without(alloc, who, task, key, now)
}
