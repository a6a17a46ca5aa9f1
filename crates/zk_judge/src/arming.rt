//! What the tree answers to a request, beside watches that are armed already and are not copied.

ghost use Rattle.std.specs.Prelude.{◌≡◌, pos, option_map, IfOk};
ghost use Rattle.zk_service.specs.Answers.{owned_limit_in};
ghost use Rattle.zk_service.specs.States.{session_at};
ghost use Rattle.zk_service.specs.Answers.{tree_reply as tree_reply_of};
ghost use Rattle.zk_answers.specs.Fits.{FitsRequest};
ghost use Rattle.zk_answers.specs.Outcomes.{told_of};
ghost use Rattle.zk_judge.specs.Arming.{armed_by as armed_by_of, is_good as is_good_of, is_set_watches as is_set_watches_of, with_armed};

use crate::walker::Party;
use std::alloc::Global;
use zk_answers::{Told, Watches, tree_reply};
use zk_history::{Fault, State};
use zk_model::{Reply, Request};
use zx_base::Memory;

fn is_good(answer: &Reply) -> bool
    ensures { result ≡ is_good_of answer.now }
{
    match answer {
        Reply::Good(_) => true,
        Reply::Refused(_) => false,
    }
}

fn is_set_watches(request: &Request) -> bool
    ensures { result ≡ is_set_watches_of request.now }
{
    match request {
        Request::SetWatches { .. } => true,
        _ => false,
    }
}

/// The watches after the tree's answer to a request that is no setWatches. A read that asks for a watch arms its path: an exists
/// always, and any other read where its answer is no refusal.
fn armed_by(
    alloc: Global,
    request: &Request,
    is_good: bool,
    watches: Watches,
) -> Result<Watches, Memory>
    ensures { IfOk result (λ w. w ≡ armed_by_of request.now is_good watches) }
{
    match request {
        Request::Exists { path, watch: true } => watches.arm_data(alloc, path.as_slice()),
        Request::GetData { path, watch: true } if is_good => {
            watches.arm_data(alloc, path.as_slice())
        }
        Request::GetChildren { path, watch: true } | Request::GetChildren2 { path, watch: true }
            if is_good => { watches.arm_children(alloc, path.as_slice()) }
        _ => Ok(watches),
    }
}

/// What the tree told where nothing was armed, and the watches after it.
fn with_watches(
    alloc: Global,
    request: &Request,
    told: Told,
    watches: Watches,
) -> Result<Told, Memory>
    ensures { IfOk result (λ t. told_of t ≡ with_armed request.now watches (told_of told)) }
{
    let watches = armed_by(alloc, request, is_good(&told.reply), watches)?;
    Ok(Told {
        reply: told.reply,
        notices: told.notices,
        watches,
    })
}

/// The tree's answer to a request, where these watches are armed. They are copied.
fn tree_told(
    alloc: Global,
    state: &State,
    party: Party,
    watches: &Watches,
    request: &Request,
) -> Result<Option<Told>, Memory>
    requires { FitsRequest state.now.tree (owned_limit_in (session_at party.session state.now)) party.session request.now (pos 0) 0 }
    ensures { IfOk result (λ o. option_map told_of o ≡ tree_reply_of state.now.tree (owned_limit_in (session_at party.session state.now)) party.session watches.now request.now) }
{
    match tree_reply(
        alloc,
        state.tree(),
        state.owned_limit(party.session),
        party.session,
        watches,
        request,
    ) {
        Ok(told) => Ok(told),
        Err(Fault::Memory) => Err(Memory),
        Err(Fault::Beyond) => unreachable!(),
    }
}

/// The tree's answer to a request. Only a setWatches copies the watches that are armed before it: any other request is put to the
/// tree as if none were, and what it arms is added to them.
pub fn tree_answer(
    alloc: Global,
    state: &State,
    party: Party,
    watches: Watches,
    request: &Request,
) -> Result<Option<Told>, Memory>
    requires { FitsRequest state.now.tree (owned_limit_in (session_at party.session state.now)) party.session request.now (pos 0) 0 }
    ensures { IfOk result (λ o. option_map told_of o ≡ tree_reply_of state.now.tree (owned_limit_in (session_at party.session state.now)) party.session watches request.now) }
{
    if is_set_watches(request) {
        return tree_told(alloc, state, party, &watches, request);
    }
    match tree_told(alloc, state, party, &Watches::new(alloc), request)? {
        Some(told) => Ok(Some(with_watches(alloc, request, told, watches)?)),
        None => Ok(None),
    }
}
