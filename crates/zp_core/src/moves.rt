//! What a connection does, and the stage that it has then.

ghost use Rattle.std.specs.Prelude.{◌≡◌, ◌∷◌, [], ◌++◌, IfOk, OnOk};
ghost use Rattle.zp_step.specs.declared.action.Action.TheVariants as action;
ghost use Rattle.zp_step.specs.Replies.{close_after, stage_after};
ghost use Rattle.zp_core.specs.Meanings.{stage_of, Shuts};

use crate::stage::Stage;
use std::alloc::Global;
use zk_service::Cause;
use zp_step::Action;
use zx_base::{Memory, Seq};

/// What a connection does, and the stage that it has then.
#[derive(Drop)]
pub struct Move {
    pub stage: Stage,
    pub actions: Seq<Action>,
}

/// A list of one action.
pub(crate) fn only(alloc: Global, action: Action) -> Result<Seq<Action>, Memory>
    ensures { IfOk result (λ actions. actions ≡ action ∷ []) }
{
    let mut actions = Seq::new(alloc);
    actions.push(action)?;
    Ok(actions)
}

/// The connection stays in this stage, and does nothing.
pub(crate) fn rest(alloc: Global, stage: Stage) -> Move
    ensures { result ≡ record { stage = stage; actions = [] } }
{
    Move {
        stage,
        actions: Seq::new(alloc),
    }
}

/// The connection is closed, and nothing is sent.
pub(crate) fn close(alloc: Global, why: Cause) -> Result<Move, Memory>
    ensures { IfOk result (Shuts why) }
{
    Ok(Move {
        stage: Stage::Shut,
        actions: only(alloc, Action::Close(why))?,
    })
}

/// After these actions the connection is ready, or is closed for a cause.
pub(crate) fn end_after(mut actions: Seq<Action>, ends: Option<Cause>) -> Result<Move, Memory>
    ensures stage { IfOk result (λ m. stage_of m.stage ≡ stage_after ends) }
    ensures actions { IfOk result (λ m. m.actions ≡ actions ++ close_after ends) }
{
    match ends {
        None => Ok(Move {
            stage: Stage::Ready,
            actions,
        }),
        Some(why) => {
            actions.push(Action::Close(why))?;
            Ok(Move {
                stage: Stage::Shut,
                actions,
            })
        }
    }
}

/// Adds further actions at the end.
pub(crate) fn append(actions: &mut Vec<Action>, more: Seq<Action>) -> Result<(), Memory>
    ensures { OnOk result (actions.new.items ≡ actions.old.items ++ more) }
{
    let mut more = more.into_vec();
    actions.append(&mut more)?;
    Ok(())
}

/// These actions, and then those of a move.
pub(crate) fn with_first(actions: Seq<Action>, then: Move) -> Result<Move, Memory>
    ensures { IfOk result (λ m. m ≡ record { stage = then.stage; actions = actions ++ then.actions }) }
{
    let mut all = actions.into_vec();
    let mut more = then.actions.into_vec();
    all.append(&mut more)?;
    Ok(Move {
        stage: then.stage,
        actions: Seq::from_vec(all),
    })
}
