//! The decision that a choice makes on a view.

ghost use Rattle.std.specs.Prelude.{◌≡◌, ◌∷◌, [], ◌++◌, IfOk};
ghost use Rattle.ev_types.specs.Reads.{read_key};
ghost use Rattle.zk_service.specs.States.{response_of};
ghost use Rattle.zn_layout.specs.Changes.{act_of, head_put};
ghost use Rattle.zn_layout.specs.Keys.{HeadKey, key_bytes};
ghost use Rattle.zn_layout.specs.Records.{IsHeadRec};
ghost use Rattle.zn_view.specs.Asks.{again_of, guards_of, narrowed, picked};
ghost use Rattle.zn_updates.specs.Choices.{Choice as AnyChoice};
ghost use Rattle.zn_updates.specs.Deciding.{IfMade, decision_of};
ghost use Rattle.zn_updates.specs.Making.{chosen_of};

use crate::chosen::{Chosen, Update};
use std::alloc::Global;
use zk_model::{Reply, Trigger};
use zk_service::response_of;
use zn_layout::HeadRec;
use zn_view::{Decision, Plan, View, refused, success};
use zx_base::{Bytes, Memory};

/// The plan of an update. It guards these keys as the view saw them, but for the head.
fn plan(alloc: Global, view: &View, keys: &[Bytes], update: Update) -> Result<Plan, Memory>
    requires { IsHeadRec update.triggers }
    ensures guards { IfOk result (λ p. p.guards ≡ guards_of (picked view.now keys.now)) }
    ensures success { IfOk result (λ p. p.success ≡ (update.acts ++ act_of (head_put update.triggers) ∷ []) ++ read_key (key_bytes HeadKey) ∷ []) }
    ensures again { IfOk result (λ p. p.again ≡ again_of (picked view.now keys.now)) }
    ensures draft { IfOk result (λ p. p.draft ≡ Reply.Good (response_of update.draft)) }
    ensures triggers { IfOk result (λ p. p.triggers ≡ update.triggers) }
{
    let head = HeadRec {
        triggers: update.triggers,
    };
    Ok(Plan {
        guards: view.guards_on(keys)?,
        success: success(alloc, update.acts, &head)?,
        again: view.again_on(keys)?,
        draft: Reply::Good(response_of(update.draft)),
        triggers: head.triggers,
    })
}

/// The decision of a choice that was made on these keys.
pub(crate) fn decision(
    alloc: Global,
    view: &View,
    keys: &[Bytes],
    chosen: Chosen,
) -> Result<Decision, Memory>
    requires { IfMade IsHeadRec chosen }
    ensures { IfOk result (λ d. (choice : AnyChoice) → chosen ≡ chosen_of choice → d ≡ decision_of (narrowed view.now keys.now) choice) }
{
    match chosen {
        Chosen::Refused(code) => Ok(refused(code)),
        Chosen::Made(update) => Ok(Decision::Planned(plan(alloc, view, keys, update)?)),
    }
}
