//! A create that is answered with the new node's Stat (`create2`, release 3.5).

ghost use Rattle.std.specs.Prelude.{◌≡◌, ◌≤◌, ◌<◌, ◌^◌, ◌≤ℤ◌, pos, length, true, IfOk};
ghost use Rattle.zx_base.specs.Maps.{Bytes as ByteList};
ghost use Rattle.zk_model.specs.declared.request.Request.TheVariants as req;
ghost use Rattle.zk_model.specs.Limits.{max_frame};
ghost use Rattle.zk_service.specs.States.{made_stat};
ghost use Rattle.zn_view.specs.Deciding.{IfPlanned, IsToldByForm, is_by_tree};
ghost use Rattle.zn_view.specs.Needs.{AreNeeds, IsWhole};
ghost use Rattle.zn_updates.specs.Deciding.{IsBySound, IsGuarded};
ghost use Rattle.zn_updates.specs.WithStat.{plan_with_stat, reply_with_stat, with_stat};
ghost use Rattle.zn_updates.specs.Writing.{WritesAs};

use crate::asked::CreateAsked;
use crate::create::{create_needs, decide_create};
use std::alloc::Global;
use zk_model::flags::owner_of;
use zk_model::{Acl, Reply, Stat};
use zk_service::body_with_stat;
use zn_view::{Decision, Plan, View, Want, Who};
use zx_base::{Memory, Seq};

fn reply_with_stat(answer: Reply, stat: Stat) -> Reply
    ensures { result ≡ reply_with_stat stat answer }
{
    match answer {
        Reply::Good(body) => Reply::Good(body_with_stat(body, stat)),
        Reply::Refused(code) => Reply::Refused(code),
    }
}

fn plan_with_stat(plan: Plan, stat: Stat) -> Plan
    ensures { result ≡ plan_with_stat stat plan }
{
    let Plan {
        guards,
        success,
        again,
        draft,
        triggers,
    } = plan;
    Plan {
        guards,
        success,
        again,
        draft: reply_with_stat(draft, stat),
        triggers,
    }
}

fn with_stat(decision: Decision, stat: Stat) -> Decision
    ensures { result ≡ with_stat stat decision }
{
    match decision {
        Decision::Planned(plan) => Decision::Planned(plan_with_stat(plan, stat)),
        Decision::Answered { reply, arm } => Decision::Answered { reply, arm },
        Decision::Expired => Decision::Expired,
        Decision::Moved { found } => Decision::Moved { found },
    }
}

/// The Stat of the node that a create makes, with 0 for the zxid that its update gets.
fn draft_stat(content: &[u8], flags: i32, session: i64, now: u64) -> Stat
    requires time { now < 2 ^ 62 }
    requires short { length content.now ≤ max_frame }
    ensures { result ≡ made_stat flags content.now session (pos 0) now }
{
    Stat {
        czxid: 0,
        mzxid: 0,
        ctime: now as i64,
        mtime: now as i64,
        version: 0,
        cversion: 0,
        aversion: 0,
        ephemeral_owner: owner_of(flags, session),
        data_length: content.len() as i32,
        num_children: 0,
        pzxid: 0,
    }
}

/// Decides a create2: as a create, but that its reply has the new node's Stat too.
pub(crate) fn decide_create2(
    alloc: Global,
    asked: &CreateAsked<'_>,
    who: Who,
    now: u64,
    view: &View,
) -> Result<Decision, Memory>
    requires real { pos 1 ≤ℤ who.session }
    requires time { now < 2 ^ 62 }
    requires short { length asked.now.content.now ≤ max_frame }
    requires whole { IsWhole (req.Create2 asked.now.path.now asked.now.content.now asked.now.acl.now asked.now.flags) who view.now }
    ensures form { IfOk result (IsToldByForm (req.Create2 asked.now.path.now asked.now.content.now asked.now.acl.now asked.now.flags)) }
    ensures sound { IfOk result (IsBySound (req.Create2 asked.now.path.now asked.now.content.now asked.now.acl.now asked.now.flags) who view.now) }
    ensures tree { IfOk result (λ d. is_by_tree d ≡ true) }
    ensures plan { IfOk result (IfPlanned (IsGuarded (req.Create2 asked.now.path.now asked.now.content.now asked.now.acl.now asked.now.flags) who now view.now)) }
    ensures writes { IfOk result (IfPlanned (WritesAs (req.Create2 asked.now.path.now asked.now.content.now asked.now.acl.now asked.now.flags) who view.now)) }
{
    let stat = draft_stat(asked.content, asked.flags, who.session, now);
    let decision = decide_create(alloc, asked, who, now, view)?;
    Ok(with_stat(decision, stat))
}

/// What a create2 still has to look up, which is what a create has.
pub(crate) fn create2_needs(
    alloc: Global,
    path: &[u8],
    acl: &[Acl],
    flags: i32,
    who: Who,
    view: &View,
) -> Result<Seq<Want>, Memory>
    requires real { pos 1 ≤ℤ who.session }
    ensures { IfOk result (λ ws. (content : ByteList) → AreNeeds (req.Create2 path.now content acl.now flags) who view.now ws) }
{
    Ok(create_needs(alloc, path, acl, flags, who, view)?)
}
