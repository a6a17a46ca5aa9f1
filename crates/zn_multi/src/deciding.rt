//! The decision on a multi: the number of its parts first, then its session, then the tree.

ghost use Rattle.std.specs.Prelude.{◌^◌, ◌≡◌, ◌≤◌, ◌≤ℤ◌, ◌<◌, pos, nat_abs, length, None, IfOk};
ghost use Rattle.zk_model.specs.Codes.{bad_arguments};
ghost use Rattle.zk_model.specs.Limits.{max_parts};
ghost use Rattle.zn_layout.specs.Keys.{LeaseKey};
ghost use Rattle.zn_layout.specs.Records.{IsHeadRec};
ghost use Rattle.zk_model.specs.declared.request.Request.TheVariants as requests;
ghost use Rattle.zn_view.specs.Asks.{WritesOnce};
ghost use Rattle.zn_view.specs.Deciding.{IfPlanned, IsGood, IsTested, IsToldByForm};
ghost use Rattle.zn_view.specs.Lookups.{HasSeen, sees};
ghost use Rattle.zn_view.specs.Needs.{IsWhole};
ghost use Rattle.zn_view.specs.Views.{IsDecision};
ghost use Rattle.zn_multi.specs.Deciding.{IsByLife, IsInTurn, IsPlanOn};
ghost use Rattle.zn_multi.specs.Carrying.{AreShort};

use crate::carrying::{Carried, Progress, carry_out};
use crate::laying::all_written;
use crate::load::exceeds;
use crate::reading::{each_once, keys_read};
use std::alloc::Global;
use zk_model::code::BAD_ARGUMENTS;
use zk_model::limit::MAX_PARTS;
use zk_model::load::row_of;
use zk_model::{Body, Part, Reply};
use zn_layout::HeadRec;
use zn_ops::attached_at;
use zn_view::{Decision, Plan, View, Who, refused, success};
use zx_base::{Bytes, Memory, Seq};

/// The plan of the update that all parts make together.
fn plan(alloc: Global, view: &View, keys: &[Bytes], passed: Progress) -> Result<Plan, Memory>
    requires { IsHeadRec passed.triggers }
    ensures { IfOk result (IsPlanOn view.now keys.now passed) }
{
    let head = HeadRec {
        triggers: passed.triggers,
    };
    Ok(Plan {
        guards: view.guards_on(keys)?,
        success: success(alloc, all_written(alloc, passed.over, view)?, &head)?,
        again: view.again_on(keys)?,
        draft: Reply::Good(Body::Parts(passed.results)),
        triggers: head.triggers,
    })
}

/// Decides a multi whose session is attached to this connection.
fn decide_by_tree(
    alloc: Global,
    parts: &[Part],
    who: Who,
    now: u64,
    view: &View,
) -> Result<Decision, Memory>
    requires time { now < 2 ^ 62 }
    requires short { AreShort parts.now }
    requires real { pos 1 ≤ℤ who.session }
    requires few { length parts.now ≤ max_parts }
    ensures { IfOk result (IsInTurn who now view.now parts.now) }
{
    match carry_out(alloc, parts, who, now, view)? {
        Carried::Stopped { place, code } => Ok(Decision::Answered {
            reply: Reply::Good(Body::Parts(Seq::from_vec(row_of(
                alloc,
                parts.len(),
                place,
                code,
            )?))),
            arm: None,
        }),
        Carried::Passed(passed) => {
            if exceeds(alloc, parts, passed.touched.as_slice(), view)? {
                return Ok(refused(BAD_ARGUMENTS));
            }
            let keys = each_once(alloc, keys_read(alloc, parts, who.session, view)?)?;
            Ok(Decision::Planned(plan(alloc, view, keys.as_slice(), passed)?))
        }
    }
}

/// Decides a multi that does not have too many parts.
fn decide_by_session(
    alloc: Global,
    parts: &[Part],
    who: Who,
    now: u64,
    view: &View,
) -> Result<Decision, Memory>
    requires time { now < 2 ^ 62 }
    requires short { AreShort parts.now }
    requires real { pos 1 ≤ℤ who.session }
    requires few { length parts.now ≤ max_parts }
    requires life { HasSeen view.now (LeaseKey (nat_abs who.session)) }
    ensures { IfOk result (λ d. IsByLife who now view.now parts.now d (sees view.now (LeaseKey (nat_abs who.session)))) }
{
    let Some(found) = attached_at(view, who.session)? else {
        return Ok(Decision::Expired);
    };
    if found != who.mine {
        return Ok(Decision::Moved { found });
    }
    decide_by_tree(alloc, parts, who, now, view)
}

/// Decides a multi of these parts on a view that lacks nothing that it reads: [`needs_multi`](crate::needs_multi) names nothing
/// of that view. `now` is in milliseconds since 1970, below 2^62; the session's number is at least 1.
///
/// More than [`MAX_PARTS`] parts are refused with BadArguments. The session has expired where the record of its life is not there, and has
/// moved where that was put at another revision than `who.mine`. Otherwise the parts are carried out in turn. A plan carries the
/// update out, guards what the multi reads and writes each key once; on a view of a sound state it is small enough for an etcd.
pub fn decide_multi(
    alloc: Global,
    parts: &[Part],
    who: Who,
    now: u64,
    view: &View,
) -> Result<Decision, Memory>
    requires time { now < 2 ^ 62 }
    requires short { AreShort parts.now }
    requires real { pos 1 ≤ℤ who.session }
    requires whole { IsWhole (requests.Multi parts.now) who view.now }
    ensures decision { IfOk result (IsDecision (requests.Multi parts.now) who view.now) }
    ensures form { IfOk result (IsToldByForm (requests.Multi parts.now)) }
    ensures tested { IfOk result (IsTested (requests.Multi parts.now) who view.now) }
    ensures plan { IfOk result (IfPlanned (IsGood (requests.Multi parts.now) who now view.now)) }
    ensures once { IfOk result (IfPlanned WritesOnce) }
    ensures life { IfOk result (λ d. length parts.now ≤ max_parts → IsByLife who now view.now parts.now d (sees view.now (LeaseKey (nat_abs who.session)))) }
    ensures many { IfOk result (λ d. max_parts < length parts.now → d ≡ Decision.Answered (Reply.Refused bad_arguments) None) }
{
    if MAX_PARTS < parts.len() {
        return Ok(refused(BAD_ARGUMENTS));
    }
    decide_by_session(alloc, parts, who, now, view)
}
