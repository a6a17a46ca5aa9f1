//! What a request needs, what is decided on it, and the reply that its plan earns.

ghost use Rattle.std.specs.Prelude.{◌<◌, ◌^◌, ◌≤◌, ◌≤ℤ◌, ◌↔◌, pos, length, IsTrue};
ghost use Rattle.zk_model.specs.Limits.{max_frame};
ghost use Rattle.zn_updates.specs.Parts.{part_content};
ghost use Rattle.zn_multi.specs.Carrying.{AreShort};

use crate::plans::{plan_text, push_act};
use crate::replies::push_reply;
use row_files::{Words, push_word, said, word_of};
use row_words::request;
use std::alloc::Global;
use zk_model::limit::MAX_FRAME;
use zk_model::{Part, Reply, Request};
use zn_multi::{decide_multi, needs_multi};
use zn_ops::{decide, finish, is_short, is_single, needs};
use zn_view::{Arm, Decision, Plan, View, Want, Who, ranges};
use zx_base::{Memory, Seq};

/// The time of a decision is below this, in milliseconds.
const TIMES: u64 = 4_611_686_018_427_387_904;

/// What a single request or a multi needs; `None` for a closeSession, or a session number below 1.
fn wanted(
    alloc: Global,
    request: &Request,
    who: Who,
    view: &View,
) -> Result<Option<Seq<Want>>, Memory> {
    if who.session < 1 {
        return Ok(None);
    }
    if let Request::Multi { parts } = request {
        return Ok(Some(needs_multi(alloc, parts.as_slice(), who, view)?));
    }
    if !is_single(request) {
        return Ok(None);
    }
    Ok(Some(needs(alloc, request, who, view)?))
}

fn is_short_part(part: &Part) -> bool
    ensures { IsTrue result ↔ length (part_content part.now) ≤ max_frame }
{
    match part {
        Part::Create { content, .. } | Part::SetData { content, .. } => content.len() <= MAX_FRAME,
        Part::Delete { .. } | Part::Check { .. } => true,
    }
}

fn are_short(parts: &[Part]) -> bool
    ensures { IsTrue result → AreShort parts.now }
{
    parts.iter().all(|part| is_short_part(part))
}

/// The decision on a single request; `None` where something is lacking, the request is no single one, or its data is too long.
fn decision_alone(
    alloc: Global,
    request: &Request,
    who: Who,
    now: u64,
    view: &View,
) -> Result<Option<Decision>, Memory>
    requires real { pos 1 ≤ℤ who.session }
    requires time { now < 2 ^ 62 }
{
    if !is_single(request) || !is_short(request) {
        return Ok(None);
    }
    let wants = needs(alloc, request, who, view)?;
    if !wants.as_slice().is_empty() {
        return Ok(None);
    }
    Ok(Some(decide(alloc, request, who, now, view)?))
}

/// The decision on a multi of these parts; `None` where something is lacking, or a part's data is too long.
fn decision_on_parts(
    alloc: Global,
    parts: &[Part],
    who: Who,
    now: u64,
    view: &View,
) -> Result<Option<Decision>, Memory>
    requires real { pos 1 ≤ℤ who.session }
    requires time { now < 2 ^ 62 }
{
    if !are_short(parts) {
        return Ok(None);
    }
    let wants = needs_multi(alloc, parts, who, view)?;
    if !wants.as_slice().is_empty() {
        return Ok(None);
    }
    Ok(Some(decide_multi(alloc, parts, who, now, view)?))
}

/// The decision; `None` where something is lacking, or `decide` and `decide_multi` do not take these arguments.
pub fn decision(
    alloc: Global,
    request: &Request,
    who: Who,
    now: u64,
    view: &View,
) -> Result<Option<Decision>, Memory> {
    if who.session < 1 || TIMES <= now {
        return Ok(None);
    }
    match request {
        Request::Multi { parts } => decision_on_parts(alloc, parts.as_slice(), who, now, view),
        _ => decision_alone(alloc, request, who, now, view),
    }
}

fn push_want(text: &mut String, want: &Want) -> Result<(), Memory> {
    match want {
        Want::Key(key) => push_word(text, word_of(key.as_slice())),
        Want::Children(path) => {
            push_word(text, "children")?;
            push_word(text, word_of(path.bytes()))
        }
    }
}

/// `SESSION REQUEST`: what the request needs
fn wants_of(alloc: Global, view: &View, words: &mut Words) -> Result<Option<Seq<Want>>, Memory> {
    let Some(session) = words.long() else {
        return Ok(None);
    };
    let Some(request) = request(alloc, words)? else {
        return Ok(None);
    };
    wanted(alloc, &request, Who { session, mine: 0 }, view)
}

/// `SESSION REQUEST`: its wants, in words
pub fn needed(alloc: Global, view: &View, words: &mut Words) -> Result<Option<String>, Memory> {
    let Some(wants) = wants_of(alloc, view, words)? else {
        return Ok(None);
    };
    let mut text = String::from_str(alloc, "wants")?;
    for want in wants.as_slice() {
        push_want(&mut text, want)?;
    }
    Ok(Some(text))
}

/// `SESSION REQUEST`: the ranges that read what it needs, at the view's revision
pub fn read(alloc: Global, view: &View, words: &mut Words) -> Result<Option<String>, Memory> {
    let Some(wants) = wants_of(alloc, view, words)? else {
        return Ok(None);
    };
    let acts = ranges(alloc, view.revision(), wants.as_slice())?;
    let mut text = String::from_str(alloc, "reads")?;
    for act in acts.as_slice() {
        push_act(alloc, &mut text, act)?;
    }
    Ok(Some(text))
}

fn push_arm(text: &mut String, arm: &Option<Arm>) -> Result<(), Memory> {
    let Some(arm) = arm else {
        return Ok(());
    };
    push_word(text, if arm.child { "arms child" } else { "arms data" })?;
    push_word(text, word_of(arm.path.bytes()))
}

fn decision_text(alloc: Global, decision: &Decision) -> Result<String, Memory> {
    match decision {
        Decision::Answered { reply, arm } => {
            let mut text = String::from_str(alloc, "answered")?;
            push_reply(alloc, &mut text, reply)?;
            push_arm(&mut text, arm)?;
            Ok(text)
        }
        Decision::Planned(plan) => plan_text(alloc, plan),
        Decision::Expired => Ok(String::from_str(alloc, "expired")?),
        Decision::Moved { found } => Ok(format!(in alloc; "moved {found}")?),
    }
}

/// For whom it is decided, and at which time.
#[derive(Clone, Copy)]
struct Turn {
    who: Who,
    now: u64,
}

/// `SESSION MINE NOW`
fn turn_of(words: &mut Words) -> Option<Turn> {
    let session = words.long()?;
    let mine = words.long()?;
    let now = words.place()?;
    Some(Turn {
        who: Who { session, mine },
        now,
    })
}

/// `REQUEST`: the decision on it; none where the words spell no request
fn decision_in(
    alloc: Global,
    turn: Turn,
    view: &View,
    words: &mut Words,
) -> Result<Option<Option<Decision>>, Memory> {
    match request(alloc, words)? {
        Some(request) => Ok(Some(decision(alloc, &request, turn.who, turn.now, view)?)),
        None => Ok(None),
    }
}

/// `SESSION MINE NOW REQUEST`: the decision, in words
pub fn decided(alloc: Global, view: &View, words: &mut Words) -> Result<Option<String>, Memory> {
    let Some(turn) = turn_of(words) else {
        return Ok(None);
    };
    match decision_in(alloc, turn, view, words)? {
        Some(decision) => decided_text(alloc, &decision),
        None => Ok(None),
    }
}

fn decided_text(alloc: Global, decision: &Option<Decision>) -> Result<Option<String>, Memory> {
    match decision {
        Some(decision) => Ok(Some(decision_text(alloc, decision)?)),
        None => said(alloc, "lacks something"),
    }
}

/// `SESSION MINE NOW ZXID REQUEST`: the reply that its plan earns at that zxid
pub fn finished(alloc: Global, view: &View, words: &mut Words) -> Result<Option<String>, Memory> {
    let Some(turn) = turn_of(words) else {
        return Ok(None);
    };
    let Some(zxid) = words.long() else {
        return Ok(None);
    };
    match decision_in(alloc, turn, view, words)? {
        Some(decision) => finished_text(alloc, decision, zxid),
        None => Ok(None),
    }
}

fn finished_text(
    alloc: Global,
    decision: Option<Decision>,
    zxid: i64,
) -> Result<Option<String>, Memory> {
    match decision {
        Some(Decision::Planned(plan)) => Ok(Some(replied(alloc, plan, zxid)?)),
        _ => said(alloc, "no plan"),
    }
}

fn replied(alloc: Global, plan: Plan, zxid: i64) -> Result<String, Memory> {
    let reply = finish(alloc, plan, zxid)?;
    reply_text(alloc, &reply)
}

fn reply_text(alloc: Global, reply: &Reply) -> Result<String, Memory> {
    let mut text = String::from_str(alloc, "replies")?;
    push_reply(alloc, &mut text, reply)?;
    Ok(text)
}
