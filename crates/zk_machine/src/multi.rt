//! Several requests as one transaction (`multi` of the ZooKeeper API).

ghost use Rattle.std.specs.Prelude.{◌≡◌, [], ◌+◌, ◌<◌, ℕ, length, nat_lt, sum_by, IfOk, IfErr};
ghost use Rattle.std.specs.FinMap.{get};
ghost use Rattle.std.specs.Option.{option_to_list};
ghost use Rattle.zk_model.specs.Multi.{load, several, parts_of, then_parts, touched_by, owner_list};
ghost use Rattle.zk_model.specs.Znodes.{Tree as Nodes, owned};
ghost use Rattle.zk_machine.specs.Faults.{BeyondUnless, StaysWithin};
ghost use Rattle.zk_machine.specs.Outcomes.{parts_as, IsPlacedBelow, several_as};
ghost use Rattle.zk_model.specs.Loads.{within};
ghost use Rattle.zk_machine.specs.Writes.{AreTold, written_all};
ghost use Rattle.zk_model.specs.Limits.{max_load};

use crate::draft::Draft;
use crate::drafting::carried_out_if;
use crate::fault::Fault;
use crate::outcome::Outcome;
use crate::requests::single;
use crate::tree::Tree;
use crate::turn::Turn;
use crate::write::Write;
use std::alloc::Global;
use zk_model::code::BAD_ARGUMENTS;
use zk_model::flags::is_ephemeral;
use zk_model::load::{data_load, distinct, joined, listed, path_load, row_of};
use zk_model::{Part, PartResult, Trigger};
use zx_base::{Memory, Seq};

/// What the parts make of the tree in turn.
#[derive(Drop)]
pub enum Parts {
    /// The place of the first part that is refused, counted from 0, and its code.
    Stopped {
        place: usize,
        code: i32,
    },
    /// No part is refused.
    Passed {
        results: Vec<PartResult>,
        writes: Vec<Write>,
        triggers: Vec<Trigger>,
        /// The session of each ephemeral node that was made or removed, in the order of the parts.
        touched: Vec<i64>,
    },
}

fn owner(tree: &Draft, path: &[u8]) -> Option<i64>
    ensures { option_to_list result ≡ owner_list (get tree.now path.now) }
{
    match tree.get(path) {
        Some(node) if node.owner != 0 => Some(node.owner),
        _ => None,
    }
}

/// The session whose ephemeral node a part makes or removes.
fn touched_by(tree: &Draft, session: i64, part: &Part) -> Option<i64>
    ensures { option_to_list result ≡ touched_by tree.now session part.now }
{
    match part {
        Part::Create { flags, .. } if is_ephemeral(*flags) => Some(session),
        Part::Delete { path, .. } => owner(tree, path.as_slice()),
        _ => None,
    }
}

fn listed_if(alloc: Global, item: Option<i64>) -> Result<Vec<i64>, Memory>
    ensures { IfOk result (λ v. v.items ≡ option_to_list item) }
{
    match item {
        Some(item) => listed(alloc, item),
        None => Ok(Vec::new(alloc)),
    }
}

/// What comes of a part that was not refused and of the later parts.
fn passed_on(
    alloc: Global,
    outcome: PartResult,
    triggers: Seq<Trigger>,
    touched: Option<i64>,
    later: Parts,
) -> Result<Parts, Memory>
    requires { IsPlacedBelow later 18446744073709551615 }
    ensures { IfOk result (λ p. (t : Nodes) → parts_as t p ≡ then_parts outcome triggers (option_to_list touched) (parts_as t later)) }
{
    match later {
        Parts::Stopped { place, code } => Ok(Parts::Stopped {
            place: place + 1,
            code,
        }),
        Parts::Passed {
            results,
            writes,
            triggers: more,
            touched: others,
        } => Ok(Parts::Passed {
            results: joined(listed(alloc, outcome)?, results)?,
            writes,
            triggers: joined(triggers.into_vec(), more)?,
            touched: joined(listed_if(alloc, touched)?, others)?,
        }),
    }
}

/// What the parts make in turn of the tree with these writes. It recurs once for each part, and each part looks at all writes of
/// the parts before it.
#[tactic(auto, unfolding(zk_model::specs::Multi::parts_of))]
fn parts_of(
    alloc: Global,
    tree: &Tree,
    writes: Vec<Write>,
    turn: &Turn,
    parts: &[Part],
) -> Result<Parts, Fault>
    requires { AreTold tree.now writes.items }
    ensures ok { IfOk result (λ p. parts_as tree.now p ≡ parts_of (written_all tree.now writes.items) turn.now.limit turn.now.session parts.now turn.now.zxid turn.now.time) }
    ensures within { IfOk result (λ p. IsPlacedBelow p (length parts.now)) }
    ensures beyond { IfErr result (BeyondUnless (StaysWithin (written_all tree.now writes.items) turn.now.limit turn.now.session parts.now turn.now.zxid turn.now.time)) }
{
    match parts {
        [] => Ok(Parts::Passed {
            results: Vec::new(alloc),
            writes,
            triggers: Vec::new(alloc),
            touched: Vec::new(alloc),
        }),
        [first, rest @ ..] => match single(alloc, &Draft::after(tree, &writes), turn, first)? {
            Outcome::Refused(code) => Ok(Parts::Stopped { place: 0, code }),
            Outcome::Done {
                result: outcome,
                edit,
                triggers,
            } => {
                let touched = touched_by(&Draft::after(tree, &writes), turn.session, first);
                let next = carried_out_if(alloc, tree, writes, edit)?;
                let later = parts_of(alloc, tree, next, turn, rest)?;
                Ok(passed_on(alloc, outcome, triggers, touched, later)?)
            }
        },
    }
}

/// How many bytes the paths of these sessions' nodes have, added to a sum, or `None` above 1,000,000.
fn owned_load(
    alloc: Global,
    tree: &Tree,
    sessions: &[i64],
    before: Option<usize>,
) -> Result<Option<usize>, Memory>
    ensures { IfOk result (λ sum. (n : ℕ) → before ≡ within n → sum ≡ within (n + sum_by (λ s. sum_by length (owned tree.now s)) sessions.now)) }
{
    let mut sum = before;
    for session in sessions {
        let paths = tree.owned(alloc, *session)?;
        sum = path_load(&paths, sum);
    }
    Ok(sum)
}

/// Whether the load of a transaction on this tree is above 1,000,000.
fn exceeds(alloc: Global, tree: &Tree, parts: &[Part], touched: &[i64]) -> Result<bool, Memory>
    ensures { IfOk result (λ above. above ≡ nat_lt max_load (load tree.now parts.now touched.now)) }
{
    let sessions = distinct(alloc, touched)?;
    Ok(owned_load(alloc, tree, &sessions, data_load(parts))?.is_none())
}

/// What comes of a multi.
#[derive(Drop)]
pub enum Transaction {
    /// The transaction is refused as a whole, with this code.
    Denied(i32),
    /// A part is refused: the code of each part.
    Codes(Seq<PartResult>),
    /// No part is refused: the result of each part, and what they do together.
    All {
        results: Seq<PartResult>,
        /// The changes of the tree, in order.
        writes: Seq<Write>,
        triggers: Seq<Trigger>,
    },
}

/// What several requests make of the tree as one transaction, which is done whole or not at all.
#[tactic(auto, unfolding(zk_model::specs::Multi::several))]
pub fn several(
    alloc: Global,
    tree: &Tree,
    turn: &Turn,
    parts: &[Part],
) -> Result<Transaction, Fault>
    ensures ok { IfOk result (λ s. several_as tree.now s ≡ several tree.now turn.now.limit turn.now.session parts.now turn.now.zxid turn.now.time) }
    ensures beyond { IfErr result (BeyondUnless (StaysWithin tree.now turn.now.limit turn.now.session parts.now turn.now.zxid turn.now.time)) }
{
    match parts_of(alloc, tree, Vec::new(alloc), turn, parts)? {
        Parts::Stopped { place, code } => {
            let row = row_of(alloc, parts.len(), place, code)?;
            Ok(Transaction::Codes(Seq::from_vec(row)))
        }
        Parts::Passed {
            results,
            writes,
            triggers,
            touched,
        } => {
            if exceeds(alloc, tree, parts, &touched)? {
                return Ok(Transaction::Denied(BAD_ARGUMENTS));
            }
            Ok(Transaction::All {
                results: Seq::from_vec(results),
                writes: Seq::from_vec(writes),
                triggers: Seq::from_vec(triggers),
            })
        }
    }
}
