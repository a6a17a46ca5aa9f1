//! One request by itself, on a tree.

ghost use Rattle.std.specs.Prelude.{◌≡◌, ◌≤◌, length, IfOk, IfErr};
ghost use Rattle.zk_model.specs.declared.request.Part.TheVariants as part;
ghost use Rattle.zk_model.specs.Single.{single};
ghost use Rattle.zk_model.specs.Multi.{data_len};
ghost use Rattle.zk_machine.specs.Faults.{BeyondUnless, IsWithin};
ghost use Rattle.zk_machine.specs.Outcomes.{outcome_of};
ghost use Rattle.zk_model.specs.Limits.{max_frame};

use crate::draft::Draft;
use crate::fault::Fault;
use crate::outcome::Outcome;
use crate::requests;
use crate::tree::Tree;
use crate::turn::Turn;
use std::alloc::Global;
use zk_model::{Acl, Part};
use zx_base::Memory;

/// A create as the only request (Programmer's Guide, "ZNodes", "Sequence Nodes -- Unique Naming").
pub fn single_create(
    alloc: Global,
    tree: &Tree,
    turn: &Turn,
    text: &[u8],
    content: &[u8],
    acl: &[Acl],
    flags: i32,
) -> Result<Outcome, Fault>
    ensures ok { IfOk result (λ o. outcome_of tree.now o ≡ single tree.now turn.now.limit turn.now.session (part.Create text.now content.now acl.now flags) turn.now.zxid turn.now.time) }
    ensures beyond { IfErr result (BeyondUnless (IsWithin tree.now)) }
{
    requests::single_create(alloc, &Draft::of(tree), turn, text, content, acl, flags)
}

/// A delete as the only request.
pub fn single_delete(
    alloc: Global,
    tree: &Tree,
    turn: &Turn,
    text: &[u8],
    version: i32,
) -> Result<Outcome, Memory>
    ensures { IfOk result (λ o. outcome_of tree.now o ≡ single tree.now turn.now.limit turn.now.session (part.Delete text.now version) turn.now.zxid turn.now.time) }
{
    requests::single_delete(alloc, &Draft::of(tree), turn, text, version)
}

/// A setData as the only request.
pub fn single_set_data(
    alloc: Global,
    tree: &Tree,
    turn: &Turn,
    text: &[u8],
    content: &[u8],
    version: i32,
) -> Result<Outcome, Fault>
    ensures ok { IfOk result (λ o. outcome_of tree.now o ≡ single tree.now turn.now.limit turn.now.session (part.SetData text.now content.now version) turn.now.zxid turn.now.time) }
    ensures beyond { IfErr result (BeyondUnless (IsWithin tree.now × (length content.now ≤ max_frame))) }
{
    requests::single_set_data(alloc, &Draft::of(tree), turn, text, content, version)
}

/// A check as the only request, which changes nothing.
pub fn single_check(
    alloc: Global,
    tree: &Tree,
    turn: &Turn,
    text: &[u8],
    version: i32,
) -> Result<Outcome, Memory>
    ensures { IfOk result (λ o. outcome_of tree.now o ≡ single tree.now turn.now.limit turn.now.session (part.Check text.now version) turn.now.zxid turn.now.time) }
{
    requests::single_check(alloc, &Draft::of(tree), turn, text, version)
}

/// What one create, delete, setData or check makes of the tree.
pub fn single(alloc: Global, tree: &Tree, turn: &Turn, part: &Part) -> Result<Outcome, Fault>
    ensures ok { IfOk result (λ o. outcome_of tree.now o ≡ single tree.now turn.now.limit turn.now.session part.now turn.now.zxid turn.now.time) }
    ensures beyond { IfErr result (BeyondUnless (IsWithin tree.now × (data_len part.now ≤ max_frame))) }
{
    requests::single(alloc, &Draft::of(tree), turn, part)
}
