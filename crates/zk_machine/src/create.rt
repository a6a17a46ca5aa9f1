//! Creates (Programmer's Guide, "ZNodes", "Ephemeral Nodes", "Sequence Nodes -- Unique Naming").

ghost use Rattle.std.specs.Prelude.{◌≡◌, ◌∷◌, [], ◌||◌, ◌&&◌, pos, ◌+ℤ◌, ◌≤ℤ◌, nat_le, length, None, Some, IfOk, IfErr, IsTrue};
ghost use Rattle.std.specs.Ordering.{int_eq};
ghost use Rattle.std.specs.FinMap.{get, insert};
ghost use Rattle.zk_model.specs.declared.reply.PartResult.TheVariants as results;
ghost use Rattle.zk_model.specs.declared.node.Trigger.TheVariants as trigger;
ghost use Rattle.zk_model.specs.PathFaults.{is_valid, tested};
ghost use Rattle.zk_model.specs.Single.{Done, is_ephemeral, is_sequential, is_full, with_child, made_path, create};
ghost use Rattle.zk_model.specs.Znodes.{Tree as Nodes, new_node, owned, root_alone};
ghost use Rattle.zk_machine.specs.Faults.{BeyondUnless, IsWithin};
ghost use Rattle.zk_machine.specs.Creates.{wished_node, create_node_by, create_under_by};
ghost use Rattle.zk_machine.specs.declared.edit.Edit.TheVariants as edits;
ghost use Rattle.zk_machine.specs.Edits.{edited};
ghost use Rattle.zk_machine.specs.Outcomes.{outcome_of};
ghost use Rattle.zk_model.specs.Limits.{max_creates};

use crate::draft::Draft;
use crate::edit::Edit;
use crate::fault::Fault;
use crate::outcome::Outcome;
use crate::tree::Tree;
use crate::turn::Turn;
use std::alloc::Global;
use zk_model::code::{NO_CHILDREN_FOR_EPHEMERALS, NO_NODE, NODE_EXISTS, SYSTEM_ERROR};
use zk_model::flags::{is_ephemeral, is_sequential, owner_of};
use zk_model::limit::MAX_CREATES;
use zk_model::{Node, PartResult, Path, Trigger};
use zx_base::{Bytes, Memory, Seq, Text};

/// A new node, made at this zxid and time.
fn new_node(alloc: Global, content: &[u8], owner: i64, turn: &Turn) -> Result<Node, Memory>
    ensures { IfOk result (λ n. n ≡ new_node content.now owner turn.now.zxid turn.now.time) }
{
    Ok(Node {
        content: Bytes::copy_of(alloc, content)?,
        czxid: turn.zxid,
        mzxid: turn.zxid,
        pzxid: turn.zxid,
        ctime: turn.time as i64,
        mtime: turn.time as i64,
        version: 0,
        creates: 0,
        owner,
    })
}

/// The tree of a new service: the root alone.
pub fn begin(alloc: Global, turn: &Turn) -> Result<Tree, Memory>
    ensures { IfOk result (λ t. t ≡ root_alone turn.now.zxid turn.now.time) }
{
    let mut tree = Tree::new(alloc);
    let node = new_node(alloc, b"".as_slice(), 0, turn)?;
    tree.put(alloc, Path::root(alloc)?, node)?;
    Ok(tree)
}

/// A count of creates, and one more.
fn counted(creates: i32) -> Result<i32, Fault>
    ensures ok { IfOk result (λ more. more ≡ creates +ℤ pos 1) }
    ensures beyond { IfErr result (BeyondUnless (creates ≤ℤ max_creates)) }
{
    match creates.checked_add(1) {
        Some(more) => Ok(more),
        None => Err(Fault::Beyond),
    }
}

fn has_most(tree: &Draft, limit: usize, session: i64) -> bool
    ensures { result ≡ nat_le limit (length (owned tree.now session)) }
{
    limit <= tree.num_owned(session)
}

fn is_full_by(creates: i32, ephemeral: bool, most: bool) -> bool
    ensures { result ≡ int_eq creates max_creates || (ephemeral && most) }
{
    creates == MAX_CREATES || (ephemeral && most)
}

/// Whether the parent can count no further create, or the session may own no further ephemeral node and this is to be one.
fn is_full(tree: &Draft, turn: &Turn, flags: i32, parent: &Node) -> bool
    ensures { result ≡ is_full tree.now turn.now.limit turn.now.session flags parent.now }
{
    if !is_ephemeral(flags) {
        return is_full_by(parent.creates, false, false);
    }
    is_full_by(
        parent.creates,
        true,
        has_most(tree, turn.limit, turn.session),
    )
}

/// The outcome of a create that nothing refuses.
fn made(
    alloc: Global,
    parent: Path,
    creates: i32,
    zxid: i64,
    path: Path,
    node: Node,
) -> Result<Outcome, Memory>
    ensures { IfOk result (λ o. (t : Nodes) → outcome_of t o ≡ Done (results.Created path) (edited t (edits.Made parent creates zxid path node)) (trigger.Created path ∷ trigger.Children parent ∷ [])) }
{
    let name = Text::copy_of(alloc, path.bytes())?;
    let mut triggers = Seq::new(alloc);
    triggers.push(Trigger::Created(path.copy(alloc)?))?;
    triggers.push(Trigger::Children(parent.copy(alloc)?))?;
    Ok(Outcome::Done {
        result: PartResult::Created(name),
        edit: Some(Edit::Made {
            parent,
            creates,
            zxid,
            path,
            node,
        }),
        triggers,
    })
}

/// What a create asks for.
#[derive(Drop)]
struct Wish<'a> {
    /// The text of the path, which a sequential create's number is put after.
    text: &'a [u8],
    /// The data of the new node.
    content: &'a [u8],
    /// The mode, 0 to 3 (`CreateMode`).
    flags: i32,
}

/// A create that nothing refuses.
fn create_allowed(
    alloc: Global,
    tree: &Draft,
    turn: &Turn,
    wish: &Wish<'_>,
    parent: Path,
    up: &Node,
    path: Path,
) -> Result<Outcome, Fault>
    requires { get tree.now parent ≡ Some up.now }
    ensures ok { IfOk result (λ o. outcome_of tree.now o ≡ Done (results.Created path)
        (insert (insert tree.now parent (with_child up.now turn.now.zxid)) path (wished_node turn.now wish.now))
        (trigger.Created path ∷ trigger.Children parent ∷ [])) }
    ensures beyond { IfErr result (BeyondUnless (up.now.creates ≤ℤ max_creates)) }
{
    let node = new_node(
        alloc,
        wish.content,
        owner_of(wish.flags, turn.session),
        turn,
    )?;
    let creates = counted(up.creates)?;
    Ok(made(alloc, parent, creates, turn.zxid, path, node)?)
}

/// A create of a node that is not there.
fn create_absent(
    alloc: Global,
    tree: &Draft,
    turn: &Turn,
    wish: &Wish<'_>,
    parent: Path,
    up: &Node,
    path: Path,
) -> Result<Outcome, Fault>
    requires { get tree.now parent ≡ Some up.now }
    ensures ok { IfOk result (λ o. outcome_of tree.now o ≡ create_node_by tree.now turn.now wish.now parent up.now path None) }
    ensures beyond { IfErr result (BeyondUnless (up.now.creates ≤ℤ max_creates)) }
{
    if up.owner != 0 {
        return Ok(Outcome::Refused(NO_CHILDREN_FOR_EPHEMERALS));
    }
    if is_full(tree, turn, wish.flags, up) {
        return Ok(Outcome::Refused(SYSTEM_ERROR));
    }
    Ok(create_allowed(alloc, tree, turn, wish, parent, up, path)?)
}

/// A create below a parent that is there.
fn create_node(
    alloc: Global,
    tree: &Draft,
    turn: &Turn,
    wish: &Wish<'_>,
    parent: Path,
    up: &Node,
    path: Path,
) -> Result<Outcome, Fault>
    requires { get tree.now parent ≡ Some up.now }
    ensures ok { IfOk result (λ o. outcome_of tree.now o ≡ create_node_by tree.now turn.now wish.now parent up.now path (get tree.now path)) }
    ensures beyond { IfErr result (BeyondUnless (up.now.creates ≤ℤ max_creates)) }
{
    match tree.get(path.bytes()) {
        Some(_) => Ok(Outcome::Refused(NODE_EXISTS)),
        None => create_absent(alloc, tree, turn, wish, parent, up, path),
    }
}

/// The path that a new node gets: a sequence node's ends in its parent's count of creates.
fn made_path(alloc: Global, flags: i32, text: &[u8], named: Path, up: &Node) -> Result<Path, Memory>
    requires valid { IsTrue (is_valid (is_sequential flags) text.now) }
    requires named { named ≡ tested (is_sequential flags) text.now }
    ensures { IfOk result (λ p. p ≡ made_path flags text.now up.now) }
{
    if is_sequential(flags) {
        Path::numbered(alloc, text, up.creates.unsigned_abs())
    } else {
        Ok(named)
    }
}

fn create_under(
    alloc: Global,
    tree: &Draft,
    turn: &Turn,
    wish: &Wish<'_>,
    named: Path,
    parent: Path,
) -> Result<Outcome, Fault>
    requires valid { IsTrue (is_valid (is_sequential wish.now.flags) wish.now.text.now) }
    requires named { named ≡ tested (is_sequential wish.now.flags) wish.now.text.now }
    ensures ok { IfOk result (λ o. outcome_of tree.now o ≡ create_under_by tree.now turn.now wish.now parent (get tree.now parent)) }
    ensures beyond { IfErr result (BeyondUnless (IsWithin tree.now)) }
{
    match tree.get(parent.bytes()) {
        None => Ok(Outcome::Refused(NO_NODE)),
        Some(up) => {
            let path = made_path(alloc, wish.flags, wish.text, named, up)?;
            Ok(create_node(alloc, tree, turn, wish, parent, up, path)?)
        }
    }
}

/// A create whose text is valid.
pub fn create(
    alloc: Global,
    tree: &Draft,
    turn: &Turn,
    flags: i32,
    content: &[u8],
    text: &[u8],
    named: Path,
) -> Result<Outcome, Fault>
    requires valid { IsTrue (is_valid (is_sequential flags) text.now) }
    requires named { named ≡ tested (is_sequential flags) text.now }
    ensures ok { IfOk result (λ o. outcome_of tree.now o ≡ create tree.now turn.now.limit turn.now.session flags content.now turn.now.zxid turn.now.time text.now) }
    ensures beyond { IfErr result (BeyondUnless (IsWithin tree.now)) }
{
    match named.parent(alloc)? {
        None => Ok(Outcome::Refused(NODE_EXISTS)),
        Some(parent) => {
            let wish = Wish {
                text,
                content,
                flags,
            };
            Ok(create_under(alloc, tree, turn, &wish, named, parent)?)
        }
    }
}
