//! A tree with the writes of a transaction's earlier parts laid over it.

ghost use Rattle.std.specs.Prelude.{◌≡◌, ◌<◌, ◌^◌, length, option_map};
ghost use Rattle.std.specs.FinMap.{get};
ghost use Rattle.zk_model.specs.Znodes.{is_owner, num_children, owned};
ghost use Rattle.zk_machine.specs.Tallies.{tallied, tallied_all, found_after, is_child_now, is_own, is_owned_now, was_child, was_owned};
ghost use Rattle.zk_machine.specs.Writes.{AreTold, written_all};

use crate::tree::Tree;
use crate::write::Write;
use std::marker::Model;
use zk_model::Node;

/// A tree as it is after some writes, which are not made in it. A look-up takes a step for each write, besides what it takes in the
/// tree.
#[derive(Drop)]
pub struct Draft<'a> {
    tree: &'a Tree,
    writes: &'a [Write],
}

impl<'a> Model for Draft<'a> {
    ghost use Rattle.zk_model.specs.Znodes.{Tree as Nodes};
    ghost use Rattle.zk_machine.specs.Entries.{coded_tree};
    ghost use Rattle.zk_machine.specs.Writes.{AreTold, written_all};

    ghost Value = { Nodes };

    ghost coded = { coded_tree };

    ghost view = { λ d. written_all d.tree.now d.writes.now };

    ghost invariant = { λ d. AreTold d.tree.now d.writes.now };
}

/// A count after a write to a node, which did or did not count before the write, and does or does not after it.
fn tallied(did: bool, does: bool, count: usize) -> usize
    requires { count < 18446744073709551615 }
    ensures { result ≡ tallied did does count }
{
    match (did, does) {
        (false, true) => count + 1,
        (true, false) => count.saturating_sub(1),
        _ => count,
    }
}

fn is_own(session: i64, owner: Option<i64>) -> bool
    ensures { result ≡ is_own session owner }
{
    match owner {
        None => false,
        Some(owner) => owner == session,
    }
}

fn is_owner(session: i64, node: &Option<Node>) -> bool
    ensures { result ≡ is_owner session node.now }
{
    match node {
        None => false,
        Some(node) => node.owner == session,
    }
}

/// The node at a path after these writes, where `found` was there before them.
fn found_after<'a>(found: Option<&'a Node>, writes: &'a [Write], path: &[u8]) -> Option<&'a Node>
    ensures { option_map (λ n. n.now) result ≡ found_after path.now (option_map (λ n. n.now) found.entry) writes.now }
{
    let mut node = found;
    for write in writes {
        if write.path.bytes() == path {
            node = write.node.as_ref();
        }
    }
    node
}

/// How many children a node has after these writes, where it had `before`.
fn children_after(before: usize, writes: &[Write], path: &[u8]) -> usize
    requires { before < 2 ^ 63 }
    ensures { result ≡ tallied_all (was_child path.now) (is_child_now path.now) before writes.now }
{
    let mut count = before;
    for write in writes {
        let is_child = write.path.is_child_of(path);
        count = tallied(
            is_child && write.before.is_some(),
            is_child && write.node.is_some(),
            count,
        );
    }
    count
}

/// How many nodes a session owns after these writes, where it owned `before`.
fn owned_after(before: usize, writes: &[Write], session: i64) -> usize
    requires { before < 2 ^ 63 }
    ensures { result ≡ tallied_all (was_owned session) (is_owned_now session) before writes.now }
{
    let mut count = before;
    for write in writes {
        count = tallied(
            is_own(session, write.before),
            is_owner(session, &write.node),
            count,
        );
    }
    count
}

impl<'a> Draft<'a> {
    /// The tree as it is.
    pub fn of(tree: &'a Tree) -> Draft<'a>
        ensures { result ≡ tree.now }
    {
        Draft { tree, writes: &[] }
    }

    /// The tree after these writes, each of which says who owned the node that it found.
    pub fn after(tree: &'a Tree, writes: &'a [Write]) -> Draft<'a>
        requires { AreTold tree.now writes.now }
        ensures { result ≡ written_all tree.now writes.now }
    {
        Draft { tree, writes }
    }

    /// The node at a path.
    pub fn get(&self, path: &[u8]) -> Option<&Node>
        ensures { option_map (λ n. n.now) result ≡ get self.now path.now }
    {
        found_after(self.tree.get(path), self.writes, path)
    }

    /// How many children the node at a path has.
    pub fn num_children(&self, path: &[u8]) -> usize
        ensures { result ≡ num_children self.now path.now }
    {
        children_after(self.tree.num_children(path), self.writes, path)
    }

    /// How many nodes a session owns.
    pub fn num_owned(&self, session: i64) -> usize
        ensures { result ≡ length (owned self.now session) }
    {
        owned_after(self.tree.num_owned(session), self.writes, session)
    }
}
