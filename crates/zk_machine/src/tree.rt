//! The tree of znodes, changed in place.

ghost use Rattle.std.specs.Prelude.{◌≡◌, ◌<◌, ◌^◌, None, Some, length, option_map, IfOk, OnOk};
ghost use Rattle.std.specs.FinMap.{empty, get, insert, remove};
ghost use Rattle.zk_model.specs.Znodes.{num_children, child_names, owned};
ghost use Rattle.zk_machine.specs.Edits.{counted_create};
ghost use Rattle.zk_machine.specs.Writes.{owner_at, written, written_all};

use crate::groups::{Families, Owners, with_child, with_owned, without_child, without_owned};
use crate::paths::PathMap;
use crate::write::Write;
use std::alloc::Global;
use std::collections::BTreeMap;
use std::marker::Model;
use std::mem;
use zk_model::{Node, Path};
use zx_base::{Memory, Seq, Text};

/// A finite map from paths to nodes. A call about one node takes the logarithm of the number of nodes; one that gives a list takes
/// a step for each of its items besides.
#[derive(Drop)]
pub struct Tree {
    nodes: PathMap<Node>,
    families: Families,
    owners: Owners,
}

impl Model for Tree {
    ghost use Rattle.zk_model.specs.Znodes.{Tree as Nodes};
    ghost use Rattle.zk_machine.specs.Entries.{coded_tree};
    ghost use Rattle.zk_machine.specs.Groups.{HasFamilies, HasOwners};

    ghost Value = { Nodes };

    ghost coded = { coded_tree };

    ghost view = { λ t. t.nodes };

    ghost invariant = { λ t. HasFamilies t.nodes t.families × HasOwners t.nodes t.owners };
}

impl Tree {
    /// A tree without nodes.
    pub fn new(alloc: Global) -> Tree
        ensures { result ≡ empty }
    {
        Tree {
            nodes: PathMap::new(alloc),
            families: PathMap::new(alloc),
            owners: BTreeMap::new(alloc),
        }
    }

    /// The node at a path.
    pub fn get(&self, path: &[u8]) -> Option<&Node>
        ensures { option_map (λ n. n.now) result ≡ get self.now path.now }
    {
        self.nodes.get(path)
    }

    /// The tree with a node at a path that has none.
    fn with(self, alloc: Global, path: Path, node: Node) -> Result<Tree, Memory>
        requires { get self path ≡ None }
        ensures { IfOk result (λ t. t ≡ insert self path node) }
    {
        let families = with_child(alloc, self.families, &path)?;
        let owners = with_owned(alloc, self.owners, node.owner, &path)?;
        let mut nodes = self.nodes;
        nodes.put(alloc, path, node)?;
        Ok(Tree {
            nodes,
            families,
            owners,
        })
    }

    /// The tree without the node at a path, and that node.
    fn without(self, alloc: Global, path: &Path) -> Result<(Tree, Option<Node>), Memory>
        ensures tree { IfOk result (λ r. r.0 ≡ remove self path.now) }
        ensures node { IfOk result (λ r. r.1 ≡ get self path.now) }
    {
        let mut nodes = self.nodes;
        match nodes.take(path.bytes()) {
            None => {
                let tree = Tree {
                    nodes,
                    families: self.families,
                    owners: self.owners,
                };
                Ok((tree, None))
            }
            Some(node) => {
                let families = without_child(alloc, self.families, path)?;
                let owners = without_owned(self.owners, node.owner, path)?;
                let tree = Tree {
                    nodes,
                    families,
                    owners,
                };
                Ok((tree, Some(node)))
            }
        }
    }

    /// Who owns the node at a path.
    fn owner_at(&self, path: &[u8]) -> Option<i64>
        ensures { result ≡ owner_at self.now path.now }
    {
        match self.nodes.get(path) {
            Some(node) => Some(node.owner),
            None => None,
        }
    }

    /// The tree with a node at the path of another one of the same owner: no family changes, and nothing that a session owns.
    fn with_changed(self, alloc: Global, path: Path, node: Node) -> Result<Tree, Memory>
        requires { owner_at self path ≡ Some node.owner }
        ensures { IfOk result (λ t. t ≡ insert self path node) }
    {
        let mut nodes = self.nodes;
        nodes.put(alloc, path, node)?;
        Ok(Tree {
            nodes,
            families: self.families,
            owners: self.owners,
        })
    }

    /// The tree with a node at the path of another one.
    fn with_other(self, alloc: Global, path: Path, node: Node) -> Result<Tree, Memory>
        ensures { IfOk result (λ t. t ≡ insert self path node) }
    {
        let (rest, _) = self.without(alloc, &path)?;
        rest.with(alloc, path, node)
    }

    /// The tree with a node at the path, in place of the one that was there.
    fn with_put(self, alloc: Global, path: Path, node: Node) -> Result<Tree, Memory>
        ensures { IfOk result (λ t. t ≡ insert self path node) }
    {
        match self.owner_at(path.bytes()) {
            None => self.with(alloc, path, node),
            Some(owner) => {
                if owner == node.owner {
                    self.with_changed(alloc, path, node)
                } else {
                    self.with_other(alloc, path, node)
                }
            }
        }
    }

    /// The tree with this count of creates and this pzxid at a path, if there is a node.
    fn with_counted(
        self,
        alloc: Global,
        path: Path,
        creates: i32,
        zxid: i64,
    ) -> Result<Tree, Memory>
        ensures { IfOk result (λ t. t ≡ counted_create self path creates zxid (get self path)) }
    {
        let mut nodes = self.nodes;
        if let Some(up) = nodes.take(path.bytes()) {
            let mut counted = up;
            counted.creates = creates;
            counted.pzxid = zxid;
            nodes.put(alloc, path, counted)?;
        }
        Ok(Tree {
            nodes,
            families: self.families,
            owners: self.owners,
        })
    }

    /// Puts a node at the path, in place of the one that was there. Without memory the tree may be left empty: throw it away.
    pub fn put(&mut self, alloc: Global, path: Path, node: Node) -> Result<(), Memory>
        ensures { OnOk result (self.new ≡ insert self.old path node) }
    {
        let tree = mem::replace(self, Tree::new(alloc));
        *self = tree.with_put(alloc, path, node)?;
        Ok(())
    }

    /// Sets the count of creates and the pzxid of the node at a path, if there is one. Without memory the tree may be left empty:
    /// throw it away.
    pub(crate) fn count_create(
        &mut self,
        alloc: Global,
        path: Path,
        creates: i32,
        zxid: i64,
    ) -> Result<(), Memory>
        ensures { OnOk result (self.new ≡ counted_create self.old path creates zxid (get self.old path)) }
    {
        let tree = mem::replace(self, Tree::new(alloc));
        *self = tree.with_counted(alloc, path, creates, zxid)?;
        Ok(())
    }

    /// Takes out the node at the path. Without memory the tree may be left empty: throw it away.
    pub fn take(&mut self, alloc: Global, path: &Path) -> Result<Option<Node>, Memory>
        ensures tree { OnOk result (self.new ≡ remove self.old path.now) }
        ensures node { IfOk result (λ n. n ≡ get self.old path.now) }
    {
        let tree = mem::replace(self, Tree::new(alloc));
        let (rest, node) = tree.without(alloc, path)?;
        *self = rest;
        Ok(node)
    }

    /// Makes these writes, in order. Without memory the tree may be left half changed: throw it away.
    pub fn write_all(&mut self, alloc: Global, writes: Seq<Write>) -> Result<(), Memory>
        ensures { OnOk result (self.new ≡ written_all self.old writes) }
    {
        for write in writes.into_vec() {
            self.write(alloc, write)?;
        }
        Ok(())
    }

    fn write(&mut self, alloc: Global, write: Write) -> Result<(), Memory>
        ensures { OnOk result (self.new ≡ written self.old write) }
    {
        let Write { path, node, .. } = write;
        match node {
            Some(node) => self.put(alloc, path, node),
            None => {
                self.take(alloc, &path)?;
                Ok(())
            }
        }
    }

    /// How many children the node at a path has.
    pub fn num_children(&self, path: &[u8]) -> usize
        ensures count { result ≡ num_children self.now path.now }
        ensures small { result < 2 ^ 63 }
    {
        match self.families.get(path) {
            Some(children) => children.len(),
            None => 0,
        }
    }

    /// The last names of the children of the node at a path, in the order of their bytes.
    pub fn child_names(&self, alloc: Global, path: &[u8]) -> Result<Seq<Text>, Memory>
        ensures { IfOk result (λ names. names ≡ child_names self.now path.now) }
    {
        match self.families.get(path) {
            Some(children) => children.names(alloc),
            None => Ok(Seq::new(alloc)),
        }
    }

    /// How many nodes a session owns.
    pub fn num_owned(&self, session: i64) -> usize
        ensures count { result ≡ length (owned self.now session) }
        ensures small { result < 2 ^ 63 }
    {
        match self.owners.get(&session) {
            Some(nodes) => nodes.len(),
            None => 0,
        }
    }

    /// The paths of a session's nodes, in the order of their bytes.
    pub fn owned(&self, alloc: Global, session: i64) -> Result<Vec<Path>, Memory>
        ensures { IfOk result (λ paths. paths.items ≡ owned self.now session) }
    {
        match self.owners.get(&session) {
            Some(nodes) => nodes.paths(alloc),
            None => Ok(Vec::new(alloc)),
        }
    }
}
