// Nodes in a slab, linked by their keys.
ghost use Rattle.std.specs.Prelude.{◌≡◌, ◌+◌, [], T, ℕ, List, true, false, not, is_some, Some, None, IfOk, IfNone, IfSome, OnOk, OnErr, if◌then◌else◌};
ghost use Rattle.std.specs.Option.{option_copied};
ghost use Rattle.std.specs.Ordering.{nat_cmp};
ghost use Rattle.std.specs.Cmp.Lexicographic.{slice_cmp};
ghost use Rattle.std.specs.List.Sorted.{IsStrictlySortedBy};
ghost use Rattle.std.specs.FinMap as map;
ghost use Rattle.std.specs.FinMap.Entries.{is_sorted};
ghost use Rattle.neph_base.specs.Path.{is_path};
ghost use Rattle.neph_tree.specs.Entries.{lent, nodes_in};
ghost use Rattle.neph_tree.specs.Growth.{with_added};
ghost use Rattle.neph_tree.specs.Nodes.{IsTree, child_names, subtree, without};
ghost use Rattle.neph_tree.specs.Places.{is_within, IsChild};

use crate::by_path::put_by_path;
use crate::hints::Hints;
use crate::node::Node;
use crate::node_map::copy_of;
use crate::places::{last_name, parent_and_name, top_of};
use neph_base::{Bytes, Names, NoMemory};
use slab::Slab;
use std::alloc::Global;

#[derive(Drop)]
pub(crate) struct NodeSlab {
    alloc: Global,
    nodes: Slab<Node>,
    // The key of the node at `/`.
    root: Option<usize>,
    hints: Hints,
}

impl NodeSlab {
    ghost use Rattle.slab.specs.Slab.{slab_len};
    ghost use Rattle.neph_tree.specs.declared.node.Node.{Node};
    ghost use Rattle.neph_tree.specs.Node.{child_of};
    ghost use Rattle.neph_tree.specs.NodeSlab.{node_at, stands_at, nodes_of, keys_of, AreAlone, IsLinked, IsUp, IsAttached, IsLeaf, IsPart, Gathers};

    pub(crate) fn new(alloc: Global) -> Self
        ensures linked { IsLinked result }
        ensures empty { nodes_of result ≡ map.empty }
    {
        NodeSlab {
            alloc,
            nodes: Slab::new(alloc),
            root: None,
            hints: Hints::new(alloc),
        }
    }

    pub(crate) fn len(&self) -> usize
        requires { IsLinked self.now }
        ensures { result ≡ map.len (nodes_of self.now) }
    {
        self.nodes.len()
    }

    pub(crate) fn contains(&self, path: &[u8]) -> bool
        requires { IsLinked self.now }
        ensures { result ≡ map.contains_key (nodes_of self.now) path.now }
    {
        self.find(path).is_some()
    }

    // The key of the node at the path.
    fn find(&self, path: &[u8]) -> Option<usize>
        requires { IsLinked self.now }
        ensures { result ≡ map.get (keys_of self.now) path.now }
    {
        if let Some(key) = self.hinted(path) {
            return Some(key);
        }
        let key = self.search(path)?;
        if self.stands_at(key, path) {
            Some(key)
        } else {
            None
        }
    }

    // The same of a path that is there; of another it may be any key.
    fn search(&self, path: &[u8]) -> Option<usize>
        requires { IsLinked self.now }
        ensures { (key : ℕ) → map.get (keys_of self.now) path.now ≡ Some key → result ≡ Some key }
    {
        let Some((above, name)) = parent_and_name(path) else {
            return self.root;
        };
        if let Some(up) = self.hinted(above) {
            return self.child(up, name);
        }
        let up = self.search(above)?;
        self.child(up, name)
    }

    // The key of the node at the path, where a hint leads to it.
    fn hinted(&self, path: &[u8]) -> Option<usize>
        requires { IsLinked self.now }
        ensures { IfSome result (λ key. map.get (keys_of self.now) path.now ≡ Some key) }
    {
        let key = self.hints.of(path)?;
        if self.stands_at(key, path) {
            Some(key)
        } else {
            None
        }
    }

    // The key of the child of this name.
    fn child(&self, key: usize, name: &[u8]) -> Option<usize>
        ensures { (node : Node) → node_at self.now key ≡ Some node
            → result ≡ child_of node name.now }
    {
        self.nodes.get(key)?.child(name)
    }

    // Whether the node at the key is the one at the path.
    fn stands_at(&self, key: usize, path: &[u8]) -> bool
        ensures { result ≡ stands_at (node_at self.now key) path.now }
    {
        match self.nodes.get(key) {
            Some(node) => node.path.as_slice() == path,
            None => false,
        }
    }

    pub(crate) fn get(&self, path: &[u8]) -> Option<&[u8]>
        requires { IsLinked self.now }
        ensures { option_copied result ≡ map.get (nodes_of self.now) path.now }
    {
        let key = self.find(path)?;
        match self.nodes.get(key) {
            Some(node) => Some(&node.value),
            None => None,
        }
    }

    // Gives a node another value. It hands the value back where there is no such node.
    pub(crate) fn replace(&mut self, path: &[u8], value: Vec<u8>) -> Option<Vec<u8>>
        requires { IsLinked self.old }
        ensures linked { IsLinked self.new }
        ensures there { IfNone result
            (nodes_of self.new ≡ map.insert (nodes_of self.old) path.now value.items) }
        ensures missing { IfSome result (λ back. (back ≡ value) × (self.new ≡ self.old)) }
        ensures tells { is_some result ≡ not (map.contains_key (nodes_of self.old) path.now) }
    {
        let Some(key) = self.find(path) else {
            return Some(value);
        };
        match self.nodes.get_mut(key) {
            Some(node) => {
                node.value = value;
                None
            }
            None => unreachable!(),
        }
    }

    // Makes a node, if there is none at the path. It tells whether there was none.
    pub(crate) fn add(&mut self, path: &[u8], value: Vec<u8>) -> Result<bool, NoMemory>
        requires linked { IsLinked self.old }
        requires tree { IsTree (with_added (nodes_of self.old) path.now value.items) }
        ensures linked { IsLinked self.new }
        ensures ok { OnOk result
            (nodes_of self.new ≡ with_added (nodes_of self.old) path.now value.items) }
        ensures tells { IfOk result (λ added.
            added ≡ not (map.contains_key (nodes_of self.old) path.now)) }
        ensures err { OnErr result (nodes_of self.new ≡ nodes_of self.old) }
    {
        let up = self.parent_of(path);
        if self.leads_to(up, path) {
            return Ok(false);
        }
        self.add_below(up, path, value)?;
        Ok(true)
    }

    // Whether the node above, or the tree, knows a node at the path.
    fn leads_to(&self, up: Option<usize>, path: &[u8]) -> bool
        requires linked { IsLinked self.now }
        requires path { is_path path.now ≡ true }
        requires up { IsUp self.now path.now up }
        ensures { result ≡ map.contains_key (nodes_of self.now) path.now }
    {
        match up {
            Some(up) => self.child(up, last_name(path)).is_some(),
            None => self.root.is_some(),
        }
    }

    // Makes a node, which isn't there, below one that is.
    fn add_below(&mut self, up: Option<usize>, path: &[u8], value: Vec<u8>) -> Result<(), NoMemory>
        requires linked { IsLinked self.old }
        requires up { IsUp self.old path.now up }
        requires missing { map.contains_key (nodes_of self.old) path.now ≡ false }
        requires tree { IsTree (map.insert (nodes_of self.old) path.now value.items) }
        ensures linked { IsLinked self.new }
        ensures ok { OnOk result
            (nodes_of self.new ≡ map.insert (nodes_of self.old) path.now value.items) }
        ensures err { OnErr result (nodes_of self.new ≡ nodes_of self.old) }
    {
        let node = Node::new(self.alloc, path, value)?;
        self.nodes.reserve(1)?;
        let key = self.nodes.vacant_key();
        self.link(up, path, key)?;
        self.nodes.insert_reserved(node);
        self.hints.note(path, key);
        Ok(())
    }

    // The key of the node above the path, `None` of `/`.
    fn parent_of(&self, path: &[u8]) -> Option<usize>
        requires linked { IsLinked self.now }
        requires path { is_path path.now ≡ true }
        requires above { (directory name : List ℕ) → IsChild path.now directory name
            → map.contains_key (nodes_of self.now) directory ≡ true }
        ensures { IsUp self.now path.now result }
    {
        match parent_and_name(path) {
            Some((above, _)) => self.find(above),
            None => None,
        }
    }

    // Tells the node above, or the tree, the key of the node at the path.
    fn link(&mut self, up: Option<usize>, path: &[u8], key: usize) -> Result<(), NoMemory>
        requires linked { IsLinked self.old }
        requires path { is_path path.now ≡ true }
        requires up { IsUp self.old path.now up }
        requires missing { map.get (keys_of self.old) path.now ≡ None }
        ensures ok { OnOk result (IsAttached path.now (Some key) self.old self.new) }
        ensures err { OnErr result (IsAttached path.now None self.old self.new) }
    {
        let Some(up) = up else {
            self.root = Some(key);
            return Ok(());
        };
        let name = copy_of(self.alloc, last_name(path))?;
        match self.nodes.get_mut(up) {
            Some(node) => node.link(name, key),
            None => unreachable!(),
        }
    }

    // The node at the path is gone.
    fn unlink(&mut self, up: Option<usize>, path: &[u8])
        requires alone { AreAlone self.old }
        requires path { is_path path.now ≡ true }
        requires up { IsUp self.old path.now up }
        ensures { IsAttached path.now None self.old self.new }
    {
        match up {
            Some(up) => {
                if let Some(node) = self.nodes.get_mut(up) {
                    node.unlink(last_name(path));
                }
            }
            None => self.root = None,
        }
    }

    // Takes away the node and all below it, one leaf after the other, for which it needs no memory.
    pub(crate) fn cut(&mut self, top: &[u8])
        requires { IsLinked self.old }
        ensures linked { IsLinked self.new }
        ensures nodes { nodes_of self.new ≡ without (nodes_of self.old) top.now }
    {
        let place = top_of(top);
        while let Some(key) = self.find(place) {
            let leaf = self.leaf_at(key);
            self.remove_leaf(leaf);
        }
    }

    // The key of a node without children, at this key or below.
    fn leaf_at(&self, key: usize) -> usize
        requires linked { IsLinked self.now }
        requires there { is_some (node_at self.now key) ≡ true }
        ensures { (top : Node) → node_at self.now key ≡ Some top → (leaf : Node)
            × (node_at self.now result ≡ Some leaf) × IsLeaf leaf
            × (is_within top.path.items leaf.path.items ≡ true) }
    {
        match self.first_child(key) {
            Some(child) => self.leaf_at(child),
            None => key,
        }
    }

    fn first_child(&self, key: usize) -> Option<usize>
        ensures some { IfSome result (λ child. (node : Node) × (name : List ℕ)
            × (node_at self.now key ≡ Some node) × (child_of node name ≡ Some child)) }
        ensures none { IfNone result ((node : Node) → node_at self.now key ≡ Some node → IsLeaf node) }
    {
        self.nodes.get(key)?.first_child()
    }

    // Takes away a node without children.
    fn remove_leaf(&mut self, leaf: usize)
        requires linked { IsLinked self.old }
        requires leaf { (node : Node) × (node_at self.old leaf ≡ Some node) × IsLeaf node }
        ensures linked { IsLinked self.new }
        ensures nodes { (node : Node) → node_at self.old leaf ≡ Some node
            → nodes_of self.new ≡ without (nodes_of self.old) node.path.items }
        ensures fewer { slab_len self.new.nodes + 1 ≡ slab_len self.old.nodes }
    {
        let up = self.parent_at(leaf);
        let node = self.nodes.remove(leaf);
        self.unlink(up, &node.path);
    }

    // The key of the node above, `None` at `/`.
    fn parent_at(&self, key: usize) -> Option<usize>
        requires linked { IsLinked self.now }
        requires there { is_some (node_at self.now key) ≡ true }
        ensures { (node : Node) → node_at self.now key ≡ Some node
            → IsUp self.now node.path.items result }
    {
        let node = self.nodes.get(key)?;
        self.parent_of(&node.path)
    }

    // The names of a directory's children, `None` where there is no such node.
    pub(crate) fn names(&self, directory: &[u8]) -> Result<Option<Names>, NoMemory>
        requires { IsLinked self.now }
        ensures names { IfOk result (λ names.
            names ≡ (if map.contains_key (nodes_of self.now) directory.now
            then Some (child_names (nodes_of self.now) directory.now) else None)) }
        ensures order { IfOk result (λ names.
            IfSome names (λ list. IsStrictlySortedBy (slice_cmp nat_cmp) list)) }
    {
        let Some(key) = self.find(directory) else {
            return Ok(None);
        };
        match self.nodes.get(key) {
            Some(node) => Ok(Some(node.names(self.alloc)?)),
            None => Ok(None),
        }
    }

    // The nodes within `top`, in the order of their paths.
    pub(crate) fn subtree(&self, top: &[u8]) -> Result<Vec<(Bytes, Bytes)>, NoMemory>
        requires { IsLinked self.now }
        ensures { IfOk result (λ nodes.
            nodes.items ≡ map.entries (subtree (nodes_of self.now) top.now)) }
    {
        let found = self.within(top)?;
        let mut nodes = Vec::with_capacity(self.alloc, found.len())?;
        for node in &found {
            let path = copy_of(self.alloc, node.0)?;
            let value = copy_of(self.alloc, node.1)?;
            nodes.push((Bytes::of(path), Bytes::of(value)))?;
        }
        Ok(nodes)
    }

    // The same where they lie.
    pub(crate) fn within<'t>(&'t self, top: &[u8]) -> Result<Vec<(&'t [u8], &'t [u8])>, NoMemory>
        requires { IsLinked self.now }
        ensures { IfOk result (λ nodes.
            lent nodes.items ≡ map.entries (subtree (nodes_of self.now) top.now)) }
    {
        let mut found = Vec::new(self.alloc);
        match self.find(top_of(top)) {
            Some(key) => {
                self.gather(key, &mut found)?;
                Ok(found)
            }
            None => Ok(found),
        }
    }

    // Puts in the node at the key and all below it.
    fn gather<'t>(
        &'t self,
        key: usize,
        found: &mut Vec<(&'t [u8], &'t [u8])>,
    ) -> Result<(), NoMemory>
        requires linked { IsLinked self.now }
        requires there { is_some (node_at self.now key) ≡ true }
        requires part { IsPart (nodes_in found.old.items) (nodes_of self.now) }
        requires sorted { T (is_sorted (slice_cmp nat_cmp) (lent found.old.items)) }
        ensures gathers { OnOk result ((node : Node) → node_at self.now key ≡ Some node
            → Gathers self.now node.path.items (nodes_in found.old.items)
            (nodes_in found.new.items) []) }
        ensures sorted { OnOk result (T (is_sorted (slice_cmp nat_cmp) (lent found.new.items))) }
    {
        let Some(node) = self.nodes.get(key) else {
            return Ok(());
        };
        put_by_path(found, &node.path, &node.value)?;
        for (_, child) in node.children.iter() {
            self.gather(*child, found)?;
        }
        Ok(())
    }
}
