// The store's tree.
ghost use Rattle.std.specs.Prelude.{◌≡◌, ◌⊎◌, ◌≤◌, Some, None, IsTrue, IfOk, IfErr, IfSome, OnOk, OnErr, length, slice_get, if◌then◌else◌};
ghost use Rattle.std.specs.Option.{option_copied};
ghost use Rattle.std.specs.Ordering.{nat_cmp};
ghost use Rattle.std.specs.Cmp.Lexicographic.{slice_cmp};
ghost use Rattle.std.specs.List.Sorted.{IsStrictlySortedBy};
ghost use Rattle.std.specs.FinMap as map;
ghost use Rattle.neph_base.specs.Path.{is_path};
ghost use Rattle.neph_tree.specs.Entries.{lent, shown};
ghost use Rattle.neph_tree.specs.Growth.{ArePaths};
ghost use Rattle.neph_tree.specs.Nodes.{IsTree, child_names, subtree, with_node, with_nodes, without};

use crate::growth::{fill, make, make_all};
use crate::limit::put_within;
use crate::node_map::{NodeMap, copy_of};
use crate::place::Place;
use crate::places::is_within;
use crate::refusals::{RemoveRefused, WriteRefused};
use neph_base::{Bytes, DomId, Names, NoMemory, Path};
use std::alloc::Global;
use std::marker::Model;

/// The most bytes of a path in the tree: one more than a guest may name.
pub const TREE_PATH_BYTES: usize = 3073;

/// The store's nodes (XenStore's), a finite map from path to value. Every path above a node is a
/// node.
#[derive(Drop)]
pub struct Tree {
    alloc: Global,
    nodes: NodeMap,
}

impl Model for Tree {
    ghost use Rattle.std.specs.Prelude.{ℕ, List};
    ghost use Rattle.std.specs.Ordering.{nat_cmp};
    ghost use Rattle.std.specs.Cmp.Lexicographic.{slice_cmp};
    ghost use Rattle.std.specs.FinMap as map;
    ghost use Rattle.std.specs.Coded.{coded_ℕ, coded_list};
    ghost use Rattle.neph_tree.specs.Nodes.{IsTree};

    ghost Value = { map.FinMap (slice_cmp nat_cmp) (List ℕ) };

    ghost coded = { map.code (coded_list coded_ℕ) (coded_list coded_ℕ) };

    ghost view = { λ a. a.nodes };

    ghost invariant = { λ a. IsTree a.nodes };
}

impl Tree {
    ghost use Rattle.neph_tree.specs.Refusals.{write_refusal, remove_refusal};

    /// The tree without nodes.
    pub fn new(alloc: Global) -> Result<Tree, NoMemory>
        ensures { IfOk result (λ tree. tree ≡ map.empty) }
    {
        Ok(Tree {
            alloc,
            nodes: NodeMap::new(alloc),
        })
    }

    /// The value of a node, `None` exactly where there is no such node.
    pub fn read(&self, p: &Path) -> Option<&[u8]>
        ensures value { option_copied result ≡ map.get self.now p.now }
        ensures tree { IsTree self.now }
    {
        self.nodes.get(p.bytes())
    }

    /// The names of a node's children in byte order, `None` exactly where there is no such node.
    pub fn list(&self, p: &Path) -> Result<Option<Names>, NoMemory>
        ensures names { IfOk result (λ names.
            names ≡ (if map.contains_key self.now p.now then Some (child_names self.now p.now)
            else None)) }
        ensures order { IfOk result (λ names.
            IfSome names (λ list. IsStrictlySortedBy (slice_cmp nat_cmp) list)) }
    {
        self.nodes.names(p.bytes())
    }

    /// Sets a node for a domain, and makes the nodes above it that are missing, with empty values.
    pub fn write(&mut self, me: DomId, p: &Path, v: &[u8]) -> Result<(), WriteRefused>
        ensures ok { OnOk result (self.new ≡ with_node self.old p.now v.now) }
        ensures allowed { OnOk result (write_refusal self.old me p.now v.now ≡ None) }
        ensures why { IfErr result (λ why. (why ≡ WriteRefused.NoMemory)
            ⊎ (write_refusal self.old me p.now v.now ≡ Some why)) }
        ensures err { OnErr result (self.new ≡ self.old) }
    {
        let home = Place::home(me);
        if !is_within(home.bytes(), p.bytes()) {
            return Err(WriteRefused::NotYours);
        }
        match copy_of(self.alloc, v) {
            Ok(value) => put_within(&mut self.nodes, me, p.bytes(), value),
            Err(_) => Err(WriteRefused::NoMemory),
        }
    }

    /// Takes a node away for a domain, and all below it.
    pub fn remove(&mut self, me: DomId, p: &Path) -> Result<(), RemoveRefused>
        ensures ok { OnOk result (self.new ≡ without self.old p.now) }
        ensures allowed { OnOk result (remove_refusal self.old me p.now ≡ None) }
        ensures why { IfErr result (λ why. remove_refusal self.old me p.now ≡ Some why) }
        ensures err { OnErr result (self.new ≡ self.old) }
    {
        let home = Place::home(me);
        let path = p.bytes();
        if !is_within(home.bytes(), path) {
            return Err(RemoveRefused::NotYours);
        }
        if !self.nodes.contains(path) {
            return Err(RemoveRefused::NoPath);
        }
        self.nodes.cut(path);
        Ok(())
    }

    /// Sets a node, and makes the nodes above it that are missing, with empty values. It knows no
    /// owner and no limit.
    pub fn put_node(&mut self, path: &[u8], v: &[u8]) -> Result<(), NoMemory>
        requires form { IsTrue (is_path path.now) }
        requires short { length path.now ≤ TREE_PATH_BYTES }
        ensures ok { OnOk result (self.new ≡ with_node self.old path.now v.now) }
        ensures err { OnErr result (self.new ≡ self.old) }
    {
        let value = copy_of(self.alloc, v)?;
        if let Some(value) = self.nodes.replace(path, value) {
            make(&mut self.nodes, None, path, value)?;
        }
        Ok(())
    }

    /// Sets these nodes one after the other as `put_node` does, or none of them.
    pub fn put_nodes(&mut self, nodes: Vec<(Vec<u8>, Vec<u8>)>) -> Result<(), NoMemory>
        requires { ArePaths (shown nodes.items) }
        ensures ok { OnOk result (self.new ≡ with_nodes self.old (shown nodes.items)) }
        ensures err { OnErr result (self.new ≡ self.old) }
    {
        if !make_all(self.alloc, &mut self.nodes, None, &nodes)? {
            fill(&mut self.nodes, nodes);
        }
        Ok(())
    }

    /// Takes a node away, if it is there, and all below it.
    pub fn cut(&mut self, path: &[u8])
        requires form { IsTrue (is_path path.now) }
        requires short { length path.now ≤ TREE_PATH_BYTES }
        ensures { self.new ≡ without self.old path.now }
    {
        self.nodes.cut(path);
    }

    /// How many nodes there are.
    pub fn nodes(&self) -> u32
        ensures count { result ≡ map.len self.now }
        ensures tree { IsTree self.now }
    {
        self.nodes.len()
    }

    /// Path and value of the node at a place in byte order of the paths, from 0, `None` exactly
    /// where there is no such place.
    pub fn node(&self, i: u32) -> Result<Option<(Bytes, Bytes)>, NoMemory>
        ensures { IfOk result (λ node. node ≡ slice_get (map.entries self.now) i) }
    {
        self.nodes.entry(i)
    }

    /// Paths and values of the node and of all below it, in byte order of the paths.
    pub fn subtree(&self, path: &[u8]) -> Result<Vec<(Bytes, Bytes)>, NoMemory>
        ensures nodes { IfOk result (λ nodes.
            nodes.items ≡ map.entries (subtree self.now path.now)) }
        ensures tree { IsTree self.now }
    {
        self.nodes.subtree(path)
    }

    /// The same where they lie, in no memory of their own.
    pub fn within<'t>(&'t self, path: &[u8]) -> Result<Vec<(&'t [u8], &'t [u8])>, NoMemory>
        ensures nodes { IfOk result (λ nodes.
            lent nodes.items ≡ map.entries (subtree self.now path.now)) }
        ensures tree { IsTree self.now }
    {
        self.nodes.within(path)
    }
}
