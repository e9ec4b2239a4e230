// A finite map from path to value, closed under parents.
ghost use Rattle.std.specs.Prelude.{◌≡◌, not, is_some, Some, None, IfOk, IfNone, IfSome, OnOk, OnErr, slice_get, if◌then◌else◌};
ghost use Rattle.std.specs.Option.{option_copied};
ghost use Rattle.std.specs.Ordering.{nat_cmp};
ghost use Rattle.std.specs.Cmp.Lexicographic.{slice_cmp};
ghost use Rattle.std.specs.List.Sorted.{IsStrictlySortedBy};
ghost use Rattle.std.specs.FinMap as map;
ghost use Rattle.neph_tree.specs.Entries.{lent};
ghost use Rattle.neph_tree.specs.Growth.{with_added};
ghost use Rattle.neph_tree.specs.Nodes.{IsTree, subtree, child_names, with_missing, without};
ghost use Rattle.neph_tree.specs.Places.{home};

use crate::homes::{HOMES, count_down, count_up, no_counts};
use crate::node_slab::NodeSlab;
use neph_base::{Bytes, DomId, Names, NoMemory};
use std::alloc::Global;
use std::marker::Model;

#[derive(Drop)]
pub(crate) struct NodeMap {
    alloc: Global,
    nodes: NodeSlab,
    // How many nodes are within each domain's home.
    homes: [u32; HOMES],
}

impl Model for NodeMap {
    ghost use Rattle.std.specs.Prelude.{ℕ, List, ◌^◌, ◌<◌};
    ghost use Rattle.std.specs.Ordering.{nat_cmp};
    ghost use Rattle.std.specs.Cmp.Lexicographic.{slice_cmp};
    ghost use Rattle.std.specs.FinMap as map;
    ghost use Rattle.std.specs.Coded.{coded_ℕ, coded_list};
    ghost use Rattle.neph_tree.specs.Counts.{AreCounted};
    ghost use Rattle.neph_tree.specs.NodeSlab.{nodes_of, IsLinked};

    ghost Value = { map.FinMap (slice_cmp nat_cmp) (List ℕ) };

    ghost coded = { map.code (coded_list coded_ℕ) (coded_list coded_ℕ) };

    ghost view = { λ a. nodes_of a.nodes };

    ghost invariant = { λ a. IsLinked a.nodes × (map.len (nodes_of a.nodes) < 2 ^ 32)
        × AreCounted a.homes (nodes_of a.nodes) };
}

impl NodeMap {
    pub(crate) fn new(alloc: Global) -> Self
        ensures { result ≡ map.empty }
    {
        NodeMap {
            alloc,
            nodes: NodeSlab::new(alloc),
            homes: no_counts(),
        }
    }

    pub(crate) fn get(&self, path: &[u8]) -> Option<&[u8]>
        ensures { option_copied result ≡ map.get self.now path.now }
    {
        self.nodes.get(path)
    }

    pub(crate) fn contains(&self, path: &[u8]) -> bool
        ensures { result ≡ map.contains_key self.now path.now }
    {
        self.nodes.contains(path)
    }

    pub(crate) fn len(&self) -> u32
        ensures { result ≡ map.len self.now }
    {
        self.nodes.len() as u32
    }

    // How many nodes are within the domain's home.
    pub(crate) fn count_of(&self, me: DomId) -> u32
        ensures { result ≡ map.len (subtree self.now (home me)) }
    {
        self.homes[me.get() as usize]
    }

    // The nodes within `top`, in the order of their paths.
    pub(crate) fn subtree(&self, top: &[u8]) -> Result<Vec<(Bytes, Bytes)>, NoMemory>
        ensures { IfOk result (λ nodes. nodes.items ≡ map.entries (subtree self.now top.now)) }
    {
        self.nodes.subtree(top)
    }

    // The same where they lie.
    pub(crate) fn within<'t>(&'t self, top: &[u8]) -> Result<Vec<(&'t [u8], &'t [u8])>, NoMemory>
        ensures { IfOk result (λ nodes.
            lent nodes.items ≡ map.entries (subtree self.now top.now)) }
    {
        self.nodes.within(top)
    }

    // The names of a directory's children, `None` exactly where there is no such node.
    pub(crate) fn names(&self, directory: &[u8]) -> Result<Option<Names>, NoMemory>
        ensures names { IfOk result (λ names.
            names ≡ (if map.contains_key self.now directory.now
            then Some (child_names self.now directory.now) else None)) }
        ensures order { IfOk result (λ names.
            IfSome names (λ list. IsStrictlySortedBy (slice_cmp nat_cmp) list)) }
    {
        self.nodes.names(directory)
    }

    // The node at a place in the order of the paths.
    pub(crate) fn entry(&self, place: u32) -> Result<Option<(Bytes, Bytes)>, NoMemory>
        ensures { IfOk result (λ node. node ≡ slice_get (map.entries self.now) place) }
    {
        let mut all = self.nodes.subtree(b"/")?;
        let place = place as usize;
        if place < all.len() {
            Ok(Some(all.swap_remove(place)))
        } else {
            Ok(None)
        }
    }

    // Makes a node, if there is none at the path. It tells whether there was none.
    pub(crate) fn add(&mut self, path: &[u8], value: Vec<u8>) -> Result<bool, NoMemory>
        requires tree { IsTree (with_added self.old path.now value.items) }
        ensures ok { OnOk result (self.new ≡ with_added self.old path.now value.items) }
        ensures tells { IfOk result (λ added. added ≡ not (map.contains_key self.old path.now)) }
        ensures err { OnErr result (self.new ≡ self.old) }
    {
        if self.nodes.len() >= u32::MAX as usize {
            return Err(NoMemory);
        }
        let added = self.nodes.add(path, value)?;
        if !added {
            return Ok(false);
        }
        count_up(&mut self.homes, path);
        Ok(true)
    }

    // Gives a node another value, for which it needs no memory. It hands the value back where
    // there is no such node.
    pub(crate) fn replace(&mut self, path: &[u8], value: Vec<u8>) -> Option<Vec<u8>>
        ensures there { IfNone result (self.new ≡ map.insert self.old path.now value.items) }
        ensures missing { IfSome result (λ back. (back ≡ value) × (self.new ≡ self.old)) }
        ensures tells { is_some result ≡ not (map.contains_key self.old path.now) }
    {
        self.nodes.replace(path, value)
    }

    pub(crate) fn add_empty(&mut self, path: &[u8]) -> Result<(), NoMemory>
        requires tree { IsTree (with_missing self.old path.now) }
        ensures ok { OnOk result (self.new ≡ with_missing self.old path.now) }
        ensures err { OnErr result (self.new ≡ self.old) }
    {
        self.add(path, Vec::new(self.alloc))?;
        Ok(())
    }

    pub(crate) fn cut(&mut self, top: &[u8])
        ensures { self.new ≡ without self.old top.now }
    {
        let before = self.nodes.len();
        self.nodes.cut(top);
        let gone = before - self.nodes.len();
        count_down(&mut self.homes, top, gone as u32);
    }
}

// The bytes, in memory of their own.
pub(crate) fn copy_of(alloc: Global, bytes: &[u8]) -> Result<Vec<u8>, NoMemory>
    ensures { IfOk result (λ copy. copy.items ≡ bytes.now) }
{
    let mut copy = Vec::with_capacity(alloc, bytes.len())?;
    copy.extend_from_slice(bytes)?;
    Ok(copy)
}
