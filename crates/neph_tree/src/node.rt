// A node, which knows the keys of its children.
ghost use Rattle.std.specs.Prelude.{◌≡◌, ℕ, List, Some, None, IfOk, IfNone, IfSome, OnOk, OnErr};
ghost use Rattle.std.specs.Ordering.{nat_cmp};
ghost use Rattle.std.specs.Cmp.Lexicographic.{slice_cmp};
ghost use Rattle.std.specs.List.Sorted.{IsStrictlySortedBy};

use crate::node_map::copy_of;
use neph_base::{Name, Names, NoMemory};
use std::alloc::Global;
use std::collections::BTreeMap;

#[derive(Drop)]
pub(crate) struct Node {
    pub(crate) path: Vec<u8>,
    pub(crate) value: Vec<u8>,
    // The key of each child under its name.
    pub(crate) children: BTreeMap<Vec<u8>, usize>,
}

impl Node {
    ghost use Rattle.neph_tree.specs.Node.{child_of, names_of, IsRelinked};

    // A node without children.
    pub(crate) fn new(alloc: Global, path: &[u8], value: Vec<u8>) -> Result<Self, NoMemory>
        ensures path { IfOk result (λ node. node.path.items ≡ path.now) }
        ensures value { IfOk result (λ node. node.value ≡ value) }
        ensures leaf { IfOk result (λ node. (name : List ℕ) → child_of node name ≡ None) }
    {
        Ok(Node {
            path: copy_of(alloc, path)?,
            value,
            children: BTreeMap::new(alloc),
        })
    }

    // The key of the child of this name.
    pub(crate) fn child(&self, name: &[u8]) -> Option<usize>
        ensures { result ≡ child_of self.now name.now }
    {
        self.children.get(name).copied()
    }

    // The key of a child, `None` where there is none.
    pub(crate) fn first_child(&self) -> Option<usize>
        ensures some { IfSome result (λ key. (name : List ℕ) × (child_of self.now name ≡ Some key)) }
        ensures none { IfNone result ((name : List ℕ) → child_of self.now name ≡ None) }
    {
        match self.children.first_key_value() {
            Some((_, key)) => Some(*key),
            None => None,
        }
    }

    // The names of the children, in byte order.
    pub(crate) fn names(&self, alloc: Global) -> Result<Names, NoMemory>
        ensures names { IfOk result (λ names. names ≡ names_of self.now) }
        ensures order { IfOk result (λ names. IsStrictlySortedBy (slice_cmp nat_cmp) names) }
    {
        let mut names = Vec::new(alloc);
        for name in self.children.keys() {
            names.push(Name::of(copy_of(alloc, name)?))?;
        }
        Ok(Names::of(names))
    }

    // Tells the node the key of a new child. After want of memory it has none of this name.
    pub(crate) fn link(&mut self, name: Vec<u8>, key: usize) -> Result<(), NoMemory>
        ensures ok { OnOk result (IsRelinked self.old self.new name.items (Some key)) }
        ensures err { OnErr result (IsRelinked self.old self.new name.items None) }
    {
        self.children.insert(name, key)?;
        Ok(())
    }

    // The child of this name is gone.
    pub(crate) fn unlink(&mut self, name: &[u8])
        ensures { IsRelinked self.old self.new name.now None }
    {
        self.children.remove(name);
    }
}
