// The served nodes.
ghost use Rattle.std.specs.Prelude.{◌≡◌, ◌<◌, ◌≤◌, ◌^◌, ◌∷◌, ◌++◌, [], IfOk, OnOk, length, map, slice_get};
ghost use Rattle.neph_p9srv.specs.Entries.{AreEntries, first_named, has_name as spec_has_name};
ghost use Rattle.std.specs.List.{All};
ghost use Rattle.std.specs.Option.{option_copied};
ghost use Rattle.neph_p9srv.specs.State.{body_of, child, descend as spec_descend, next as spec_next, node_for, nodes_of, parent_of, qid_of, with_body};

use crate::served::FileItem;
use neph_base::{Bytes, Name, NoMemory, TryClone};
use neph_p9msg::Qid;
use std::alloc::Global;
use std::marker::Model;

/// A node that is served.
#[derive(Debug, Drop)]
pub struct Node {
    /// The number of the directory that it lies in, `None` for the root.
    pub parent: Option<u32>,
    /// Its name there.
    pub name: Name,
    /// The bytes of a file, `None` for a directory.
    pub body: Option<Bytes>,
}

/// The most nodes that are served beside the root.
pub const MAX_NODES: usize = 64;

/// The number of the root.
pub const ROOT: u32 = 0;

/// The name that leads to the directory above.
const UP: &[u8] = b"..";

/// The nodes, the root first. Contracts see them as a list.
#[derive(Drop)]
pub struct Tree {
    nodes: Vec<Node>,
    entries: Vec<Vec<u32>>,
}

impl Model for Tree {
    ghost use Rattle.std.specs.Prelude.{List, map};
    ghost use Rattle.neph_p9srv.specs.declared.tree.Node.{Node};
    ghost use Rattle.neph_p9srv.specs.Entries.{AreEntries};

    ghost Value = { List Node };

    ghost view = { λ t. t.nodes.items };

    ghost invariant = { λ t. AreEntries t.nodes.items (map (λ v. v.items) t.entries.items) };
}

fn has_name(nodes: &[Node], n: u32, name: &[u8]) -> bool
    ensures { result ≡ spec_has_name (slice_get nodes.now n) name.now }
{
    match nodes.get(n as usize) {
        None => false,
        Some(node) => node.name.items() == name,
    }
}

// The first of these nodes with the name.
fn named(nodes: &[Node], among: &[u32], name: &[u8]) -> Option<u32>
    ensures { result ≡ first_named nodes.now among.now name.now }
{
    for n in among {
        if has_name(nodes, *n, name) {
            return Some(*n);
        }
    }
    None
}

// The node that a directory has under a name.
fn child_of(nodes: &[Node], entries: &[Vec<u32>], dir: u32, name: &[u8]) -> Option<u32>
    requires { AreEntries nodes.now (map (λ v. v.items) entries.now) }
    ensures { result ≡ child nodes.now dir name.now }
{
    let place = dir as usize;
    if place < entries.len() {
        named(nodes, &entries[place], name)
    } else {
        None
    }
}

// Where the names lead down from a node, or the last node that they reach.
fn descend(nodes: &[Node], entries: &[Vec<u32>], at: u32, names: &[Name]) -> u32
    requires entries { AreEntries nodes.now (map (λ v. v.items) entries.now) }
    requires at { at < length nodes.now }
    ensures value { result ≡ spec_descend nodes.now at names.now }
    ensures range { result < length nodes.now }
{
    let mut at = at;
    for name in names {
        match child_of(nodes, entries, at, name.items()) {
            None => return at,
            Some(n) => at = n,
        }
    }
    at
}

// Adds the node of one line.
fn add(
    alloc: Global,
    nodes: &mut Vec<Node>,
    entries: &mut Vec<Vec<u32>>,
    item: &FileItem,
) -> Result<(), NoMemory>
    requires entries { AreEntries nodes.old.items (map (λ v. v.items) entries.old.items) }
    requires root { 0 < length nodes.old.items }
    requires few { length nodes.old.items < 2 ^ 31 }
    requires path { 0 < length item.now.path }
    ensures nodes { OnOk result (nodes.new.items
        ≡ nodes.old.items ++ node_for nodes.old.items item.now ∷ []) }
    ensures entries { OnOk result
        (AreEntries nodes.new.items (map (λ v. v.items) entries.new.items)) }
{
    let path = item.path.items();
    let last = path.len() - 1;
    let dir = descend(nodes, entries, ROOT, &path[..last]);
    let name = path[last].try_clone()?;
    let body = match &item.body {
        None => None,
        Some(bytes) => Some(bytes.try_clone()?),
    };
    let n = nodes.len() as u32;
    nodes.push(Node {
        parent: Some(dir),
        name,
        body,
    })?;
    entries[dir as usize].push(n)?;
    entries.push(Vec::new(alloc))?;
    Ok(())
}

fn put_body(nodes: &mut Vec<Node>, n: u32, bytes: Bytes)
    ensures { nodes.new.items ≡ with_body nodes.old.items n bytes }
{
    let place = n as usize;
    if place < nodes.len() {
        nodes[place].body = Some(bytes);
    }
}

impl Tree {
    /// The nodes of these lines.
    pub fn new(alloc: Global, items: &[FileItem]) -> Result<Tree, NoMemory>
        requires few { length items.now ≤ MAX_NODES }
        requires paths { All (λ item. 0 < length item.path) items.now }
        ensures { IfOk result (λ t. t ≡ nodes_of items.now) }
    {
        let mut nodes = Vec::new(alloc);
        let mut entries = Vec::new(alloc);
        nodes.push(Node {
            parent: None,
            name: Name::of(Vec::new(alloc)),
            body: None,
        })?;
        entries.push(Vec::new(alloc))?;
        for item in items {
            add(alloc, &mut nodes, &mut entries, item)?;
        }
        Ok(Tree { nodes, entries })
    }

    /// The node that a directory has under a name, `None` where there is none.
    pub fn child(&self, dir: u32, name: &[u8]) -> Option<u32>
        ensures { result ≡ child self.now dir name.now }
    {
        child_of(&self.nodes, &self.entries, dir, name)
    }

    /// The directory above a node, the root's being itself.
    pub fn parent(&self, n: u32) -> u32
        ensures { result ≡ parent_of self.now n }
    {
        match self.nodes.get(n as usize) {
            None => n,
            Some(node) => match node.parent {
                None => n,
                Some(above) => above,
            },
        }
    }

    /// One step of a walk, `None` where the name leads nowhere.
    pub fn next(&self, at: u32, name: &[u8]) -> Option<u32>
        ensures { result ≡ spec_next self.now at name.now }
    {
        if name == UP {
            Some(self.parent(at))
        } else {
            self.child(at, name)
        }
    }

    /// The bytes of a file, `None` where it is none.
    pub fn body(&self, n: u32) -> Option<&[u8]>
        ensures { option_copied result ≡ body_of self.now n }
    {
        match self.nodes.get(n as usize) {
            None => None,
            Some(node) => match &node.body {
                None => None,
                Some(bytes) => Some(bytes.items()),
            },
        }
    }

    /// The qid of a node.
    pub fn qid(&self, n: u32) -> Qid
        ensures value { result ≡ qid_of self.now n }
        ensures range { result.path < 256 ^ 8 }
    {
        Qid {
            dir: self.body(n).is_none(),
            path: u64::from(n),
        }
    }

    /// Puts other bytes into a file.
    pub fn put(&mut self, n: u32, bytes: Bytes)
        ensures { self.new ≡ with_body self.old n bytes }
    {
        put_body(&mut self.nodes, n, bytes);
    }
}
