// The copies of a parent's nodes.
ghost use Rattle.std.specs.Prelude.{◌≡◌, ◌++◌, ◌∷◌, [], IfOk, OnOk};
ghost use Rattle.neph_tree.specs.Entries.{shown};
ghost use Rattle.neph_tree.specs.Nodes.{IsTree};
ghost use Rattle.neph_xsclone.specs.Rewriting.{backend, copied, copies, copies_within};

use crate::bytes::{backend, moved_or_same};
use crate::value::value_in_clone;
use neph_base::{DomId, NoMemory};
use neph_tree::{Place, Tree};
use std::alloc::Global;

// The nodes of a clone.
pub(crate) fn copies(
    alloc: Global,
    t: &Tree,
    parent: DomId,
    child: DomId,
) -> Result<Vec<(Vec<u8>, Vec<u8>)>, NoMemory>
    ensures nodes { IfOk result (λ nodes. shown nodes.items ≡ copies t.now parent child) }
    ensures tree { IsTree t.now }
{
    let mut nodes = Vec::new(alloc);
    let home = Place::home(parent);
    copy_within(
        alloc,
        t,
        parent,
        child,
        home.bytes(),
        Place::home(child).bytes(),
        &mut nodes,
    )?;
    copy_backend(alloc, t, parent, child, b"9pfs", &mut nodes)?;
    copy_backend(alloc, t, parent, child, b"console", &mut nodes)?;
    copy_backend(alloc, t, parent, child, b"vif", &mut nodes)?;
    Ok(nodes)
}

// Adds the copies of the nodes within a backend.
fn copy_backend(
    alloc: Global,
    t: &Tree,
    parent: DomId,
    child: DomId,
    kind: &[u8],
    nodes: &mut Vec<(Vec<u8>, Vec<u8>)>,
) -> Result<(), NoMemory>
    ensures { OnOk result (shown nodes.new.items ≡ shown nodes.old.items
        ++ copies_within t.now parent child (backend kind.now parent) (backend kind.now child)) }
{
    let from = backend(alloc, kind, parent)?;
    let to = backend(alloc, kind, child)?;
    copy_within(alloc, t, parent, child, &from, &to, nodes)
}

// Adds the copies of the nodes within `from`, which stand within `to`.
fn copy_within(
    alloc: Global,
    t: &Tree,
    parent: DomId,
    child: DomId,
    from: &[u8],
    to: &[u8],
    nodes: &mut Vec<(Vec<u8>, Vec<u8>)>,
) -> Result<(), NoMemory>
    ensures copies { OnOk result (shown nodes.new.items ≡ shown nodes.old.items
        ++ copies_within t.now parent child from.now to.now) }
    ensures tree { IsTree t.now }
{
    let old = t.within(from)?;
    for node in &old {
        add_copy(alloc, parent, child, from, to, node, nodes)?;
    }
    Ok(())
}

// Adds the copy of one node.
fn add_copy(
    alloc: Global,
    parent: DomId,
    child: DomId,
    from: &[u8],
    to: &[u8],
    node: &(&[u8], &[u8]),
    nodes: &mut Vec<(Vec<u8>, Vec<u8>)>,
) -> Result<(), NoMemory>
    ensures { OnOk result (shown nodes.new.items ≡ shown nodes.old.items
        ++ copied parent child from.now to.now (node.now.0.now, node.now.1.now) ∷ []) }
{
    let path = moved_or_same(alloc, from, to, node.0)?;
    let value = value_in_clone(alloc, parent, child, node.0, node.1)?;
    nodes.push((path, value))?;
    Ok(())
}
