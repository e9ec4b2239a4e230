// The nodes that a domain starts with.
ghost use Rattle.std.specs.Prelude.{◌≡◌, ◌++◌, ◌∷◌, [], IfOk, OnOk};
ghost use Rattle.neph_tree.specs.Entries.{shown};
ghost use Rattle.neph_xsclone.specs.Rewriting.{device_nodes, start_nodes};

use crate::bytes::{backend, copy_of, joined};
use neph_base::{DomId, NoMemory};
use neph_tree::Place;
use std::alloc::Global;

// The state of a device that is connected (Xen's `XenbusStateConnected`), as text.
const CONNECTED: &[u8] = b"4";

pub(crate) fn start_nodes(
    alloc: Global,
    d: DomId,
    name: &[u8],
) -> Result<Vec<(Vec<u8>, Vec<u8>)>, NoMemory>
    ensures { IfOk result (λ nodes. shown nodes.items ≡ start_nodes d name.now) }
{
    let home = Place::home(d);
    let mut nodes = Vec::new(alloc);
    add(
        alloc,
        home.bytes(),
        b"/domid",
        Place::new(b"", d).bytes(),
        &mut nodes,
    )?;
    add(alloc, home.bytes(), b"/name", name, &mut nodes)?;
    add_device(alloc, d, b"9pfs", &mut nodes)?;
    add_device(alloc, d, b"console", &mut nodes)?;
    add_device(alloc, d, b"vif", &mut nodes)?;
    Ok(nodes)
}

// Adds the nodes of one device.
fn add_device(
    alloc: Global,
    d: DomId,
    kind: &[u8],
    nodes: &mut Vec<(Vec<u8>, Vec<u8>)>,
) -> Result<(), NoMemory>
    ensures { OnOk result (shown nodes.new.items
        ≡ shown nodes.old.items ++ device_nodes d kind.now) }
{
    let devices = joined(alloc, Place::home(d).bytes(), b"/device/")?;
    let front = joined(alloc, &devices, kind)?;
    let back = backend(alloc, kind, d)?;
    add(alloc, &front, b"/backend", &back, nodes)?;
    add(alloc, &front, b"/state", CONNECTED, nodes)?;
    add(alloc, &back, b"/frontend", &front, nodes)?;
    add(
        alloc,
        &back,
        b"/frontend-id",
        Place::new(b"", d).bytes(),
        nodes,
    )?;
    add(alloc, &back, b"/state", CONNECTED, nodes)?;
    Ok(())
}

// Adds one node.
fn add(
    alloc: Global,
    directory: &[u8],
    name: &[u8],
    value: &[u8],
    nodes: &mut Vec<(Vec<u8>, Vec<u8>)>,
) -> Result<(), NoMemory>
    ensures { OnOk result (shown nodes.new.items
        ≡ shown nodes.old.items ++ (directory.now ++ name.now, value.now) ∷ []) }
{
    let path = joined(alloc, directory, name)?;
    nodes.push((path, copy_of(alloc, value)?))?;
    Ok(())
}
