// The value that a node's copy has.
ghost use Rattle.std.specs.Prelude.{◌≡◌, IfOk};
ghost use Rattle.neph_base.specs.Path.{is_component, is_path_byte};
ghost use Rattle.neph_tree.specs.Places.{behind};
ghost use Rattle.neph_xsclone.specs.Rewriting.{id_in_clone, kind_in, backends, backend_in_clone, path_in_clone, value_in_clone};

use crate::bytes::{BACKENDS, backend, copy_of, is_joined, joined, moved, moved_or_same};
use neph_base::{DomId, NoMemory, SLASH};
use neph_tree::Place;
use std::alloc::Global;

// The value of a node's copy, by the node's name.
pub(crate) fn value_in_clone(
    alloc: Global,
    parent: DomId,
    child: DomId,
    path: &[u8],
    value: &[u8],
) -> Result<Vec<u8>, NoMemory>
    ensures { IfOk result (λ copy.
        copy.items ≡ value_in_clone parent child path.now value.now) }
{
    if path.ends_with(b"/domid") || path.ends_with(b"/frontend-id") {
        return id_in_clone(alloc, parent, child, value);
    }
    if path.ends_with(b"/frontend") || path.ends_with(b"/backend") {
        return path_in_clone(alloc, parent, child, value);
    }
    if is_joined(path, Place::home(parent).bytes(), b"/name") {
        return joined(alloc, value, Place::new(b"-", child).bytes());
    }
    copy_of(alloc, value)
}

// The parent's id becomes the child's.
fn id_in_clone(
    alloc: Global,
    parent: DomId,
    child: DomId,
    value: &[u8],
) -> Result<Vec<u8>, NoMemory>
    ensures { IfOk result (λ copy. copy.items ≡ id_in_clone parent child value.now) }
{
    if value == Place::new(b"", parent).bytes() {
        return copy_of(alloc, Place::new(b"", child).bytes());
    }
    copy_of(alloc, value)
}

// In a path at or below the parent's home or a backend of it, its id becomes the child's.
fn path_in_clone(
    alloc: Global,
    parent: DomId,
    child: DomId,
    value: &[u8],
) -> Result<Vec<u8>, NoMemory>
    ensures { IfOk result (λ copy. copy.items ≡ path_in_clone parent child value.now) }
{
    let from = Place::home(parent);
    match moved(alloc, from.bytes(), Place::home(child).bytes(), value)? {
        Some(copy) => Ok(copy),
        None => backend_in_clone(alloc, parent, child, value),
    }
}

fn backend_in_clone(
    alloc: Global,
    parent: DomId,
    child: DomId,
    value: &[u8],
) -> Result<Vec<u8>, NoMemory>
    ensures { IfOk result (λ copy.
        copy.items ≡ backend_in_clone parent child (behind backends value.now) value.now) }
{
    match value.strip_prefix(BACKENDS) {
        Some(text) => {
            let kind = kind_in(text);
            if !is_component(kind) {
                return Ok(copy_of(alloc, value)?);
            }
            let from = backend(alloc, kind, parent)?;
            let to = backend(alloc, kind, child)?;
            Ok(moved_or_same(alloc, &from, &to, value)?)
        }
        None => Ok(copy_of(alloc, value)?),
    }
}

// What stands before the first slash.
fn kind_in(text: &[u8]) -> &[u8]
    ensures { result.now ≡ kind_in text.now }
{
    match text.iter().position(|b| *b == SLASH) {
        Some(end) => &text[..end],
        None => text,
    }
}

fn is_component(part: &[u8]) -> bool
    ensures { result ≡ is_component part.now }
{
    !part.is_empty() && part.iter().all(|b| is_path_byte(*b))
}

fn is_path_byte(b: u8) -> bool
    ensures { result ≡ is_path_byte b }
{
    b.is_ascii_alphanumeric() || b == b'-' || b == b'_' || b == b'@'
}
