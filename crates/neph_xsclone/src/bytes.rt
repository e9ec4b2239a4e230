// Texts that are put together.
ghost use Rattle.std.specs.Prelude.{◌≡◌, ◌++◌, ◌∷◌, [], nat_eq, IfOk};
ghost use Rattle.std.specs.Option.{option_copied, option_map};
ghost use Rattle.std.specs.Cmp.Lexicographic.{pointwise};
ghost use Rattle.neph_base.specs.Path.{slash};
ghost use Rattle.neph_tree.specs.Places.{behind};
ghost use Rattle.neph_xsclone.specs.Rewriting.{moved, moved_or_same, backend};

use neph_base::{DomId, NoMemory, SLASH};
use neph_tree::Place;
use std::alloc::Global;

// What every backend's path begins with.
pub(crate) const BACKENDS: &[u8] = b"/local/domain/0/backend/";

// The bytes, in memory of their own.
pub(crate) fn copy_of(alloc: Global, bytes: &[u8]) -> Result<Vec<u8>, NoMemory>
    ensures { IfOk result (λ copy. copy.items ≡ bytes.now) }
{
    let mut copy = Vec::with_capacity(alloc, bytes.len())?;
    copy.extend_from_slice(bytes)?;
    Ok(copy)
}

// These bytes one behind the other.
pub(crate) fn joined(alloc: Global, front: &[u8], back: &[u8]) -> Result<Vec<u8>, NoMemory>
    ensures { IfOk result (λ text. text.items ≡ front.now ++ back.now) }
{
    let mut text = Vec::with_capacity(alloc, front.len().saturating_add(back.len()))?;
    text.extend_from_slice(front)?;
    text.extend_from_slice(back)?;
    Ok(text)
}

// The text is these two one behind the other.
pub(crate) fn is_joined(text: &[u8], front: &[u8], back: &[u8]) -> bool
    ensures { result ≡ pointwise nat_eq text.now (front.now ++ back.now) }
{
    match text.strip_prefix(front) {
        Some(rest) => rest == back,
        None => false,
    }
}

// The path of what stands below this one, by its rest.
fn path_below(alloc: Global, top: &[u8], rest: &[u8]) -> Result<Vec<u8>, NoMemory>
    ensures { IfOk result (λ path. path.items ≡ top.now ++ slash ∷ rest.now) }
{
    let mut path = Vec::with_capacity(alloc, top.len().saturating_add(rest.len()))?;
    path.extend_from_slice(top)?;
    path.push(SLASH)?;
    path.extend_from_slice(rest)?;
    Ok(path)
}

// What stands behind `top` and a slash in a path below it.
fn rest_below<'p>(top: &[u8], path: &'p [u8]) -> Option<&'p [u8]>
    ensures { option_copied result ≡ behind (top.now ++ slash ∷ []) path.now }
{
    match path.strip_prefix(top) {
        Some(rest) => rest.strip_prefix(&[SLASH]),
        None => None,
    }
}

// The path with `to` in the place of `from`, if it is `from` or below it.
pub(crate) fn moved(
    alloc: Global,
    from: &[u8],
    to: &[u8],
    path: &[u8],
) -> Result<Option<Vec<u8>>, NoMemory>
    ensures { IfOk result (λ text.
        option_map (λ v. v.items) text ≡ moved from.now to.now path.now) }
{
    if path == from {
        return Ok(Some(copy_of(alloc, to)?));
    }
    match rest_below(from, path) {
        Some(rest) => Ok(Some(path_below(alloc, to, rest)?)),
        None => Ok(None),
    }
}

// The same, and every other text as it is.
pub(crate) fn moved_or_same(
    alloc: Global,
    from: &[u8],
    to: &[u8],
    path: &[u8],
) -> Result<Vec<u8>, NoMemory>
    ensures { IfOk result (λ text. text.items ≡ moved_or_same from.now to.now path.now) }
{
    match moved(alloc, from, to, path)? {
        Some(text) => Ok(text),
        None => copy_of(alloc, path),
    }
}

// The path of a domain's backend.
pub(crate) fn backend(alloc: Global, kind: &[u8], d: DomId) -> Result<Vec<u8>, NoMemory>
    ensures { IfOk result (λ path. path.items ≡ backend kind.now d) }
{
    let front = joined(alloc, BACKENDS, kind)?;
    joined(alloc, &front, Place::new(b"/", d).bytes())
}
