// The paths of XenStore.
ghost use Rattle.std.specs.Prelude.{◌≡◌, ◌↔◌, IsTrue, IfOk, OnErr};
ghost use Rattle.std.specs.List.{list_all};
ghost use Rattle.std.specs.Option.{SomeIff};
ghost use Rattle.neph_base.specs.Path.{is_component, is_path_byte, is_path, parts, IsStorePath};

use crate::list::TryClone;
use crate::memory::NoMemory;
use std::alloc::Global;
use std::marker::Model;

/// The most bytes of an absolute path (Xen's `XENSTORE_ABS_PATH_MAX`).
pub const XENSTORE_ABS_PATH_MAX: usize = 3072;

/// What parts the components of a path.
pub const SLASH: u8 = b'/';

/// An absolute path of the store, as its bytes: `/`, or `/` and components parted by `/`, each of
/// one or more letters, digits, `-`, `_` and `@`.
#[derive(Debug, Drop)]
pub struct Path {
    bytes: Vec<u8>,
}

impl Model for Path {
    ghost use Rattle.std.specs.Prelude.{ℕ, List};
    ghost use Rattle.neph_base.specs.Path.{IsStorePath};

    ghost Value = { List ℕ };

    ghost view = { λ a. a.bytes.items };

    ghost invariant = { λ a. IsStorePath a.bytes.items };
}

impl Path {
    /// The path that the text spells, `None` exactly where it spells none. Only a path takes
    /// memory.
    pub fn new(alloc: Global, text: &str) -> Result<Option<Path>, NoMemory>
        ensures spelled { IfOk result (λ p. SomeIff p (IsStorePath text.now) text.now) }
        ensures lacks { OnErr result (IsStorePath text.now) }
    {
        let given = text.as_bytes();
        if !is_store_path(given) {
            return Ok(None);
        }
        let bytes = copy_of(alloc, given)?;
        Ok(Some(Path { bytes }))
    }

    /// The bytes.
    pub fn bytes(&self) -> &[u8]
        ensures value { result.now ≡ self.now }
        ensures path { IsStorePath self.now }
    {
        &self.bytes
    }
}

impl TryClone for Path {
    fn try_clone(&self) -> Result<Self, NoMemory> {
        let bytes = copy_of(*self.bytes.allocator(), &self.bytes)?;
        Ok(Path { bytes })
    }
}

fn copy_of(alloc: Global, bytes: &[u8]) -> Result<Vec<u8>, NoMemory>
    ensures { IfOk result (λ copy. copy.items ≡ bytes.now) }
{
    let mut copy = Vec::with_capacity(alloc, bytes.len())?;
    copy.extend_from_slice(bytes)?;
    Ok(copy)
}

fn is_store_path(bytes: &[u8]) -> bool
    ensures { IsTrue result ↔ IsStorePath bytes.now }
{
    has_path_form(bytes) && bytes.len() <= XENSTORE_ABS_PATH_MAX
}

fn has_path_form(bytes: &[u8]) -> bool
    ensures { result ≡ is_path bytes.now }
{
    if bytes.is_empty() || bytes[0] != SLASH {
        return false;
    }
    bytes.len() == 1 || has_components(&bytes[1..])
}

fn has_components(text: &[u8]) -> bool
    ensures { result ≡ list_all is_component (parts text.now) }
{
    text.split(|b| *b == SLASH).all(is_path_component)
}

fn is_path_component(part: &[u8]) -> bool
    ensures { result ≡ is_component part.now }
{
    !part.is_empty() && part.iter().all(|b| is_byte_of_path(*b))
}

fn is_byte_of_path(b: u8) -> bool
    ensures { result ≡ is_path_byte b }
{
    b.is_ascii_alphanumeric() || b == b'-' || b == b'_' || b == b'@'
}
