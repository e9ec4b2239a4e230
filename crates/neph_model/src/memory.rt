// A guest's pages, and what virtual pages map to.
ghost use Rattle.std.specs.Prelude.{◌≡◌, ◌+◌, ◌≤◌, length, IfOk};
ghost use Rattle.neph_model.specs.Memory.{page_with_bytes, zero_page};

use neph_base::{Mode, NoMemory, Pfn, TryClone};
use std::alloc::Global;
use std::marker::Model;

/// The 4096 bytes of a page.
#[derive(Debug, Drop)]
pub struct Page {
    bytes: Vec<u8>,
}

impl Model for Page {
    ghost use Rattle.std.specs.Prelude.{◌≡◌, ℕ, List, length};

    ghost Value = { List ℕ };

    ghost view = { λ a. a.bytes.items };

    ghost invariant = { λ a. length a.bytes.items ≡ 4096 };
}

impl Page {
    /// A page of zeros.
    #[tactic(auto, unfolding(crate::specs::Memory::zero_page))]
    pub fn zero(alloc: Global) -> Result<Self, NoMemory>
        ensures { IfOk result (λ p. p ≡ zero_page) }
    {
        Ok(Page {
            bytes: vec![in alloc; 0; 4096]?,
        })
    }

    /// Its bytes.
    pub fn bytes(&self) -> &[u8]
        ensures value { result.now ≡ self.now }
        ensures whole { length result.now ≡ 4096 }
    {
        &self.bytes
    }

    /// Writes these bytes at this offset.
    pub fn write(&mut self, at: usize, bytes: &[u8])
        requires { at + length bytes.now ≤ 4096 }
        ensures { self.new ≡ page_with_bytes self.old at bytes.now }
    {
        overwrite(&mut self.bytes, at, bytes);
    }

    /// The same page again, in memory of its own.
    pub fn copy(&self) -> Result<Self, NoMemory>
        ensures { IfOk result (λ c. c ≡ self.now) }
    {
        Ok(Page {
            bytes: Vec::from_slice(*self.bytes.allocator(), &self.bytes)?,
        })
    }
}

fn overwrite(page: &mut [u8], at: usize, bytes: &[u8])
    requires { at + length bytes.now ≤ length page.old }
    ensures { page.new ≡ page_with_bytes page.old at bytes.now }
{
    page[at..at + bytes.len()].copy_from_slice(bytes);
}

/// What a virtual page maps to: a page of the guest, and how.
#[derive(Clone, Copy, Debug, PartialEq, Eq)]
pub struct Mapping {
    /// The guest's page.
    pub pfn: Pfn,
    /// Whether it may be written there.
    pub mode: Mode,
}

impl TryClone for Mapping {
    fn try_clone(&self) -> Result<Self, NoMemory> {
        Ok(*self)
    }
}
