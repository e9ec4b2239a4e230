// The exposed pages of a domain.
ghost use Rattle.std.specs.Prelude.{◌≡◌, ◌+◌, ◌≤◌, length, IfOk};

use neph_base::NoMemory;
use neph_model::Page;
use std::alloc::Global;
use std::collections::BTreeMap;
use std::marker::Model;

/// Pages by pfn.
#[derive(Drop)]
pub struct PageMap {
    pages: BTreeMap<u32, Page>,
}

impl Model for PageMap {
    ghost use Rattle.std.specs.Prelude.{ℕ, List};
    ghost use Rattle.std.specs.Ordering.{nat_cmp};
    ghost use Rattle.std.specs.FinMap as map;
    ghost use Rattle.std.specs.Coded.{coded_ℕ, coded_list};

    ghost Value = { map.FinMap nat_cmp (List ℕ) };

    ghost coded = { map.code coded_ℕ (coded_list coded_ℕ) };

    ghost view = { λ a. map.from_entries a.pages.entries };
}

impl PageMap {
    ghost use Rattle.std.specs.Prelude.{◌≡◌, ◌+◌, ◌≤◌, length, take, drop, true, [], is_some, unwrap_or, None, IfOk, OnOk, OnErr, IsSome};
    ghost use Rattle.std.specs.Option.{option_copied};
    ghost use Rattle.std.specs.FinMap as map;
    ghost use Rattle.neph_model.specs.Memory.{page_with_bytes};

    /// No page.
    pub fn new(alloc: Global) -> Self
        ensures { result ≡ map.empty }
    {
        PageMap {
            pages: BTreeMap::new(alloc),
        }
    }

    /// The page of this number, `None` exactly where there is none.
    pub fn get(&self, pfn: u32) -> Option<&Page>
        ensures { option_copied result ≡ map.get self.now pfn }
    {
        self.pages.get(&pfn)
    }

    /// How many pages there are.
    pub fn len(&self) -> usize
        ensures { result ≡ map.len self.now }
    {
        self.pages.len()
    }

    /// Puts a page at a number. Only a number where no page stood takes memory.
    pub fn insert(&mut self, pfn: u32, page: Page) -> Result<(), NoMemory>
        ensures ok { OnOk result (self.new ≡ map.insert self.old pfn page) }
        ensures err { OnErr result (self.new ≡ self.old) }
        ensures absent { OnErr result (map.get self.old pfn ≡ None) }
    {
        self.pages.insert(pfn, page)?;
        Ok(())
    }

    /// Writes these bytes to a page at an offset.
    pub fn write(&mut self, pfn: u32, at: usize, bytes: &[u8])
        requires there { is_some (map.get self.old pfn) ≡ true }
        requires inside { at + length bytes.now ≤ 4096 }
        ensures len { map.len self.new ≡ map.len self.old }
        ensures page { self.new ≡ map.insert self.old pfn
            (page_with_bytes (unwrap_or (map.get self.old pfn) []) at bytes.now) }
    {
        let Some(page) = self.pages.get_mut(&pfn) else {
            unreachable!();
        };
        page.write(at, bytes);
    }

    /// Takes the page of a number off.
    pub fn take(&mut self, pfn: u32) -> Page
        requires { is_some (map.get self.old pfn) ≡ true }
        ensures page { result ≡ unwrap_or (map.get self.old pfn) [] }
        ensures rest { self.new ≡ map.remove self.old pfn }
    {
        let Some(page) = self.pages.remove(&pfn) else {
            unreachable!();
        };
        page
    }

    /// The same pages again, in memory of their own.
    pub fn copy(&self, alloc: Global) -> Result<Self, NoMemory>
        ensures { IfOk result (λ c. c ≡ self.now) }
    {
        let mut copy = Self::new(alloc);
        let mut rest = self.pages.iter();
        while let Some((pfn, page)) = rest.next_back() {
            copy.insert(*pfn, page.copy()?)?;
        }
        Ok(copy)
    }
}
