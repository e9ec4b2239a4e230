// What a domain has to itself.
ghost use Rattle.std.specs.Prelude.{◌≡◌};

use crate::memory::{Mapping, Page};
use neph_base::{List, Mode, NoMemory, NumberMap, Pfn, TryClone, Vpn};
use std::marker::Model;

/// The pages of a domain's own half, by pfn; nothing stands in the place of an exposed page.
#[derive(Drop)]
pub struct Pages {
    list: Vec<Option<Page>>,
}

impl Model for Pages {
    ghost use Rattle.std.specs.Prelude.{ℕ, List, Option};

    ghost Value = { List (Option (List ℕ)) };

    ghost view = { λ a. a.list.items };
}

impl Pages {
    ghost use Rattle.std.specs.Prelude.{◌≡◌, ◌+◌, ◌<◌, ◌≤◌, length, slice_set, slice_index_or, None, Some, ℕ, List};
    ghost use Rattle.neph_model.specs.Memory.{page_with_bytes};

    /// These pages.
    pub fn of(list: Vec<Option<Page>>) -> Self
        ensures { result ≡ list.items }
    {
        Pages { list }
    }

    /// The pages.
    pub fn items(&self) -> &[Option<Page>]
        ensures { result.now ≡ self.now }
    {
        &self.list
    }

    /// Writes these bytes into a page of its own at an offset. Where no page is there, nothing
    /// changes.
    pub fn write(&mut self, pfn: usize, at: usize, bytes: &[u8])
        requires there { pfn < length self.old }
        requires inside { at + length bytes.now ≤ 4096 }
        ensures page { (page : List ℕ) → slice_index_or self.old pfn None ≡ Some page
            → self.new ≡ slice_set self.old pfn (Some (page_with_bytes page at bytes.now)) }
        ensures none { slice_index_or self.old pfn None ≡ None → self.new ≡ self.old }
    {
        if let Some(page) = &mut self.list[pfn] {
            page.write(at, bytes);
        }
    }

    /// Puts a page into its place.
    pub fn put(&mut self, pfn: usize, page: Page)
        requires { pfn < length self.old }
        ensures { self.new ≡ slice_set self.old pfn (Some page) }
    {
        self.list[pfn] = Some(page);
    }
}

impl TryClone for Pages {
    fn try_clone(&self) -> Result<Self, NoMemory> {
        let mut list = Vec::with_capacity(*self.list.allocator(), self.list.len())?;
        for page in &self.list {
            list.push(copied(page)?)?;
        }
        Ok(Pages { list })
    }
}

ghost use Rattle.std.specs.Prelude.{IfOk, OnErr, IsSome};

// A page that may be there, in memory of its own.
fn copied(page: &Option<Page>) -> Result<Option<Page>, NoMemory>
    ensures copy { IfOk result (λ c. c ≡ page.now) }
    ensures lacks { OnErr result (IsSome page.now) }
{
    match page {
        Some(page) => Ok(Some(page.copy()?)),
        None => Ok(None),
    }
}

/// The groups of 512 virtual pages that have a leaf table, in the order in which the tables were
/// made.
pub type Leaves = List<u16>;

/// Which page each virtual page maps to, and how.
pub type VMap = NumberMap<Mapping>;

/// A domain's own half: what it reads and changes by itself.
#[derive(Drop)]
pub struct Own {
    /// The number of its next line.
    pub line: u16,
    /// Whether it came as a child, and has committed no clone since.
    pub came: bool,
    /// Whether its last command that was no jump was refused.
    pub refused: bool,
    /// Its pages that aren't exposed.
    pub pages: Pages,
    /// Which page each virtual page maps to.
    pub vmap: VMap,
    /// Its leaf tables.
    pub leaves: Leaves,
    /// By pfn, whether no clone can share the page: it was written since the domain's last commit,
    /// or the domain has neither cloned nor come as a child.
    pub alone: List<bool>,
}

impl Own {
    ghost use Rattle.std.specs.Prelude.{◌≡◌};
    ghost use Rattle.neph_model.specs.Own.{is_bad_pfn, has_leaf};

    /// Whether it has no such page, or may not map it so: the identity page and the device pages
    /// are never writable.
    pub fn is_bad_pfn(&self, pfn: Pfn, mode: Mode) -> bool
        ensures { result ≡ is_bad_pfn self.now pfn mode }
    {
        let page = pfn.get() as usize;
        let missing = self.pages.items().len() <= page;
        match mode {
            Mode::Ro => missing,
            Mode::Rw => missing || page < 4,
        }
    }

    /// Whether the group of 512 virtual pages of this one has a leaf table.
    pub fn has_leaf(&self, vpn: Vpn) -> bool
        ensures { result ≡ has_leaf self.now vpn }
    {
        let group = (vpn.get() / 512) as u16;
        self.leaves.items().iter().any(|g| *g == group)
    }
}
