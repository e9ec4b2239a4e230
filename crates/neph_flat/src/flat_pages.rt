// The exposed pages of all domains, flat.
use crate::page_map::PageMap;
use neph_base::{DomId, NoMemory, Pfn};
use neph_model::Page;
use neph_rows::ExposedPages;
use std::alloc::Global;
use std::marker::Model;

/// The exposed pages of each id.
#[derive(Drop)]
pub struct FlatPages {
    alloc: Global,
    maps: Vec<PageMap>,
}

impl Model for FlatPages {
    ghost use Rattle.std.specs.Prelude.{List};
    ghost use Rattle.neph_model.specs.Machine.{Exposed};
    ghost use Rattle.std.specs.FinMap as map;
    ghost use Rattle.std.specs.Coded.{coded_ℕ, coded_list};

    ghost Value = { List Exposed };

    ghost coded = { coded_list (map.code coded_ℕ (coded_list coded_ℕ)) };

    ghost use Rattle.neph_flat.specs.Pages.{IsPlaced};

    ghost view = { λ a. a.maps.items };

    ghost invariant = { λ a. IsPlaced a.maps.items };
}

impl FlatPages {
    ghost use Rattle.std.specs.Prelude.{◌≡◌, true};
    ghost use Rattle.neph_model.specs.Trap.{is_exposed, exposed_bytes, without_exposed};
    ghost use Rattle.neph_flat.specs.Pages.{IsPlaced};

    /// These pages.
    pub fn of(alloc: Global, maps: Vec<PageMap>) -> Self
        requires { IsPlaced maps.items }
        ensures { result ≡ maps.items }
    {
        FlatPages { alloc, maps }
    }

    /// Takes an exposed page of a domain off.
    pub fn take(&mut self, id: DomId, pfn: Pfn) -> Page
        requires { is_exposed self.old id pfn ≡ true }
        ensures page { result ≡ exposed_bytes self.old id pfn }
        ensures rest { self.new ≡ without_exposed self.old id pfn }
    {
        self.maps[id.get() as usize].take(pfn.get())
    }
}

impl ExposedPages for FlatPages {
    ghost use Rattle.std.specs.Prelude.{⊤};

    ghost fits = { λ a. ⊤ };

    ghost pages = { λ a. a };

    ghost may_bear = { λ a child parent. ⊤ };

    ghost stays = { λ a b. ⊤ };

    ghost born = { λ a b child. ⊤ };

    ghost left = { λ a b id. ⊤ };

    fn has(&self, id: DomId, pfn: Pfn) -> bool {
        self.maps[id.get() as usize].get(pfn.get()).is_some()
    }

    fn count(&self, id: DomId) -> u32 {
        self.maps[id.get() as usize].len() as u32
    }

    fn read(&mut self, id: DomId, pfn: Pfn, at: usize, into: &mut [u8]) {
        let page = self.maps[id.get() as usize].get(pfn.get()).unwrap();
        into.copy_from_slice(&page.bytes()[at..at + into.len()]);
    }

    fn write(&mut self, id: DomId, pfn: Pfn, at: usize, bytes: &[u8]) {
        self.maps[id.get() as usize].write(pfn.get(), at, bytes);
    }

    fn bear(&mut self, child: DomId, parent: DomId) -> Result<(), NoMemory> {
        let born = child_pages(self.alloc, &self.maps[parent.get() as usize])?;
        self.maps[child.get() as usize] = born;
        Ok(())
    }

    fn end(&mut self, id: DomId) {
        self.maps[id.get() as usize] = PageMap::new(self.alloc);
    }

    ghost stays_itself = { λ a fits. tt };
}

ghost use Rattle.std.specs.Prelude.{◌≡◌, IfOk, OnOk, OnErr, ℕ, List};
ghost use Rattle.std.specs.FinMap as map;
ghost use Rattle.neph_model.specs.Births.{child_exposed, with_changed};
ghost use Rattle.neph_model.specs.Memory.{zero_page, child_network_page};

// The exposed pages of a child: its parent's, but the console page and the 9P page are zero, and
// the network page sends nothing.
fn child_pages(alloc: Global, parent: &PageMap) -> Result<PageMap, NoMemory>
    ensures pages { IfOk result (λ born. born ≡ child_exposed parent.now) }
    ensures len { IfOk result (λ born. map.len born ≡ map.len parent.now) }
{
    let mut born = parent.copy(alloc)?;
    clear(alloc, &mut born, 1)?;
    silence(&mut born)?;
    clear(alloc, &mut born, 3)?;
    Ok(born)
}

// Makes a page zero, where it is there.
fn clear(alloc: Global, pages: &mut PageMap, pfn: u32) -> Result<(), NoMemory>
    ensures { OnOk result (pages.new ≡ with_changed pages.old pfn (λ page. zero_page)) }
{
    if pages.get(pfn).is_some() {
        pages.insert(pfn, Page::zero(alloc)?)?;
    }
    Ok(())
}

// Lets the network page send nothing, where it is there.
fn silence(pages: &mut PageMap) -> Result<(), NoMemory>
    ensures { OnOk result (pages.new ≡ with_changed pages.old 2 child_network_page) }
{
    let Some(page) = pages.get(2) else {
        return Ok(());
    };
    let silent = silent(page)?;
    pages.insert(2, silent)?;
    Ok(())
}

// A network page that sends nothing.
#[tactic(auto, unfolding(neph_model::specs::Memory::child_network_page))]
fn silent(page: &Page) -> Result<Page, NoMemory>
    ensures { IfOk result (λ silent. silent ≡ child_network_page page.now) }
{
    let mut silent = page.copy()?;
    silent.write(0, &[0; 1152]);
    silent.write(2304, &[0; 8]);
    Ok(silent)
}
