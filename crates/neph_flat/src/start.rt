// The machine at its start.
ghost use Rattle.std.specs.Prelude.{◌≡◌, ◌+◌, ◌<◌, ◌≤◌, IfOk, None, Some, ℕ, All, length};
ghost use Rattle.std.specs.FinMap as fm;
ghost use Rattle.std.specs.List.{range_with_len};
ghost use Rattle.neph_model.specs.declared.script.Start.{Start};
ghost use Rattle.neph_model.specs.Machine.{no_own};
ghost use Rattle.neph_model.specs.Start.{started_512s, start_vmap, start_pages, start_own, start_life, start_exposed, start_machine, identity_page, places};
ghost use Rattle.neph_model.specs.WellFormed.{IsWellFormed};
ghost use Rattle.neph_rows.specs.Records.{records_in};
ghost use Rattle.neph_flat.specs.Halves.{seen};

use crate::call::no_own;
use crate::flat_pages::FlatPages;
use crate::halves::Halves;
use crate::page_map::PageMap;
use neph_base::{DomId, IDS, List, Mode, NoMemory, Pfn};
use neph_model::{Leaves, Life, Mapping, Own, Page, Pages, Script, Start, VMap};
use neph_rows::Registry;
use std::alloc::Global;

/// The halves at the start of a script.
pub fn start_halves(alloc: Global, s: &Script) -> Result<Halves, NoMemory>
    requires { IsWellFormed s.now }
    ensures { IfOk result (λ a. seen a ≡ start_machine s.now) }
{
    let starts = s.starts.items();
    let maps = start_maps(alloc, starts)?;
    Ok(Halves {
        alloc,
        own: start_owns(alloc, starts)?,
        registry: start_registry(alloc, s)?,
        pages: FlatPages::of(alloc, maps),
    })
}

/// The hypervisor's tables at the start of a script.
pub fn start_registry(alloc: Global, s: &Script) -> Result<Registry, NoMemory>
    requires { IsWellFormed s.now }
    ensures { IfOk result (λ r. r ≡ records_in (start_machine s.now).shared) }
{
    let starts = s.starts.items();
    let lives = start_lives(alloc, starts)?;
    Registry::new(alloc, lives, 1 + starts.len() as u8)
}

// The own half of each id: none of id 0, then those of the starting domains, then none.
fn start_owns(alloc: Global, starts: &[Start]) -> Result<Vec<Own>, NoMemory>
    requires few { length starts.now ≤ 16 }
    requires each { All (λ (t : Start). (4 ≤ t.pages) × (t.pages ≤ 1024)) starts.now }
    ensures { IfOk result (λ v. v.items ≡ places no_own start_own starts.now) }
{
    let mut list = Vec::with_capacity(alloc, IDS)?;
    list.push(no_own(alloc))?;
    let mut id = 1;
    for start in starts {
        list.push(start_own(alloc, id, start)?)?;
        id += 1;
    }
    for _ in starts.len()..IDS - 1 {
        list.push(no_own(alloc))?;
    }
    Ok(list)
}

// What each id was born as.
fn start_lives(alloc: Global, starts: &[Start]) -> Result<Vec<Option<Life>>, NoMemory>
    requires { length starts.now ≤ 16 }
    ensures { IfOk result (λ v. v.items ≡ places None (λ n t. Some (start_life n t)) starts.now) }
{
    let mut list = Vec::with_capacity(alloc, IDS)?;
    list.push(None)?;
    let mut id = 1;
    for start in starts {
        list.push(Some(start_life(id, start)))?;
        id += 1;
    }
    for _ in starts.len()..IDS - 1 {
        list.push(None)?;
    }
    Ok(list)
}

// The exposed pages of each id.
fn start_maps(alloc: Global, starts: &[Start]) -> Result<Vec<PageMap>, NoMemory>
    requires { length starts.now ≤ 16 }
    ensures { IfOk result (λ v. v.items ≡ places fm.empty (λ n t. start_exposed) starts.now) }
{
    let mut list = Vec::with_capacity(alloc, IDS)?;
    list.push(PageMap::new(alloc))?;
    for _start in starts {
        list.push(start_exposed(alloc)?)?;
    }
    for _ in starts.len()..IDS - 1 {
        list.push(PageMap::new(alloc))?;
    }
    Ok(list)
}

// The exposed pages of a starting domain.
fn start_exposed(alloc: Global) -> Result<PageMap, NoMemory>
    ensures { IfOk result (λ pages. pages ≡ start_exposed) }
{
    let mut pages = PageMap::new(alloc);
    pages.insert(1, Page::zero(alloc)?)?;
    pages.insert(2, Page::zero(alloc)?)?;
    pages.insert(3, Page::zero(alloc)?)?;
    Ok(pages)
}

// What a starting domain is born as.
fn start_life(id: u8, start: &Start) -> Life
    ensures { result ≡ start_life id start.now }
{
    Life {
        parent: DomId::new(0).unwrap(),
        family: id,
        program: start.program,
        limit: start.limit,
        size: start.pages,
    }
}

// The own half of a starting domain.
fn start_own(alloc: Global, id: u8, start: &Start) -> Result<Own, NoMemory>
    requires low { 4 ≤ start.now.pages }
    requires high { start.now.pages ≤ 1024 }
    ensures { IfOk result (λ o. o ≡ start_own id start.now) }
{
    Ok(Own {
        line: 0,
        came: false,
        refused: false,
        pages: start_pages(alloc, id, start.pages)?,
        vmap: start_vmap(alloc, start.pages)?,
        leaves: start_leaves(alloc, start.pages)?,
        alone: List::of(vec![in alloc; true; start.pages as usize]?),
    })
}

fn start_vmap(alloc: Global, pages: u16) -> Result<VMap, NoMemory>
    requires { pages ≤ 1024 }
    ensures { IfOk result (λ m. m ≡ start_vmap pages) }
{
    let mut vmap = VMap::new(alloc);
    for page in 0..pages {
        let number = u32::from(page);
        let mode = if page < 4 { Mode::Ro } else { Mode::Rw };
        let pfn = Pfn::new(number).unwrap();
        vmap.insert(number, Mapping { pfn, mode })?;
    }
    Ok(vmap)
}

fn start_leaves(alloc: Global, pages: u16) -> Result<Leaves, NoMemory>
    requires { pages ≤ 1024 }
    ensures { IfOk result (λ l. l ≡ range_with_len 0 (started_512s pages)) }
{
    let mut list = Vec::new(alloc);
    for group in 0..(pages + 511) / 512 {
        list.push(group)?;
    }
    Ok(Leaves::of(list))
}

fn start_pages(alloc: Global, id: u8, pages: u16) -> Result<Pages, NoMemory>
    requires { 4 ≤ pages }
    ensures { IfOk result (λ list. list ≡ start_pages id pages) }
{
    let mut list = Vec::with_capacity(alloc, pages as usize)?;
    list.push(Some(identity_page(alloc, id, pages)?))?;
    list.push(None)?;
    list.push(None)?;
    list.push(None)?;
    for _ in 4..pages {
        list.push(Some(Page::zero(alloc)?))?;
    }
    Ok(Pages::of(list))
}

#[tactic(auto, unfolding(neph_model::specs::Start::identity_page))]
fn identity_page(alloc: Global, id: u8, pages: u16) -> Result<Page, NoMemory>
    ensures { IfOk result (λ page. page ≡ identity_page id 0 pages) }
{
    let mut page = Page::zero(alloc)?;
    page.write(0, &u32::from(id).to_le_bytes());
    page.write(4, &0u32.to_le_bytes());
    page.write(8, &u32::from(pages).to_le_bytes());
    Ok(page)
}
