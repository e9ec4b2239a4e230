// The own halves that a commit leaves.
ghost use Rattle.std.specs.Prelude.{◌≡◌, ◌≤◌, ◌<◌, length, slice_set, slice_index_or, IfOk, None};
ghost use Rattle.std.specs.Option.{option_map};
ghost use Rattle.neph_model.specs.Births.{child_own, parent_own, none_alone};
ghost use Rattle.neph_model.specs.Memory.{page_with_identity};

use neph_base::{DomId, List, NoMemory, TryClone};
use neph_model::{Own, Page, Pages};
use std::alloc::Global;

/// The own half of a child with this id of a domain with that id.
pub fn child_own(alloc: Global, child: DomId, dom: DomId, o: &Own) -> Result<Own, NoMemory>
    requires some { 0 < length o.now.pages }
    requires few { length o.now.pages ≤ 1024 }
    requires room { o.now.line < 65535 }
    ensures { IfOk result (λ born. born ≡ child_own child dom o.now) }
{
    Ok(Own {
        line: o.line + 1,
        came: true,
        refused: false,
        pages: child_pages(alloc, child, dom, &o.pages)?,
        vmap: o.vmap.try_clone()?,
        leaves: o.leaves.try_clone()?,
        alone: none_alone(alloc, o.alone.items())?,
    })
}

/// No page that is known to be a domain's alone, of as many pages as these.
pub fn none_alone(alloc: Global, alone: &[bool]) -> Result<List<bool>, NoMemory>
    ensures { IfOk result (λ none. none ≡ none_alone alone.now) }
{
    let mut list = Vec::with_capacity(alloc, alone.len())?;
    for _page in alone {
        list.push(false)?;
    }
    Ok(List::of(list))
}

// The pages of a child's own half: its parent's, with its own numbers in the identity page.
fn child_pages(alloc: Global, child: DomId, dom: DomId, of: &Pages) -> Result<Pages, NoMemory>
    requires some { 0 < length of.now }
    requires few { length of.now ≤ 1024 }
    ensures { IfOk result (λ pages. pages
        ≡ slice_set of.now 0 (option_map (λ page. page_with_identity page child dom (length of.now))
        (slice_index_or of.now 0 None))) }
{
    let items = of.items();
    let identity = identity_page(&items[0], child, dom, items.len() as u32)?;
    let mut list = copies(alloc, items)?;
    list[0] = identity;
    Ok(Pages::of(list))
}

// Pages that may be there, in memory of their own.
fn copies(alloc: Global, pages: &[Option<Page>]) -> Result<Vec<Option<Page>>, NoMemory>
    ensures { IfOk result (λ copies. copies.items ≡ pages.now) }
{
    let mut list = Vec::with_capacity(alloc, pages.len())?;
    for page in pages {
        list.push(copied(page)?)?;
    }
    Ok(list)
}

// A page that may be there, in memory of its own.
fn copied(page: &Option<Page>) -> Result<Option<Page>, NoMemory>
    ensures { IfOk result (λ copy. copy ≡ page.now) }
{
    match page {
        Some(page) => Ok(Some(page.copy()?)),
        None => Ok(None),
    }
}

// A page that may be there, with the numbers of an identity page.
fn identity_page(
    page: &Option<Page>,
    id: DomId,
    parent: DomId,
    count: u32,
) -> Result<Option<Page>, NoMemory>
    ensures { IfOk result (λ new. new
        ≡ option_map (λ page. page_with_identity page id parent count) page.now) }
{
    let Some(page) = page else {
        return Ok(None);
    };
    let mut page = page.copy()?;
    page.write(0, &id.get().to_le_bytes());
    page.write(4, &parent.get().to_le_bytes());
    page.write(8, &count.to_le_bytes());
    Ok(Some(page))
}
