// A domain's pages, without their frames.
ghost use Rattle.std.specs.Prelude.{◌≡◌, ◌≤◌, [], None, Some, false, if◌then◌else◌, IfOk, replicate};
ghost use Rattle.neph_memory.specs.Pages.{frame_of, frame_at};

use neph_base::{FrameNo, MAX_PAGES, NoMemory, Pfn};
use neph_gmap::{GuestMap, Page};
use std::alloc::Global;

/// Where each page lies and at which virtual pages it is mapped, which pages are known to be in no
/// other domain, and the spare frame.
#[derive(Drop)]
pub struct Own {
    /// The place of each page, and the virtual pages that are mapped to it.
    pub map: GuestMap,
    /// A mark for each page: it is known to be in no other domain.
    pub marks: Vec<bool>,
    /// The frame that the next copy or the next leaf table takes.
    pub spare: Option<FrameNo>,
}

impl Own {
    /// So many pages, up to 1024, all exposed, mapped nowhere and not marked, and no spare.
    pub fn new(alloc: Global, pages: u16) -> Result<Own, NoMemory>
        requires { pages ≤ MAX_PAGES }
        ensures map { IfOk result (λ o. o.map ≡ record {
          pages = replicate pages Page.Exposed;
          vpns = replicate pages [];
        }) }
        ensures marks { IfOk result (λ o. o.marks.items ≡ replicate pages false) }
        ensures spare { IfOk result (λ o. o.spare ≡ None) }
    {
        let map = GuestMap::new(alloc, pages)?;
        let mut marks = Vec::new(alloc);
        for _p in 0..pages {
            marks.push(false)?;
        }
        Ok(Own {
            map,
            marks,
            spare: None,
        })
    }
}

// The frame of a page that is the domain's own.
fn frame_in(page: Page) -> Option<FrameNo>
    ensures { result ≡ frame_of (Some page) }
{
    match page {
        Page::Local(f) => Some(f),
        Page::Exposed => None,
    }
}

/// The frame of a page, `None` exactly where the page is exposed or past the last page.
#[tactic(auto, unfolding(crate::specs::Pages::frame_at))]
pub fn frame_for(map: &GuestMap, p: Pfn) -> Option<FrameNo>
    ensures { result ≡ frame_at map.now.pages p }
{
    match map.page(p) {
        Some(page) => frame_in(page),
        None => None,
    }
}

/// The frame as the next spare, if it is kept.
pub fn kept(last: bool, f: FrameNo) -> Option<FrameNo>
    ensures { result ≡ (if last then Some f else None) }
{
    if last { Some(f) } else { None }
}
