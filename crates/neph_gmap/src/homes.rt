// The page of a frame: hints, and the search where a hint misleads.
ghost use Rattle.std.specs.Prelude.{◌≡◌, ◌<◌, ◌≤◌, true, None, Some, IfSome, length, slice_get, vec_capacity};
ghost use Rattle.neph_base.specs.declared.sizes.TheConstants.{MAX_FRAMES};
ghost use Rattle.neph_gmap.specs.GuestPages.{page_in, IsUnaliased};

use crate::page::Page;
use neph_base::{FrameNo, Pfn};

// The place of the first page that lies in this frame.
fn first_in(pages: &[Page], f: FrameNo) -> Option<usize>
    ensures place { result ≡ page_in f pages.now }
    ensures bound { IfSome result (λ n. n < length pages.now) }
{
    pages.iter().position(|page| page.lies_in(f))
}

// Whether the page at this place lies in this frame.
fn lies_at(pages: &[Page], place: usize, f: FrameNo) -> bool
    ensures { result ≡ true → slice_get pages.now place ≡ Some (Page.Local f) }
{
    match pages.get(place) {
        Some(page) => page.lies_in(f),
        None => false,
    }
}

/// The place of a page that lies in this frame: the one that its hint names, if that lies there,
/// and else the first.
pub fn place_in(pages: &[Page], homes: &[u16], f: FrameNo) -> Option<usize>
    ensures there { IfSome result (λ p. slice_get pages.now p ≡ Some (Page.Local f)) }
    ensures none { result ≡ None → page_in f pages.now ≡ None }
    ensures first { IsUnaliased pages.now → result ≡ page_in f pages.now }
    ensures bound { IfSome result (λ n. n < length pages.now) }
{
    let home = match homes.get(f.get() as usize) {
        Some(home) => *home as usize,
        None => pages.len(),
    };
    if lies_at(pages, home, f) {
        return Some(home);
    }
    first_in(pages, f)
}

/// Notes for the frame of a page that it is this page's. The hints reach up to the greatest frame
/// that was noted; there is room for all, so that they grow without memory.
pub fn note_home(homes: &mut Vec<u16>, p: Pfn, page: &Page)
    requires { MAX_FRAMES ≤ vec_capacity homes.old }
    ensures { MAX_FRAMES ≤ vec_capacity homes.new }
{
    let Page::Local(f) = *page else {
        return;
    };
    let frame = f.get() as usize;
    if homes.len() <= frame {
        let _ = homes.resize(frame + 1, 0);
    }
    if let Some(home) = homes.get_mut(frame) {
        *home = p.get() as u16;
    }
}
