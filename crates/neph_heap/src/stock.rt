// The lists of the frames that the hypervisor holds.
use crate::exposed_frame::ExposedFrame;
use crate::page_list::PageList;
use neph_base::{DomId, FrameNo, IDS, List, MAX_FRAMES, MAX_PAGES, NoMemory, Pfn};
use std::alloc::Global;
use std::marker::Model;
use std::mem;

/// The lists of the frames that the hypervisor holds, with room for every frame among the free
/// ones.
#[derive(Drop)]
pub struct Stock {
    alloc: Global,
    free: Vec<FrameNo>,
    exposed: Vec<PageList>,
    aside: Vec<List<FrameNo>>,
}

impl Model for Stock {
    ghost use Rattle.neph_heap.specs.Lists.{Lists};

    ghost Value = { Lists };

    ghost use Rattle.neph_heap.specs.Stock.{lists_of, HasRoom};

    ghost view = { lists_of };

    ghost invariant = { HasRoom };
}

impl Stock {
    ghost use Rattle.std.specs.Prelude.{◌≡◌, ◌≤◌, ◌<◌, ◌+◌, ◌-◌, ◌++◌, ◌∷◌, [], All, IfOk, MatchOption, option_to_list, length, take, drop, reverse, slice_set, slice_index_or, vec_capacity, vec_len};
    ghost use Rattle.std.specs.List.{range_with_len};
    ghost use Rattle.neph_heap.specs.Lists.{Lists, no_lists, exposed_of, aside_of, frame_in, frames_of, pages_but, exposed_count, aside_count};

    /// No frame at all.
    pub(crate) fn new(alloc: Global) -> Result<Self, NoMemory>
        ensures { IfOk result (λ s. s ≡ no_lists) }
    {
        let free = Vec::with_capacity(alloc, MAX_FRAMES)?;
        let mut exposed = Vec::with_capacity(alloc, IDS)?;
        let mut aside = Vec::with_capacity(alloc, IDS)?;
        for _ in 0..IDS {
            exposed.push(PageList::of(Vec::new(alloc)))?;
            aside.push(List::of(Vec::new(alloc)))?;
        }
        Ok(Stock {
            alloc,
            free,
            exposed,
            aside,
        })
    }

    /// How many frames are free.
    pub fn free_len(&self) -> usize
        ensures { result ≡ length self.now.free }
    {
        self.free.len()
    }

    /// The exposed pages of a domain.
    pub fn exposed(&self, id: DomId) -> &[ExposedFrame]
        ensures pages { result.now ≡ exposed_of id self.now }
        ensures range { id < IDS }
    {
        self.exposed[id.get() as usize].items()
    }

    /// The frame that an exposed page of a domain lies in, `None` exactly where the page isn't
    /// exposed.
    pub fn frame(&self, id: DomId, pfn: Pfn) -> Option<FrameNo>
        ensures frame { result ≡ frame_in pfn (exposed_of id self.now) }
        ensures range { id < IDS }
    {
        frame_among(self.exposed(id), pfn)
    }

    /// The frames that are put aside for the exposed pages of a child.
    pub fn aside(&self, child: DomId) -> &[FrameNo]
        ensures frames { result.now ≡ aside_of child self.now }
        ensures range { child < IDS }
    {
        self.aside[child.get() as usize].items()
    }

    /// How many pages are exposed, of all domains.
    pub fn exposed_len(&self) -> usize
        requires { exposed_count self.now ≤ MAX_FRAMES }
        ensures { result ≡ exposed_count self.now }
    {
        self.exposed.iter().map(|pages| pages.items().len()).sum()
    }

    /// How many frames are put aside, for all children.
    pub fn aside_len(&self) -> usize
        requires { aside_count self.now ≤ MAX_FRAMES }
        ensures { result ≡ aside_count self.now }
    {
        self.aside.iter().map(|frames| frames.items().len()).sum()
    }

    // A vector with room for so many items.
    pub(crate) fn room<T>(&self, count: usize) -> Result<Vec<T>, NoMemory>
        ensures none { IfOk result (λ v. v.items ≡ []) }
        ensures room { IfOk result (λ v. count ≤ vec_capacity v) }
    {
        Ok(Vec::with_capacity(self.alloc, count)?)
    }

    // Takes the last of the free frames, `None` exactly where there is none.
    pub(crate) fn pop_free(&mut self) -> Option<FrameNo>
        ensures none { MatchOption result (self.old.free ≡ []) (λ f. Unit {0}) }
        ensures free { self.old.free ≡ self.new.free ++ option_to_list result }
        ensures rest { self.new ≡ record self.old { free = self.new.free } }
    {
        self.free.pop()
    }

    // Moves so many of the free frames, from the list's end, into a vector with room for them.
    pub(crate) fn move_free(&mut self, into: &mut Vec<FrameNo>, count: usize)
        requires there { count ≤ length self.old.free }
        requires none { into.old.items ≡ [] }
        requires room { count ≤ vec_capacity into.old }
        ensures free { self.old.free ≡ self.new.free ++ into.new.items }
        ensures count { length into.new.items ≡ count }
        ensures rest { self.new ≡ record self.old { free = self.new.free } }
    {
        let left = self.free.len() - count;
        for i in left..self.free.len() {
            into.push_reserved(self.free[i]);
        }
        self.free.truncate(left);
    }

    // Adds frames to the free ones, of which there are not too many then.
    pub(crate) fn add_free(&mut self, frames: &[FrameNo])
        requires { length self.old.free + length frames.now ≤ MAX_FRAMES }
        ensures { self.new ≡ record self.old { free = self.old.free ++ frames.now } }
    {
        for f in frames {
            self.free.push_reserved(*f);
        }
    }

    // Adds the frames of some pages to the free ones, of which there are not too many then.
    pub(crate) fn add_pages(&mut self, pages: &[ExposedFrame])
        requires { length self.old.free + length (frames_of pages.now) ≤ MAX_FRAMES }
        ensures { self.new ≡ record self.old { free = self.old.free ++ frames_of pages.now } }
    {
        for page in pages {
            self.free.push_reserved(page.frame);
        }
    }

    // Puts frames aside for a child, and hands back those that were.
    pub(crate) fn set_aside(&mut self, child: DomId, frames: List<FrameNo>) -> List<FrameNo>
        ensures was { result ≡ aside_of child self.old }
        ensures range { child < IDS }
        ensures now { self.new
            ≡ record self.old { aside = slice_set self.old.aside child frames } }
    {
        mem::replace(&mut self.aside[child.get() as usize], frames)
    }

    // Lets these be the exposed pages of a domain, and hands back those that were.
    pub(crate) fn set_exposed(&mut self, id: DomId, pages: PageList) -> PageList
        ensures was { result ≡ exposed_of id self.old }
        ensures range { id < IDS }
        ensures now { self.new
            ≡ record self.old { exposed = slice_set self.old.exposed id pages } }
    {
        mem::replace(&mut self.exposed[id.get() as usize], pages)
    }

    // Lets one more page of a domain be exposed. Its list moves into this room.
    pub(crate) fn add_exposed(&mut self, id: DomId, page: ExposedFrame, room: Vec<ExposedFrame>)
        requires none { room.items ≡ [] }
        requires room { length (exposed_of id self.old) < vec_capacity room }
        ensures numbers { All (λ (x : ExposedFrame). x.pfn < MAX_PAGES)
            (exposed_of id self.old ++ page ∷ []) }
        ensures range { id < IDS }
        ensures now { self.new ≡ record self.old {
          exposed = slice_set self.old.exposed id (exposed_of id self.old ++ page ∷ []);
        } }
    {
        let mut pages = room;
        for old in self.exposed(id) {
            let _number = old.pfn.get();
            pages.push_reserved(*old);
        }
        let _number = page.pfn.get();
        pages.push_reserved(page);
        self.set_exposed(id, PageList::of(pages));
    }

    // Takes a page of a domain off its exposed pages.
    pub(crate) fn remove_exposed(&mut self, id: DomId, pfn: Pfn)
        ensures range { id < IDS }
        ensures now { self.new ≡ record self.old {
          exposed = slice_set self.old.exposed id (pages_but pfn (exposed_of id self.old));
        } }
    {
        self.exposed[id.get() as usize].remove(pfn);
    }

    // Lets the first so many frames of the machine be free, where none is. The lowest one lies at
    // the list's end, so that it is the next to be taken.
    pub(crate) fn fill(&mut self, count: usize)
        requires none { self.old.free ≡ [] }
        requires few { count ≤ MAX_FRAMES }
        ensures { self.new ≡ record self.old { free = reverse (range_with_len 0 count) } }
    {
        for i in 0..count {
            let f = count - 1 - i;
            self.free.push_reserved(FrameNo::new(f as u32).unwrap());
        }
    }

    // No exposed page.
    pub(crate) fn no_pages(&self) -> PageList
        ensures { result ≡ [] }
    {
        PageList::of(Vec::new(self.alloc))
    }

    // An empty list.
    pub(crate) fn nothing<T>(&self) -> List<T>
        ensures { result ≡ [] }
    {
        List::of(Vec::new(self.alloc))
    }
}

ghost use Rattle.std.specs.Prelude.{◌≡◌};
ghost use Rattle.neph_heap.specs.Lists.{frame_in};

// The frame of the page with this number.
fn frame_among(pages: &[ExposedFrame], pfn: Pfn) -> Option<FrameNo>
    ensures { result ≡ frame_in pfn pages.now }
{
    for page in pages {
        if page.pfn == pfn {
            return Some(page.frame);
        }
    }
    None
}
