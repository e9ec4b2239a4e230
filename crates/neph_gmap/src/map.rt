// The map of a guest's pages.
ghost use Rattle.std.specs.Prelude.{◌≡◌, ◌<◌, ◌≤◌, ℕ, [], None, Some, IfOk, IfSome, OnOk, OnErr, length, replicate, slice_get, slice_set};
ghost use Rattle.neph_gmap.specs.GuestPages.{vpns_at, page_in, IsUnaliased, IsRising, with_number, without_number};

use crate::homes::{note_home, place_in};
use crate::page::Page;
use crate::vpns::Vpns;
use neph_base::{FrameNo, MAX_FRAMES, MAX_PAGES, NoMemory, Pfn, Vpn};
use std::alloc::Global;
use std::marker::Model;

/// For each page of a guest its place, and the rising list of virtual pages that are mapped to it.
/// Contracts see two lists by page number.
#[derive(Drop)]
pub struct GuestMap {
    pages: Vec<Page>,
    vpns: Vec<Vpns>,
    // By frame number, the page that was last put there: a hint, and nothing rests on it.
    homes: Vec<u16>,
}

impl Model for GuestMap {
    ghost use Rattle.std.specs.Prelude.{◌≡◌, ◌≤◌, vec_len, vec_capacity};
    ghost use Rattle.neph_base.specs.declared.sizes.TheConstants.{MAX_FRAMES, MAX_PAGES};
    ghost use Rattle.neph_gmap.specs.GuestPages.{GuestPages};

    ghost Value = { GuestPages };

    ghost view = { λ m. record {
      pages = m.pages.items;
      vpns = m.vpns.items;
    } };

    ghost invariant = { λ m. (vec_len m.vpns ≡ vec_len m.pages)
        × (vec_len m.pages ≤ MAX_PAGES)
        × (MAX_FRAMES ≤ vec_capacity m.homes) };
}

impl GuestMap {
    /// So many pages, up to 1024, all exposed and mapped nowhere.
    pub fn new(alloc: Global, pages: u16) -> Result<GuestMap, NoMemory>
        requires { pages ≤ MAX_PAGES }
        ensures { IfOk result (λ m. m ≡ record {
          pages = replicate pages Page.Exposed;
          vpns = replicate pages [];
        }) }
    {
        let mut places = Vec::with_capacity(alloc, pages as usize)?;
        let mut vpns = Vec::with_capacity(alloc, pages as usize)?;
        for _p in 0..pages {
            places.push(Page::Exposed)?;
            vpns.push(Vpns::new())?;
        }
        let homes = Vec::with_capacity(alloc, MAX_FRAMES)?;
        Ok(GuestMap {
            pages: places,
            vpns,
            homes,
        })
    }

    /// The place of a page, `None` exactly past the last page.
    pub fn page(&self, p: Pfn) -> Option<Page>
        ensures { result ≡ slice_get self.now.pages p }
    {
        self.pages.get(p.get() as usize).copied()
    }

    /// How many pages there are.
    pub fn len(&self) -> usize
        ensures count { result ≡ length self.now.pages }
        ensures range { result ≤ MAX_PAGES }
    {
        self.pages.len()
    }

    /// A page that lies in this frame, `None` exactly where none does.
    pub fn page_in(&self, f: FrameNo) -> Option<Pfn>
        ensures there { IfSome result (λ p. slice_get self.now.pages p ≡ Some (Page.Local f)) }
        ensures none { result ≡ None → page_in f self.now.pages ≡ None }
        ensures first { IsUnaliased self.now.pages → result ≡ page_in f self.now.pages }
    {
        match place_in(&self.pages, &self.homes, f) {
            Some(place) => Pfn::new(place as u32),
            None => None,
        }
    }

    /// Puts a page elsewhere.
    pub fn set(&mut self, p: Pfn, to: Page)
        requires { p < length self.old.pages }
        ensures { self.new ≡ record self.old { pages = slice_set self.old.pages p to } }
    {
        note_home(&mut self.homes, p, &to);
        self.pages[p.get() as usize] = to;
    }

    /// The virtual pages that are mapped to a page, by rising number; none past the last page.
    pub fn vpns(&self, p: Pfn) -> &[Vpn]
        ensures vpns { result.now ≡ vpns_at self.now p }
        ensures rising { IsRising result.now }
    {
        let place = p.get() as usize;
        if place < self.vpns.len() {
            self.vpns[place].numbers()
        } else {
            &[]
        }
    }

    /// Notes that a virtual page is mapped to a page. After `NoMemory` nothing has changed.
    pub fn add_vpn(&mut self, p: Pfn, v: Vpn) -> Result<(), NoMemory>
        requires { p < length self.old.pages }
        ensures ok { OnOk result (self.new ≡ record self.old {
          vpns = slice_set self.old.vpns p (with_number v (vpns_at self.old p));
        }) }
        ensures err { OnErr result (self.new ≡ self.old) }
    {
        let alloc = *self.vpns.allocator();
        let list = &mut self.vpns[p.get() as usize];
        list.add(alloc, v)
    }

    /// Lets the virtual pages be those of another map, of as many pages. After `NoMemory` nothing
    /// has changed.
    pub fn copy_vpns(&mut self, from: &GuestMap) -> Result<(), NoMemory>
        requires { length self.old.pages ≡ length from.now.pages }
        ensures ok { OnOk result (self.new ≡ record self.old { vpns = from.now.vpns }) }
        ensures err { OnErr result (self.new ≡ self.old) }
    {
        let alloc = *self.vpns.allocator();
        let mut lists = Vec::with_capacity(alloc, from.vpns.len())?;
        for list in &from.vpns {
            lists.push(list.copied(alloc)?)?;
        }
        self.vpns = lists;
        Ok(())
    }

    /// Notes that a virtual page is not mapped to a page.
    pub fn drop_vpn(&mut self, p: Pfn, v: Vpn)
        ensures { self.new ≡ record self.old {
          vpns = slice_set self.old.vpns p (without_number v (vpns_at self.old p));
        } }
    {
        let place = p.get() as usize;
        if place < self.vpns.len() {
            let list = &mut self.vpns[place];
            list.remove(v);
        }
    }
}
