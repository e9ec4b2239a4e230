// The exposed pages in frames of the heap.
ghost use Rattle.std.specs.Prelude.{◌≡◌, ◌≤◌, ◌+◌, ◌++◌, ℕ, List, [], true, OnOk, OnErr, is_ok, if◌then◌else◌, length, take, drop, slice_set};
ghost use Rattle.std.specs.FinMap as fm;
ghost use Rattle.neph_model.specs.Births.{child_exposed};
ghost use Rattle.neph_model.specs.Machine.{exposed_at};
ghost use Rattle.neph_model.specs.Start.{start_exposed};
ghost use Rattle.neph_model.specs.Trap.{is_exposed, exposed_bytes, with_exposed_bytes};
ghost use Rattle.neph_pool.specs.Entries.{hold_at};
ghost use Rattle.neph_pool.specs.World.{World, Moves};
ghost use Rattle.neph_heap.specs.Heap.{IsHeap, MayBear, ArePages};
ghost use Rattle.std.specs.declared.option.Option.{Option};
ghost use Rattle.neph_pool.specs.declared.entry.Entry.{Entry};
ghost use Rattle.neph_heap.specs.Lists.{exposed_of, aside_of, frames_of};
ghost use Rattle.neph_heap.specs.Pages.{pages_in};

use crate::heap::Heap;
use crate::moves::{release_all, retake_all};
use crate::page_list::PageList;
use crate::words::{fill_pages, read_into, zero_pages};
use neph_base::{DomId, NoMemory, Pfn};
use neph_pool::{FramePool, write_bytes};
use neph_rows::ExposedPages;

impl<P: FramePool> Heap<P> {
    /// Lays the three device pages of a starting domain, 1 to 3, into free frames, all zero. Want
    /// of memory changes nothing.
    pub fn expose_devices(&mut self, pool: &mut P, id: DomId) -> Result<(), NoMemory>
        requires heap { IsHeap P.world pool.old self.old.seat self.old.stock [] }
        requires none { exposed_of id self.old.stock ≡ [] }
        requires free { 3 ≤ length self.old.stock.free }
        ensures heap { IsHeap P.world pool.new self.new.seat self.new.stock [] }
        ensures pages { pages_in (P.world.entries pool.new self.new.seat) self.new.stock.exposed
            ≡ (if is_ok result then slice_set (pages_in (P.world.entries pool.old self.old.seat)
            self.old.stock.exposed) id start_exposed
            else pages_in (P.world.entries pool.old self.old.seat) self.old.stock.exposed) }
        ensures free { OnOk result (self.old.stock.free
            ≡ self.new.stock.free ++ frames_of (exposed_of id self.new.stock)) }
        ensures rest { OnOk result (self.new.stock ≡ record self.old.stock {
          free = self.new.stock.free;
          exposed = slice_set self.old.stock.exposed id (exposed_of id self.new.stock);
        }) }
        ensures err { OnErr result (self.new.stock ≡ self.old.stock) }
        ensures moves { Moves P.world pool.old self.old.seat pool.new self.new.seat }
        ensures shares { P.world.shares pool.new ≡ P.world.shares pool.old }
    {
        let mut frames = self.stock.room(3)?;
        let mut born = self.stock.room(3)?;
        self.stock.move_free(&mut frames, 3);
        retake_all(pool, &mut self.seat, &frames);
        zero_pages(pool, &mut self.seat, &frames, &mut born);
        self.stock.set_exposed(id, PageList::of(born));
        Ok(())
    }

    /// Whether a page of a domain is exposed.
    pub fn has(&self, id: DomId, pfn: Pfn) -> bool
        ensures { (es : List (Option Entry))
            → result ≡ is_exposed (pages_in es self.now.stock.exposed) id pfn }
    {
        self.stock.frame(id, pfn).is_some()
    }

    /// How many pages of a domain are exposed.
    pub fn count(&self, id: DomId) -> u32
        requires { ArePages (exposed_of id self.now.stock) }
        ensures value { (es : List (Option Entry))
            → result ≡ fm.len (exposed_at id (pages_in es self.now.stock.exposed)) }
        ensures pages { result ≡ length (exposed_of id self.now.stock) }
        ensures few { result ≤ 1024 }
    {
        self.stock.exposed(id).len() as u32
    }

    /// Reads bytes of an exposed page, from this offset on.
    pub fn read(&mut self, pool: &mut P, id: DomId, pfn: Pfn, at: usize, into: &mut [u8])
        requires heap { IsHeap P.world pool.old self.old.seat self.old.stock [] }
        requires there { is_exposed (pages_in (P.world.entries pool.old self.old.seat)
            self.old.stock.exposed) id pfn ≡ true }
        requires inside { at + length into.old ≤ 4096 }
        ensures heap { IsHeap P.world pool.new self.new.seat self.new.stock [] }
        ensures bytes { into.new ≡ take (length into.old) (drop at (exposed_bytes
            (pages_in (P.world.entries pool.old self.old.seat) self.old.stock.exposed) id pfn)) }
        ensures lists { self.new.stock ≡ self.old.stock }
        ensures pages { pages_in (P.world.entries pool.new self.new.seat) self.new.stock.exposed
            ≡ pages_in (P.world.entries pool.old self.old.seat) self.old.stock.exposed }
        ensures moves { Moves P.world pool.old self.old.seat pool.new self.new.seat }
        ensures shares { P.world.shares pool.new ≡ P.world.shares pool.old }
    {
        let Some(frame) = self.stock.frame(id, pfn) else {
            unreachable!();
        };
        read_into(pool, &mut self.seat, frame, at, into);
    }

    /// Writes bytes to an exposed page, from this offset on.
    pub fn write(&mut self, pool: &mut P, id: DomId, pfn: Pfn, at: usize, bytes: &[u8])
        requires heap { IsHeap P.world pool.old self.old.seat self.old.stock [] }
        requires there { is_exposed (pages_in (P.world.entries pool.old self.old.seat)
            self.old.stock.exposed) id pfn ≡ true }
        requires inside { at + length bytes.now ≤ 4096 }
        ensures heap { IsHeap P.world pool.new self.new.seat self.new.stock [] }
        ensures lists { self.new.stock ≡ self.old.stock }
        ensures pages { pages_in (P.world.entries pool.new self.new.seat) self.new.stock.exposed
            ≡ with_exposed_bytes (pages_in (P.world.entries pool.old self.old.seat)
            self.old.stock.exposed) id pfn at bytes.now }
        ensures moves { Moves P.world pool.old self.old.seat pool.new self.new.seat }
        ensures shares { P.world.shares pool.new ≡ P.world.shares pool.old }
    {
        let Some(frame) = self.stock.frame(id, pfn) else {
            unreachable!();
        };
        write_bytes(pool, &mut self.seat, frame, at as u16, bytes);
    }

    /// Makes the exposed pages of a child from its parent's, in the frames that are put aside for
    /// them. The console page and the 9P page are zero, the network page sends nothing, and each
    /// other page is copied. Want of memory changes nothing.
    pub fn bear(&mut self, pool: &mut P, child: DomId, parent: DomId) -> Result<(), NoMemory>
        requires heap { IsHeap P.world pool.old self.old.seat self.old.stock [] }
        requires may { MayBear self.old.stock child parent }
        ensures heap { IsHeap P.world pool.new self.new.seat self.new.stock [] }
        ensures pages { pages_in (P.world.entries pool.new self.new.seat) self.new.stock.exposed
            ≡ (if is_ok result then slice_set (pages_in (P.world.entries pool.old self.old.seat)
            self.old.stock.exposed) child (child_exposed (exposed_at parent (pages_in
            (P.world.entries pool.old self.old.seat) self.old.stock.exposed)))
            else pages_in (P.world.entries pool.old self.old.seat) self.old.stock.exposed) }
        ensures frames { OnOk result (frames_of (exposed_of child self.new.stock)
            ≡ aside_of child self.old.stock) }
        ensures rest { OnOk result (self.new.stock ≡ record self.old.stock {
          exposed = slice_set self.old.stock.exposed child (exposed_of child self.new.stock);
          aside = slice_set self.old.stock.aside child [];
        }) }
        ensures err { OnErr result (self.new.stock ≡ self.old.stock) }
        ensures moves { Moves P.world pool.old self.old.seat pool.new self.new.seat }
        ensures shares { P.world.shares pool.new ≡ P.world.shares pool.old }
    {
        let mut born = self.stock.room(self.stock.exposed(parent).len())?;
        let none = self.stock.nothing();
        let frames = self.stock.set_aside(child, none);
        fill_pages(
            pool,
            &mut self.seat,
            self.stock.exposed(parent),
            frames.items(),
            &mut born,
        );
        self.stock.set_exposed(child, PageList::of(born));
        Ok(())
    }

    /// Leaves a domain no exposed page. The frames of those that it had are free then.
    pub fn end(&mut self, pool: &mut P, id: DomId)
        requires heap { IsHeap P.world pool.old self.old.seat self.old.stock [] }
        ensures heap { IsHeap P.world pool.new self.new.seat self.new.stock [] }
        ensures lists { self.new.stock ≡ record self.old.stock {
          free = self.old.stock.free ++ frames_of (exposed_of id self.old.stock);
          exposed = slice_set self.old.stock.exposed id [];
        } }
        ensures pages { pages_in (P.world.entries pool.new self.new.seat) self.new.stock.exposed
            ≡ slice_set (pages_in (P.world.entries pool.old self.old.seat)
            self.old.stock.exposed) id fm.empty }
        ensures moves { Moves P.world pool.old self.old.seat pool.new self.new.seat }
        ensures shares { P.world.shares pool.new ≡ P.world.shares pool.old }
    {
        let none = self.stock.no_pages();
        let pages = self.stock.set_exposed(id, none);
        release_all(pool, &mut self.seat, pages.items());
        self.stock.add_pages(pages.items());
    }
}

/// The exposed pages of all domains, in the frames of a heap.
#[derive(Drop)]
pub struct HeapPages<'a, P: FramePool> {
    /// The heap.
    pub heap: &'a mut Heap<P>,
    /// The pool of the heap's seat.
    pub pool: &'a mut P,
}

impl<'a, P: FramePool> ExposedPages for HeapPages<'a, P> {
    ghost use Rattle.std.specs.Prelude.{◌≡◌, [], refl};
    ghost use Rattle.neph_pool.specs.World.{World};
    ghost use Rattle.neph_heap.specs.Heap.{IsHeap, MayBear, IsBorn, lists_left, IsPageCall};
    ghost use Rattle.neph_heap.specs.Kept.{no_call};
    ghost use Rattle.neph_heap.specs.Pages.{pages_in};

    ghost fits = { λ a. IsHeap P.world a.pool.now a.heap.now.seat a.heap.now.stock [] };

    ghost pages = { λ a.
        pages_in (P.world.entries a.pool.now a.heap.now.seat) a.heap.now.stock.exposed };

    ghost may_bear = { λ a child parent. MayBear a.heap.now.stock child parent };

    ghost stays = { λ a b. (b.heap.ghost_name ≡ a.heap.ghost_name)
        × (b.pool.ghost_name ≡ a.pool.ghost_name)
        × IsPageCall P.world a.pool.now a.heap.now.seat b.pool.now b.heap.now.seat
        × (b.heap.now.stock ≡ a.heap.now.stock) };

    ghost born = { λ a b child. (b.heap.ghost_name ≡ a.heap.ghost_name)
        × (b.pool.ghost_name ≡ a.pool.ghost_name)
        × IsPageCall P.world a.pool.now a.heap.now.seat b.pool.now b.heap.now.seat
        × IsBorn a.heap.now.stock b.heap.now.stock child };

    ghost left = { λ a b id. (b.heap.ghost_name ≡ a.heap.ghost_name)
        × (b.pool.ghost_name ≡ a.pool.ghost_name)
        × IsPageCall P.world a.pool.now a.heap.now.seat b.pool.now b.heap.now.seat
        × (b.heap.now.stock ≡ lists_left a.heap.now.stock id) };

    fn has(&self, id: DomId, pfn: Pfn) -> bool {
        self.heap.has(id, pfn)
    }

    fn count(&self, id: DomId) -> u32 {
        self.heap.count(id)
    }

    fn read(&mut self, id: DomId, pfn: Pfn, at: usize, into: &mut [u8]) {
        self.heap.read(self.pool, id, pfn, at, into);
    }

    fn write(&mut self, id: DomId, pfn: Pfn, at: usize, bytes: &[u8]) {
        self.heap.write(self.pool, id, pfn, at, bytes);
    }

    fn bear(&mut self, child: DomId, parent: DomId) -> Result<(), NoMemory> {
        self.heap.bear(self.pool, child, parent)
    }

    fn end(&mut self, id: DomId) {
        self.heap.end(self.pool, id);
    }

    ghost stays_itself = { λ a fits. (
      refl,
      refl,
      no_call P.world a.pool.now a.heap.now.seat a.heap.now.stock fits,
      refl,
    ) };
}
