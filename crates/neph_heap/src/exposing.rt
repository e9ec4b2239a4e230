// Pages are exposed one by one, and taken off again.
ghost use Rattle.std.specs.Prelude.{◌≡◌, ◌<◌, ◌++◌, ◌∷◌, [], true, false, Some, IfOk, length, slice_set, vec_capacity};
ghost use Rattle.std.specs.FinMap as fm;
ghost use Rattle.neph_model.specs.Machine.{exposed_at};
ghost use Rattle.neph_model.specs.Trap.{is_exposed, exposed_bytes, with_exposed};
ghost use Rattle.neph_pool.specs.Bytes.{bytes_at};
ghost use Rattle.neph_pool.specs.Entries.{IsSoleAt};
ghost use Rattle.neph_pool.specs.World.{World};
ghost use Rattle.neph_heap.specs.Heap.{IsHeap};
ghost use Rattle.neph_heap.specs.Lists.{exposed_of, frame_in, pages_but};
ghost use Rattle.neph_heap.specs.Loose.{FrameComes, FrameGoes};
ghost use Rattle.neph_heap.specs.Pages.{pages_in};

use crate::exposed_frame::ExposedFrame;
use crate::heap::Heap;
use neph_base::{DomId, FrameNo, NoMemory, Pfn};
use neph_pool::FramePool;

impl<P: FramePool> Heap<P> {
    /// Room for one more exposed page of a domain.
    pub fn reserve(&self, id: DomId) -> Result<Vec<ExposedFrame>, NoMemory>
        ensures none { IfOk result (λ room. room.items ≡ []) }
        ensures room { IfOk result
            (λ room. length (exposed_of id self.now.stock) < vec_capacity room) }
    {
        self.stock.room(self.stock.exposed(id).len() + 1)
    }

    /// The loose frame is that of one more exposed page of a domain. The domain's list moves into
    /// the room that was made for it, so that no memory is taken.
    pub fn expose(&mut self, _pool: &P, id: DomId, page: ExposedFrame, room: Vec<ExposedFrame>)
        requires heap { IsHeap P.world _pool.now self.old.seat self.old.stock (page.frame ∷ []) }
        requires absent { is_exposed (pages_in (P.world.entries _pool.now self.old.seat)
            self.old.stock.exposed) id page.pfn ≡ false }
        requires none { room.items ≡ [] }
        requires room { length (exposed_of id self.old.stock) < vec_capacity room }
        ensures heap { IsHeap P.world _pool.now self.new.seat self.new.stock [] }
        ensures seat { self.new.seat ≡ self.old.seat }
        ensures lists { self.new.stock ≡ record self.old.stock {
          exposed = slice_set self.old.stock.exposed id
              (exposed_of id self.old.stock ++ page ∷ []);
        } }
        ensures pages { pages_in (P.world.entries _pool.now self.new.seat) self.new.stock.exposed
            ≡ with_exposed (pages_in (P.world.entries _pool.now self.old.seat)
            self.old.stock.exposed) id page.pfn
            (bytes_at (P.world.entries _pool.now self.old.seat) page.frame) }
    {
        self.stock.add_exposed(id, page, room);
    }

    /// Takes an exposed page of a domain off its list. The page's frame is loose then.
    pub fn unexpose(&mut self, _pool: &P, id: DomId, pfn: Pfn) -> FrameNo
        requires heap { IsHeap P.world _pool.now self.old.seat self.old.stock [] }
        requires there { is_exposed (pages_in (P.world.entries _pool.now self.old.seat)
            self.old.stock.exposed) id pfn ≡ true }
        ensures heap { IsHeap P.world _pool.now self.new.seat self.new.stock (result ∷ []) }
        ensures seat { self.new.seat ≡ self.old.seat }
        ensures sole { IsSoleAt (P.world.entries _pool.now self.new.seat) result }
        ensures frame { frame_in pfn (exposed_of id self.old.stock) ≡ Some result }
        ensures bytes { bytes_at (P.world.entries _pool.now self.new.seat) result
            ≡ exposed_bytes (pages_in (P.world.entries _pool.now self.old.seat)
            self.old.stock.exposed) id pfn }
        ensures lists { self.new.stock ≡ record self.old.stock {
          exposed = slice_set self.old.stock.exposed id
              (pages_but pfn (exposed_of id self.old.stock));
        } }
        ensures pages { pages_in (P.world.entries _pool.now self.new.seat) self.new.stock.exposed
            ≡ slice_set (pages_in (P.world.entries _pool.now self.old.seat)
            self.old.stock.exposed) id (fm.remove (exposed_at id (pages_in
            (P.world.entries _pool.now self.old.seat) self.old.stock.exposed)) pfn) }
    {
        let Some(frame) = self.stock.frame(id, pfn) else {
            unreachable!();
        };
        self.stock.remove_exposed(id, pfn);
        frame
    }
}

/// A frame that comes from a domain's seat to the heap's is loose then, and the exposed pages are
/// as they were.
pub fn frame_comes<P: FramePool>()
    ensures { FrameComes P.world }
{}

/// A loose frame that goes from the heap's seat leaves no frame loose, and the exposed pages as
/// they were.
pub fn frame_goes<P: FramePool>()
    ensures { FrameGoes P.world }
{}
