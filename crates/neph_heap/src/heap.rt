// The hypervisor's frames.
ghost use Rattle.std.specs.Prelude.{◌≡◌, ◌<◌, ◌≤◌, ◌++◌, ◌↔◌, ℕ, [], true, IsTrue, IfOk, MatchOption, option_to_list, length, reverse};
ghost use Rattle.std.specs.List.{range_with_len};
ghost use Rattle.neph_pool.specs.Entries.{IsZeroAt};
ghost use Rattle.neph_pool.specs.World.{World, Moves};
ghost use Rattle.neph_heap.specs.Heap.{IsHeap};
ghost use Rattle.neph_heap.specs.Lists.{no_lists, exposed_count, aside_count};
ghost use Rattle.neph_heap.specs.Pages.{pages_in};

use crate::stock::Stock;
use neph_base::{FrameNo, NoMemory};
use neph_pool::FramePool;
use std::alloc::Global;
use std::marker::PhantomData;

/// The hypervisor's frames: the seat that it has in the pool, and the lists of its frames. The pool
/// is handed in at each call.
#[derive(Drop)]
pub struct Heap<P: FramePool> {
    /// Its seat, with the name 0.
    pub seat: P::Seat,
    /// The lists.
    pub stock: Stock,
    of: PhantomData<P>,
}

impl<P: FramePool> Heap<P> {
    /// All frames are free, the lowest at the list's end, so that it is the next to be taken. The
    /// seat has every name, and keeps every frame of the pool.
    pub fn start(alloc: Global, _pool: &P, seat: P::Seat, frames: u32) -> Result<Heap<P>, NoMemory>
        requires fits { P.world.fits _pool.now seat }
        requires names { (d : ℕ) → d < 64 → P.world.names seat d ≡ true }
        requires frames { P.world.frames _pool.now ≡ frames }
        requires few { frames ≤ 16384 }
        requires zero { (f : ℕ) → f < frames → IsZeroAt (P.world.entries _pool.now seat) f }
        ensures heap { IfOk result (λ h. IsHeap P.world _pool.now h.seat h.stock []) }
        ensures seat { IfOk result (λ h. h.seat ≡ seat) }
        ensures lists { IfOk result (λ h. h.stock
            ≡ record no_lists { free = reverse (range_with_len 0 frames) }) }
    {
        let mut stock = Stock::new(alloc)?;
        stock.fill(frames as usize);
        Ok(Heap {
            seat,
            stock,
            of: PhantomData,
        })
    }

    /// How many frames are free.
    pub fn free_len(&self) -> usize
        ensures { result ≡ length self.now.stock.free }
    {
        self.stock.free_len()
    }

    /// Whether no frame is free.
    pub fn is_empty(&self) -> bool
        ensures { IsTrue result ↔ (length self.now.stock.free ≡ 0) }
    {
        self.free_len() == 0
    }

    /// How many pages are exposed, of all domains.
    pub fn exposed_len(&self, _pool: &P) -> usize
        requires heap { IsHeap P.world _pool.now self.now.seat self.now.stock [] }
        ensures { result ≡ exposed_count self.now.stock }
    {
        self.stock.exposed_len()
    }

    /// How many frames are put aside, for all children.
    pub fn aside_len(&self, _pool: &P) -> usize
        requires heap { IsHeap P.world _pool.now self.now.seat self.now.stock [] }
        ensures { result ≡ aside_count self.now.stock }
    {
        self.stock.aside_len()
    }

    /// Takes a free frame, `None` exactly where none is free. The heap's seat has the frame to
    /// itself then, and it waits to be handed to another seat.
    pub fn take(&mut self, pool: &mut P) -> Option<FrameNo>
        requires heap { IsHeap P.world pool.old self.old.seat self.old.stock [] }
        ensures heap { IsHeap P.world pool.new self.new.seat self.new.stock
            (option_to_list result) }
        ensures none { MatchOption result (self.old.stock.free ≡ []) (λ f. Unit {0}) }
        ensures free { self.old.stock.free ≡ self.new.stock.free ++ option_to_list result }
        ensures rest { self.new.stock
            ≡ record self.old.stock { free = self.new.stock.free } }
        ensures pages { pages_in (P.world.entries pool.new self.new.seat) self.new.stock.exposed
            ≡ pages_in (P.world.entries pool.old self.old.seat) self.old.stock.exposed }
        ensures moves { Moves P.world pool.old self.old.seat pool.new self.new.seat }
        ensures shares { P.world.shares pool.new ≡ P.world.shares pool.old }
    {
        let f = self.stock.pop_free()?;
        pool.retake(&mut self.seat, f);
        Some(f)
    }
}
