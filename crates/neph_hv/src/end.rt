// The end of a domain.
ghost use Rattle.std.specs.Prelude.{◌≡◌, ℕ, List};
ghost use Rattle.neph_model.specs.Births.{end_domain};
ghost use Rattle.neph_pool.specs.Names.{IsApart, both_names};
ghost use Rattle.neph_pool.specs.World.{World, Moves, Spares};
ghost use Rattle.neph_memory.specs.Domains.{IsStanding};
ghost use Rattle.neph_heap.specs.Heap.{lists_left};
ghost use Rattle.neph_hv.specs.Hv.{IsHv, shared_in, lists_ended};

use crate::hv::Hv;
use neph_base::{DomId, Reply};
use neph_heap::HeapPages;
use neph_memory::DomLocal;
use neph_pool::FramePool;

impl<P: FramePool> Hv<P> {
    /// Ends a domain: the frames of which it had the last reference are free then, and so are those
    /// of its exposed pages. Its id is a name of the hypervisor's seat again. Takes no memory.
    pub fn end_domain(&mut self, pool: &mut P, d: DomLocal<P>) -> Reply
        requires hv { IsHv P.world pool.old self.old }
        requires stands { IsStanding P.world pool.old d }
        requires apart { IsApart (P.world.names self.old.heap.seat) (P.world.names d.seat) }
        ensures hv { IsHv P.world pool.new self.new }
        ensures row { end_domain (shared_in P.world pool.old self.old) d.id
            ≡ shared_in P.world pool.new self.new }
        ensures reply { result ≡ Reply.Ended }
        ensures stock { (frames : List ℕ) × (self.new.heap.stock
            ≡ lists_ended self.old.heap.stock d.id frames) }
        ensures names { P.world.names self.new.heap.seat
            ≡ both_names (P.world.names self.old.heap.seat) (P.world.names d.seat) }
        ensures others { Spares P.world
            (both_names (P.world.names self.old.heap.seat) (P.world.names d.seat))
            pool.old pool.new }
        ensures shares { P.world.shares pool.new ≡ P.world.shares pool.old }
    {
        let id = d.id;
        let (seat, frames) = neph_local::end(pool, d);
        self.heap.take_in(pool, seat, &frames);
        self.end_row(pool, id)
    }

    // The row of an end.
    fn end_row(&mut self, pool: &mut P, dom: DomId) -> Reply
        requires hv { IsHv P.world pool.old self.old }
        ensures hv { IsHv P.world pool.new self.new }
        ensures row { end_domain (shared_in P.world pool.old self.old) dom
            ≡ shared_in P.world pool.new self.new }
        ensures reply { result ≡ Reply.Ended }
        ensures stock { self.new.heap.stock ≡ lists_left self.old.heap.stock dom }
        ensures moves { Moves P.world pool.old self.old.heap.seat pool.new self.new.heap.seat }
        ensures shares { P.world.shares pool.new ≡ P.world.shares pool.old }
    {
        let mut pages = HeapPages {
            heap: &mut self.heap,
            pool,
        };
        neph_rows::end(&mut self.registry, &mut pages, dom)
    }
}
