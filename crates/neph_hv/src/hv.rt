// The hypervisor's state, its spare frames and its calls.
ghost use Rattle.std.specs.Prelude.{◌≡◌, ◌≢◌, ◌++◌, ◌≤◌, ℕ, List, [], ◌∷◌, true, false, is_some, None, option_to_list};
ghost use Rattle.neph_model.specs.Machine.{Exposed, is_live};
ghost use Rattle.neph_model.specs.Step.{locked, shared_line, shared_join};
ghost use Rattle.neph_model.specs.WellFormed.{FitsPage};
ghost use Rattle.neph_pool.specs.Names.{IsApart, both_names};
ghost use Rattle.neph_pool.specs.World.{World, Moves, Spares, Stays};
ghost use Rattle.neph_memory.specs.Domains.{IsStanding, KeepsPages, KeepsMap, KeepsLeaves};
ghost use Rattle.neph_rows.specs.Records.{shared_of, without_shares};
ghost use Rattle.neph_rows.specs.Row.{lent_of, MayBeAsked};
ghost use Rattle.neph_hv.specs.Hv.{IsHv, exposed_in, shared_in};

use neph_base::{Command, DomId, Reply};
use neph_heap::{Heap, HeapPages};
use neph_memory::DomLocal;
use neph_model::Told;
use neph_pool::FramePool;
use neph_rows::{Lent, Registry, join, line};

/// The hypervisor's state under its lock: its tables, and its frames. The pool is handed in at each
/// call.
#[derive(Drop)]
pub struct Hv<P: FramePool> {
    /// Who is live, and what is kept of each id.
    pub registry: Registry,
    /// The hypervisor's frames.
    pub heap: Heap<P>,
}

impl<P: FramePool> Hv<P> {
    /// Gives a free frame to a domain that has no spare, as its spare. False exactly where no frame
    /// is free: the domain has no spare then. Takes no memory.
    pub fn spare(&mut self, pool: &mut P, d: &mut DomLocal<P>) -> bool
        requires hv { IsHv P.world pool.old self.old }
        requires stands { IsStanding P.world pool.old d.old }
        requires none { d.old.own.spare ≡ None }
        requires apart { IsApart (P.world.names self.old.heap.seat) (P.world.names d.old.seat) }
        ensures hv { IsHv P.world pool.new self.new }
        ensures stands { IsStanding P.world pool.new d.new }
        ensures took { result ≡ is_some d.new.own.spare }
        ensures none { result ≡ false → self.old.heap.stock.free ≡ [] }
        ensures free { self.old.heap.stock.free
            ≡ self.new.heap.stock.free ++ option_to_list d.new.own.spare }
        ensures stock { self.new.heap.stock
            ≡ record self.old.heap.stock { free = self.new.heap.stock.free } }
        ensures registry { self.new.registry ≡ self.old.registry }
        ensures shared { shared_in P.world pool.new self.new ≡ shared_in P.world pool.old self.old }
        ensures own { d.new.own ≡ record d.old.own { spare = d.new.own.spare } }
        ensures pages { KeepsPages P.world pool.old d.old pool.new d.new }
        ensures mappings { KeepsMap P.world pool.old d.old pool.new d.new }
        ensures leaves { KeepsLeaves P.world pool.old d.old pool.new d.new }
        ensures id { d.new.id ≡ d.old.id }
        ensures root { d.new.tables.root ≡ d.old.tables.root }
        ensures hand { d.new.hand ≡ d.old.hand }
        ensures seat { Stays P.world pool.new self.old.heap.seat self.new.heap.seat }
        ensures domain { Stays P.world pool.new d.old.seat d.new.seat }
        ensures others { Spares P.world
            (both_names (P.world.names self.old.heap.seat) (P.world.names d.old.seat))
            pool.old pool.new }
        ensures shares { P.world.shares pool.new ≡ P.world.shares pool.old }
    {
        let Some(f) = self.heap.take(pool) else {
            return false;
        };
        d.put_spare(pool, &mut self.heap.seat, f);
        true
    }

    /// Does a command of a live domain under the lock, but `clone` and `exit`. Takes no memory.
    pub fn call(
        &mut self,
        pool: &mut P,
        dom: DomId,
        lent: Lent,
        told: Told,
        command: &Command,
    ) -> Reply
        requires hv { IsHv P.world pool.old self.old }
        requires command { FitsPage command.now }
        requires asked { MayBeAsked (exposed_in P.world pool.old self.old) dom lent.met
            command.now }
        requires few { lent.leaves ≤ 65535 }
        requires no_clone { command.now ≢ Command.Clone }
        requires no_exit { command.now ≢ Command.Exit }
        requires live { is_live dom self.old.registry.lives ≡ true }
        ensures hv { IsHv P.world pool.new self.new }
        ensures row { shared_line (shared_in P.world pool.old self.old) dom
            (lent_of lent) told command.now
            ≡ locked (shared_in P.world pool.new self.new) result }
        ensures registry { without_shares self.new.registry
            ≡ without_shares self.old.registry }
        ensures stock { self.new.heap.stock ≡ self.old.heap.stock }
        ensures moves { Moves P.world pool.old self.old.heap.seat pool.new self.new.heap.seat }
        ensures shares { P.world.shares pool.new ≡ P.world.shares pool.old }
    {
        let mut pages = HeapPages {
            heap: &mut self.heap,
            pool,
        };
        line(&mut self.registry, &mut pages, dom, lent, told, command)
    }

    /// Does the second stage of the oldest clone that waits for it.
    pub fn finish(&mut self) -> Reply
        ensures row { (pages : List Exposed)
            → shared_join (shared_of self.old.registry pages) self.old.registry.tables.waiting
            ≡ locked (shared_of self.new.registry pages) result }
        ensures heap { self.new.heap ≡ self.old.heap }
    {
        join(&mut self.registry)
    }
}
