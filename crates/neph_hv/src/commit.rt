// The commit of a clone, whose fork has no page left.
ghost use Rattle.std.specs.Prelude.{◌≡◌, true, Some, IfOk, IfErr, OnOk, OnErr, slice_get};
ghost use Rattle.neph_model.specs.Machine.{guest_at, is_live};
ghost use Rattle.neph_model.specs.Step.{locked, shared_commit};
ghost use Rattle.neph_pool.specs.Names.{IsApart, both_names};
ghost use Rattle.neph_pool.specs.World.{World, Moves, Spares};
ghost use Rattle.neph_memory.specs.Domains.{IsStanding, IsUnchanged};
ghost use Rattle.neph_local.specs.Copies.{IsChildOf, IsSameFork};
ghost use Rattle.neph_local.specs.Forks.{Forks, IsForkInHand, NoPageLeft};
ghost use Rattle.neph_heap.specs.Heap.{MayBear, IsBorn};
ghost use Rattle.neph_hv.specs.Hv.{IsHv, shared_in};

use crate::hv::Hv;
use neph_base::{DomId, NoMemory, Reply};
use neph_heap::HeapPages;
use neph_local::{Fork, fork_back, fork_end};
use neph_memory::DomLocal;
use neph_pool::FramePool;
use std::alloc::Global;

impl<P: FramePool> Hv<P> {
    /// Commits the first clone that a live domain has begun. Its fork is in hand and has no page
    /// left: it becomes the child, whose exposed pages lie in the frames that were put aside for
    /// them, and whose seat has what the fork's had. An error is want of memory: all is as before,
    /// and the fork is in hand again.
    pub fn commit(
        &mut self,
        alloc: Global,
        pool: &mut P,
        d: &mut DomLocal<P>,
        k: Fork<P>,
    ) -> Result<(DomLocal<P>, Reply), Fork<P>>
        requires hv { IsHv P.world pool.old self.old }
        requires stands { IsStanding P.world pool.old d.old }
        requires fork { IsForkInHand P.world pool.old d.old k }
        requires done { NoPageLeft d.old.own.map.pages k.next }
        requires apart { IsApart (P.world.names self.old.heap.seat) (P.world.names d.old.seat) }
        requires child { IsApart (P.world.names self.old.heap.seat) (P.world.names k.seat) }
        requires live { is_live d.old.id self.old.registry.lives ≡ true }
        requires begun { slice_get (guest_at d.old.id self.old.registry.tables).begun 0
            ≡ Some k.child }
        requires may { MayBear self.old.heap.stock k.child d.old.id }
        ensures hv { IsHv P.world pool.new self.new }
        ensures stands { IsStanding P.world pool.new d.new }
        ensures same { IsUnchanged P.world pool.old d.old pool.new d.new }
        ensures row { IfOk result (λ made. shared_commit (shared_in P.world pool.old self.old)
            d.old.id (guest_at d.old.id self.old.registry.tables).begun
            ≡ locked (shared_in P.world pool.new self.new) made.1) }
        ensures child { IfOk result (λ made. IsStanding P.world pool.new made.0) }
        ensures born { IfOk result (λ made. IsChildOf P.world pool.old d.old pool.new made.0) }
        ensures id { IfOk result (λ made. made.0.id ≡ k.child) }
        ensures still { IfOk result (λ made. Forks P.world pool.new d.new.seat made.0.seat
            made.0.id d.new.own.map.pages k.next k.frames.items) }
        ensures pages { OnOk result
            (IsBorn self.old.heap.stock self.new.heap.stock k.child) }
        ensures back { IfErr result (λ e. IsForkInHand P.world pool.new d.new e) }
        ensures unborn { IfErr result (λ e. IsSameFork P.world k e) }
        ensures registry { OnErr result (self.new.registry ≡ self.old.registry) }
        ensures stock { OnErr result (self.new.heap.stock ≡ self.old.heap.stock) }
        ensures shared { OnErr result
            (shared_in P.world pool.new self.new ≡ shared_in P.world pool.old self.old) }
        ensures names { P.world.names self.new.heap.seat ≡ P.world.names self.old.heap.seat }
        ensures others { Spares P.world (both_names (P.world.names self.old.heap.seat)
            (both_names (P.world.names d.old.seat) (P.world.names k.seat))) pool.old pool.new }
        ensures shares { P.world.shares pool.new ≡ P.world.shares pool.old }
    {
        let next = k.next;
        match Vec::from_slice(alloc, &k.frames) {
            Err(_) => Err(k),
            Ok(frames) => match fork_end(alloc, pool, d, k) {
                Err(back) => Err(back),
                Ok(c) => match self.commit_row(pool, d.id, c.id) {
                    Ok(reply) => Ok((c, reply)),
                    Err(_) => Err(fork_back(pool, d, c, frames, next)),
                },
            },
        }
    }

    // The row of a commit of the first clone that a domain has begun, with this child.
    fn commit_row(&mut self, pool: &mut P, dom: DomId, child: DomId) -> Result<Reply, NoMemory>
        requires hv { IsHv P.world pool.old self.old }
        requires live { is_live dom self.old.registry.lives ≡ true }
        requires begun { slice_get (guest_at dom self.old.registry.tables).begun 0 ≡ Some child }
        requires may { MayBear self.old.heap.stock child dom }
        ensures hv { IsHv P.world pool.new self.new }
        ensures row { IfOk result (λ reply. shared_commit (shared_in P.world pool.old self.old) dom
            (guest_at dom self.old.registry.tables).begun
            ≡ locked (shared_in P.world pool.new self.new) reply) }
        ensures born { OnOk result (IsBorn self.old.heap.stock self.new.heap.stock child) }
        ensures registry { OnErr result (self.new.registry ≡ self.old.registry) }
        ensures stock { OnErr result (self.new.heap.stock ≡ self.old.heap.stock) }
        ensures shared { OnErr result
            (shared_in P.world pool.new self.new ≡ shared_in P.world pool.old self.old) }
        ensures moves { Moves P.world pool.old self.old.heap.seat pool.new self.new.heap.seat }
        ensures shares { P.world.shares pool.new ≡ P.world.shares pool.old }
    {
        let _number = child.get();
        let mut pages = HeapPages {
            heap: &mut self.heap,
            pool,
        };
        let reply = neph_rows::commit(&mut self.registry, &mut pages, dom)?;
        Ok(reply)
    }
}
