// The hypervisor as guests enter it.
ghost use Rattle.std.specs.Prelude.{◌≡◌, None, IfOk, IfErr};
ghost use Rattle.neph_pool.specs.World.{World};
ghost use Rattle.neph_memory.specs.Domains.{IsStanding, IsUnchanged};
ghost use Rattle.neph_local.specs.Copies.{IsSameFork};
ghost use Rattle.neph_local.specs.Forks.{IsForkInHand, NoPageLeft};
ghost use Rattle.neph_hyper.specs.Guests.{IsCommitted};
ghost use Rattle.neph_hv.specs.Serving.{IsServed, MayCommit};
ghost use Rattle.neph_hv.specs.Calls.{HasTrapped, HasCommitted, HasEnded};

use crate::begin::Begin;
use crate::hv::Hv;
use neph_base::{Command, DomId, GrantRef, NoMemory, Reply};
use neph_hyper::Hyper;
use neph_local::Fork;
use neph_memory::DomLocal;
use neph_pool::FramePool;
use std::alloc::Global;

impl<P: FramePool> Hyper<P> for Hv<P> {
    ghost use Rattle.neph_hv.specs.Calls.{hv_calls};
    ghost use Rattle.neph_hv.specs.Serving.{served_on};

    ghost calls = { hv_calls P.world };

    ghost kept = { served_on P.world };

    fn is_paused(&self, id: DomId) -> bool {
        self.registry.is_paused(id)
    }

    fn trap(
        &mut self,
        pool: &mut P,
        d: &mut DomLocal<P>,
        command: &Command,
        begun: &mut Option<Fork<P>>,
    ) -> Result<Reply, NoMemory> {
        match command {
            Command::Clone => self.try_clone(pool, d, begun),
            _ => Ok(self.ask(pool, d, command)),
        }
    }

    fn ungrant(&mut self, pool: &mut P, d: &mut DomLocal<P>, reference: GrantRef) -> Reply {
        Hv::ungrant(self, pool, d, reference)
    }

    fn spare(&mut self, pool: &mut P, d: &mut DomLocal<P>) -> bool {
        Hv::spare(self, pool, d)
    }

    fn commit(
        &mut self,
        alloc: Global,
        pool: &mut P,
        d: &mut DomLocal<P>,
        k: Fork<P>,
    ) -> Result<(DomLocal<P>, Reply), Fork<P>>
        requires serves { MayCommit P.world pool.old self.old d.old k }
        requires stands { IsStanding P.world pool.old d.old }
        requires fork { IsForkInHand P.world pool.old d.old k }
        requires done { NoPageLeft d.old.own.map.pages k.next }
        ensures stands { IsStanding P.world pool.new d.new }
        ensures same { IsUnchanged P.world pool.old d.old pool.new d.new }
        ensures child { IfOk result
            (λ made. IsCommitted P.world pool.old d.old k pool.new made.0 made.1) }
        ensures back { IfErr result (λ e. IsForkInHand P.world pool.new d.new e) }
        ensures unborn { IfErr result (λ e. IsSameFork P.world k e) }
        ensures committed { HasCommitted P.world pool.old self.old pool.new self.new
            d.old d.new k result }
    {
        Hv::commit(self, alloc, pool, d, k)
    }

    fn end_domain(&mut self, pool: &mut P, d: DomLocal<P>) -> Reply
        requires serves { IsServed P.world pool.old self.old d }
        requires stands { IsStanding P.world pool.old d }
        ensures reply { result ≡ Reply.Ended }
        ensures ended { HasEnded P.world pool.old self.old pool.new self.new d }
    {
        Hv::end_domain(self, pool, d)
    }
}

impl<P: FramePool> Hv<P> {
    // Begins a clone of a domain and puts its fork into `begun`, or refuses it.
    fn try_clone(
        &mut self,
        pool: &mut P,
        d: &mut DomLocal<P>,
        begun: &mut Option<Fork<P>>,
    ) -> Result<Reply, NoMemory>
        requires serves { IsServed P.world pool.old self.old d.old }
        requires stands { IsStanding P.world pool.old d.old }
        requires none { begun.old ≡ None }
        ensures stands { IsStanding P.world pool.new d.new }
        ensures same { IsUnchanged P.world pool.old d.old pool.new d.new }
        ensures trapped { HasTrapped P.world pool.old self.old pool.new self.new d.old d.new
            Command.Clone begun.new result }
    {
        match self.begin(pool, d)? {
            Begin::Refused(why) => Ok(Reply::Refused(why)),
            Begin::Begun(fork) => {
                let child = fork.child;
                *begun = Some(fork);
                Ok(Reply::Begun(child))
            }
        }
    }
}
