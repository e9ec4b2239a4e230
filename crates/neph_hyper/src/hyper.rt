// Any hypervisor.
ghost use Rattle.std.specs.Prelude.{◌≡◌, None, IfOk, IfErr, OnErr};
ghost use Rattle.neph_model.specs.WellFormed.{FitsPage};
ghost use Rattle.neph_pool.specs.World.{World};
ghost use Rattle.neph_memory.specs.declared.dom_local.DomLocal.{DomLocal};
ghost use Rattle.neph_memory.specs.Domains.{IsStanding, IsUnchanged};
ghost use Rattle.neph_local.specs.Copies.{IsSameFork};
ghost use Rattle.neph_local.specs.Forks.{IsForkInHand, NoPageLeft};
ghost use Rattle.neph_hyper.specs.Calls.{Calls};
ghost use Rattle.neph_hyper.specs.Guests.{GoesOn, MayTrap, IsAnswered, IsUngranted, IsCommitted, TakesSpare};

use neph_base::{Command, DomId, GrantRef, NoMemory, Reply};
use neph_local::Fork;
use neph_memory::DomLocal;
use neph_pool::FramePool;
use std::alloc::Global;

/// A hypervisor that guests enter, each with its own memory in the pool.
///
/// What a call needs of the hypervisor is one condition, that it serves the domain. It keeps that
/// while the domain goes on by itself.
pub trait Hyper<P: FramePool> {
    /// How contracts read its calls.
    ghost calls: { Calls P P.Seat Self };

    /// Whether the domain of an id is paused.
    fn is_paused(&self, id: DomId) -> bool
        ensures { calls.Pauses self.now id result };

    /// Does a command of a domain that it can't do by itself, or begins its clone and puts the
    /// fork into `begun`. Its `exit` and its `ungrant` aren't among them. After `NoMemory`, which only a `clone`
    /// gives, nothing has changed for it.
    fn trap(
        &mut self,
        pool: &mut P,
        d: &mut DomLocal<P>,
        command: &Command,
        begun: &mut Option<Fork<P>>,
    ) -> Result<Reply, NoMemory>
        requires serves { calls.Serves pool.old self.old d.old }
        requires stands { IsStanding P.world pool.old d.old }
        requires fits { FitsPage command.now }
        requires asks { MayTrap P.world pool.old d.old command.now }
        requires none { begun.old ≡ None }
        ensures stands { IsStanding P.world pool.new d.new }
        ensures same { IsUnchanged P.world pool.old d.old pool.new d.new }
        ensures answer { IfOk result
            (λ r. IsAnswered P.world pool.old d.old pool.new d.new command.now begun.new r) }
        ensures lacks { OnErr result (command.now ≡ Command.Clone) }
        ensures unbegun { OnErr result (begun.new ≡ None) }
        ensures trapped { calls.Trapped pool.old self.old d.old command.now
            pool.new self.new d.new begun.new result };

    /// Takes the entry of a reference away from the grants of a domain. A page that no other entry
    /// names is the domain's own again. Takes no memory.
    fn ungrant(&mut self, pool: &mut P, d: &mut DomLocal<P>, reference: GrantRef) -> Reply
        requires serves { calls.Serves pool.old self.old d.old }
        requires stands { IsStanding P.world pool.old d.old }
        ensures stands { IsStanding P.world pool.new d.new }
        ensures answer { IsUngranted P.world pool.old d.old pool.new d.new reference result }
        ensures ungranted { calls.Ungranted pool.old self.old d.old reference
            pool.new self.new d.new result };

    /// Gives a free frame to a domain that has no spare, as its spare. False where no frame is
    /// free: the domain has no spare then. Takes no memory.
    fn spare(&mut self, pool: &mut P, d: &mut DomLocal<P>) -> bool
        requires serves { calls.Serves pool.old self.old d.old }
        requires stands { IsStanding P.world pool.old d.old }
        requires none { d.old.own.spare ≡ None }
        ensures stands { IsStanding P.world pool.new d.new }
        ensures spare { TakesSpare P.world pool.old d.old pool.new d.new result }
        ensures spared { calls.Spared pool.old self.old d.old pool.new self.new d.new result };

    /// Commits the clone that a domain has begun, of whose fork no page is left: gives the child's
    /// memory. An error is want of memory: all is as before, and the fork is in hand again.
    fn commit(
        &mut self,
        alloc: Global,
        pool: &mut P,
        d: &mut DomLocal<P>,
        k: Fork<P>,
    ) -> Result<(DomLocal<P>, Reply), Fork<P>>
        requires serves { calls.MayCommit pool.old self.old d.old k }
        requires stands { IsStanding P.world pool.old d.old }
        requires fork { IsForkInHand P.world pool.old d.old k }
        requires done { NoPageLeft d.old.own.map.pages k.next }
        ensures stands { IsStanding P.world pool.new d.new }
        ensures same { IsUnchanged P.world pool.old d.old pool.new d.new }
        ensures child { IfOk result
            (λ made. IsCommitted P.world pool.old d.old k pool.new made.0 made.1) }
        ensures back { IfErr result (λ e. IsForkInHand P.world pool.new d.new e) }
        ensures unborn { IfErr result (λ e. IsSameFork P.world k e) }
        ensures committed { calls.Committed pool.old self.old d.old k
            pool.new self.new d.new result };

    /// Ends a domain. Takes no memory.
    fn end_domain(&mut self, pool: &mut P, d: DomLocal<P>) -> Reply
        requires serves { calls.Serves pool.old self.old d }
        requires stands { IsStanding P.world pool.old d }
        ensures reply { result ≡ Reply.Ended }
        ensures ended { calls.Ended pool.old self.old d pool.new self.new };

    // It serves a domain still that has gone on by itself.
    ghost kept: { (h : Self) (p : P) (d : DomLocal P P.Seat) (q : P) (e : DomLocal P P.Seat)
        → calls.Serves p h d → GoesOn P.world p d q e → calls.Serves q h e };
}
