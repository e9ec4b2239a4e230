// The begin of a clone.
ghost use Rattle.std.specs.Prelude.{◌≡◌, ◌≤◌, ◌<◌, ◌+◌, ℕ, [], true, None, IfOk, IfNone, OnErr, length};
ghost use Rattle.neph_model.specs.Machine.{exposed_at};
ghost use Rattle.neph_model.specs.Trap.{need};
ghost use Rattle.neph_model.specs.declared.told.Told.TheVariants.{Free};
ghost use Rattle.neph_pool.specs.Names.{IsApart, both_names};
ghost use Rattle.neph_pool.specs.World.{World, Spares};
ghost use Rattle.neph_memory.specs.Domains.{IsStanding, IsUnchanged, domain_leaf_count};
ghost use Rattle.neph_heap.specs.Lists.{aside_of};
ghost use Rattle.neph_rows.specs.Row.{refusal_of};
ghost use Rattle.neph_rows.specs.Sound.{MayBegin};
ghost use Rattle.neph_hv.specs.Hv.{IsHv, exposed_in, shared_in};
ghost use Rattle.neph_hv.specs.Begins.{IsBegun, IsAnswered};

use crate::hv::Hv;
use neph_base::{DomId, NoMemory, Refusal};
use neph_local::{Fork, fork_begin, leaf_count};
use neph_memory::{DomLocal, MAX_HELD};
use neph_model::Told;
use neph_pool::FramePool;
use neph_rows::{begin, clone_refusal, next_child};

/// What the begin of a clone comes to.
#[derive(Drop)]
pub enum Begin<P: FramePool> {
    /// The clone is refused.
    Refused(Refusal),
    /// It has begun, and its fork is in hand.
    Begun(Fork<P>),
}

impl<P: FramePool> Hv<P> {
    /// Begins a clone of a domain, or refuses it. The frames that its child's tables and identity
    /// page need go to the child's seat, and those for its exposed pages are put aside. Want of
    /// memory leaves all as before.
    pub fn begin(&mut self, pool: &mut P, d: &mut DomLocal<P>) -> Result<Begin<P>, NoMemory>
        requires hv { IsHv P.world pool.old self.old }
        requires stands { IsStanding P.world pool.old d.old }
        requires apart { IsApart (P.world.names self.old.heap.seat) (P.world.names d.old.seat) }
        requires cap { MAX_HELD ≤ P.world.cap pool.old }
        requires name { self.old.registry.tables.next < 64
            → P.world.names self.old.heap.seat self.old.registry.tables.next ≡ true }
        requires none { aside_of self.old.registry.tables.next self.old.heap.stock ≡ [] }
        ensures hv { IsHv P.world pool.new self.new }
        ensures stands { IsStanding P.world pool.new d.new }
        ensures same { IsUnchanged P.world pool.old d.old pool.new d.new }
        ensures answer { IfOk result
            (λ b. IsAnswered P.world pool.old self.old d.old pool.new self.new d.new b) }
        ensures err { OnErr result (self.new.heap.stock ≡ self.old.heap.stock) }
        ensures registry { OnErr result (self.new.registry ≡ self.old.registry) }
        ensures names { OnErr result
            (P.world.names self.new.heap.seat ≡ P.world.names self.old.heap.seat) }
        ensures shared { OnErr result
            (shared_in P.world pool.new self.new ≡ shared_in P.world pool.old self.old) }
        ensures others { Spares P.world
            (both_names (P.world.names self.old.heap.seat) (P.world.names d.old.seat))
            pool.old pool.new }
        ensures shares { P.world.shares pool.new ≡ P.world.shares pool.old }
    {
        let leaves = leaf_count(pool, d);
        match self.clone_refusal(pool, d.id, leaves) {
            Some(why) => Ok(Begin::Refused(why)),
            None => {
                let fork = self.begin_fork(pool, d, leaves)?;
                Ok(Begin::Begun(fork))
            }
        }
    }

    // Why a clone of a domain with so many leaf tables is refused, if it is.
    fn clone_refusal(&self, _pool: &P, dom: DomId, leaves: u16) -> Option<Refusal>
        requires hv { IsHv P.world _pool.now self.now }
        requires few { leaves ≤ 512 }
        ensures why { result ≡ refusal_of self.now.registry dom
            (need (exposed_at dom (exposed_in P.world _pool.now self.now)) leaves)
            (Free (length self.now.heap.stock.free)) }
        ensures open { IfNone result (MayBegin self.now.registry dom) }
    {
        let need = 2 + u32::from(leaves) + self.heap.count(dom);
        let free = self.heap.free_len() as u32;
        clone_refusal(&self.registry, dom, need, Told::Free(free))
    }

    // Begins a clone that isn't refused.
    fn begin_fork(
        &mut self,
        pool: &mut P,
        d: &DomLocal<P>,
        leaves: u16,
    ) -> Result<Fork<P>, NoMemory>
        requires hv { IsHv P.world pool.old self.old }
        requires stands { IsStanding P.world pool.old d.now }
        requires apart { IsApart (P.world.names self.old.heap.seat) (P.world.names d.now.seat) }
        requires leaves { leaves ≡ domain_leaf_count P.world pool.old d.now }
        requires few { leaves ≤ 512 }
        requires cap { MAX_HELD ≤ P.world.cap pool.old }
        requires name { P.world.names self.old.heap.seat self.old.registry.tables.next ≡ true }
        requires none { aside_of self.old.registry.tables.next self.old.heap.stock ≡ [] }
        requires may { MayBegin self.old.registry d.now.id }
        requires open { refusal_of self.old.registry d.now.id
            (need (exposed_at d.now.id (exposed_in P.world pool.old self.old)) leaves)
            (Free (length self.old.heap.stock.free)) ≡ None }
        ensures hv { IsHv P.world pool.new self.new }
        ensures stands { IsStanding P.world pool.new d.now }
        ensures same { IsUnchanged P.world pool.old d.now pool.new d.now }
        ensures begun { IfOk result
            (λ k. IsBegun P.world pool.old self.old d.now pool.new self.new d.now k) }
        ensures err { OnErr result (self.new.heap.stock ≡ self.old.heap.stock) }
        ensures registry { OnErr result (self.new.registry ≡ self.old.registry) }
        ensures names { OnErr result
            (P.world.names self.new.heap.seat ≡ P.world.names self.old.heap.seat) }
        ensures shared { OnErr result
            (shared_in P.world pool.new self.new ≡ shared_in P.world pool.old self.old) }
        ensures others { Spares P.world (P.world.names self.old.heap.seat) pool.old pool.new }
        ensures shares { P.world.shares pool.new ≡ P.world.shares pool.old }
    {
        let child = next_child(&self.registry, d.id);
        let kept = self.heap.count(d.id) as u16;
        let made = self.heap.put_aside(pool, child, leaves + 2, kept)?;
        begin(&mut self.registry, d.id);
        let (seat, frames) = made;
        Ok(fork_begin(pool, d, child, seat, frames))
    }
}
