// The calls of a domain on its grants.
ghost use Rattle.std.specs.Prelude.{◌≡◌, true, Some, slice_get};
ghost use Rattle.neph_model.specs.Trap.{is_exposed, without_exposed};
ghost use Rattle.neph_gmap.specs.declared.page.Page.TheVariants.{Exposed};
ghost use Rattle.neph_pool.specs.Names.{IsApart, both_names};
ghost use Rattle.neph_pool.specs.World.{World, Spares};
ghost use Rattle.neph_memory.specs.Domains.{IsStanding};
ghost use Rattle.neph_hv.specs.Hv.{IsHv, exposed_in};
ghost use Rattle.neph_hv.specs.Serving.{IsServed};
ghost use Rattle.neph_hv.specs.Grants.{Regains, HasUngranted};

use crate::hv::Hv;
use neph_base::{GrantRef, Pfn, Reply};
use neph_memory::DomLocal;
use neph_pool::FramePool;
use neph_rows::ungrant;

impl<P: FramePool> Hv<P> {
    /// Takes the entry of a reference away from the grants of a domain. Where no other entry names
    /// its page, the page's frame goes back to the domain, whose own the page is again. Takes no
    /// memory.
    pub fn ungrant(&mut self, pool: &mut P, d: &mut DomLocal<P>, reference: GrantRef) -> Reply
        requires serves { IsServed P.world pool.old self.old d.old }
        requires stands { IsStanding P.world pool.old d.old }
        ensures stands { IsStanding P.world pool.new d.new }
        ensures done { HasUngranted P.world pool.old self.old d.old pool.new self.new d.new
            reference result }
    {
        match ungrant(&mut self.registry, d.id, reference) {
            Ok(None) => Reply::Done,
            Ok(Some(pfn)) => {
                self.give_back(pool, d, pfn);
                Reply::Done
            }
            Err(why) => Reply::Refused(why),
        }
    }

    // Gives the frame of an exposed page back to its domain.
    fn give_back(&mut self, pool: &mut P, d: &mut DomLocal<P>, pfn: Pfn)
        requires hv { IsHv P.world pool.old self.old }
        requires stands { IsStanding P.world pool.old d.old }
        requires apart { IsApart (P.world.names self.old.heap.seat) (P.world.names d.old.seat) }
        requires there { is_exposed (exposed_in P.world pool.old self.old) d.old.id pfn ≡ true }
        requires away { slice_get d.old.own.map.pages pfn ≡ Some Exposed }
        ensures hv { IsHv P.world pool.new self.new }
        ensures stands { IsStanding P.world pool.new d.new }
        ensures shown { exposed_in P.world pool.new self.new
            ≡ without_exposed (exposed_in P.world pool.old self.old) d.old.id pfn }
        ensures page { Regains P.world pool.old self.old d.old pool.new self.new d.new pfn }
        ensures registry { self.new.registry ≡ self.old.registry }
        ensures others { Spares P.world
            (both_names (P.world.names self.old.heap.seat) (P.world.names d.old.seat))
            pool.old pool.new }
        ensures shares { P.world.shares pool.new ≡ P.world.shares pool.old }
    {
        let frame = self.heap.unexpose(pool, d.id, pfn);
        d.take_back(pool, pfn, &mut self.heap.seat, frame);
    }
}
