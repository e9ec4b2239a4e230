// What a domain's memory tells.
ghost use Rattle.std.specs.Prelude.{◌≡◌, ◌≢◌, ◌+◌, ◌<◌, ◌^◌, ◌↔◌, ℕ, true, false, IsSome, IsTrue, is_some, length, option_map};
ghost use Rattle.neph_pool.specs.World.{World, SameCounts};
ghost use Rattle.neph_gmap.specs.GuestPages.{IsUnaliased};
ghost use Rattle.neph_memory.specs.Pages.{frame_at};
ghost use Rattle.neph_memory.specs.Memory.{is_marked, mapping, mode_of, pfn_by, wanted_by};
ghost use Rattle.neph_memory.specs.Domains.{IsStanding, domain_mapping, KeepsPages, KeepsMap, KeepsLeaves, KeepsSeats, IsUnchanged, IfTold, IsSharedPage};

use crate::dom_local::DomLocal;
use crate::own::frame_for;
use neph_base::{FrameNo, Mode, Pfn, Vpn};
use neph_gmap::GuestMap;
use neph_model::Mapping;
use neph_pool::FramePool;
use neph_ptab::Walk;

// What a walk of these pages' tables means.
fn mapping_in(map: &GuestMap, walk: Walk) -> Option<Mapping>
    requires { IsUnaliased map.now.pages }
    ensures { result ≡ mapping (pfn_by map.now.pages walk) (wanted_by walk) }
{
    match walk {
        Walk::None => None,
        Walk::Local { frame, rw, shared } => match map.page_in(frame) {
            Some(pfn) => Some(Mapping {
                pfn,
                mode: mode_for(rw || shared),
            }),
            None => None,
        },
        Walk::Exposed { pfn, rw } => Some(Mapping {
            pfn,
            mode: mode_for(rw),
        }),
    }
}

// The mode of a page that is mapped writable, or of one that isn't.
fn mode_for(rw: bool) -> Mode
    ensures { result ≡ mode_of rw }
{
    if rw { Mode::Rw } else { Mode::Ro }
}

impl<P: FramePool> DomLocal<P> {
    /// What a virtual page maps to, `None` exactly where it maps to nothing. Nothing changes.
    pub fn meets(&mut self, pool: &mut P, v: Vpn) -> Option<Mapping>
        requires stands { IsStanding P.world pool.old self.old }
        ensures mapping { result ≡ domain_mapping P.world pool.old self.old v }
        ensures range { v < 2 ^ 18 }
        ensures stands { IsStanding P.world pool.new self.new }
        ensures same { IsUnchanged P.world pool.old self.old pool.new self.new }
        ensures moves { KeepsSeats P.world pool.old self.old pool.new self.new }
        ensures counts { SameCounts P.world pool.old pool.new }
    {
        let walk = self.tables.walk(pool, &mut self.seat, v);
        mapping_in(&self.own.map, walk)
    }

    /// Whether a local page is marked as the domain's alone, after a look at the count of its frame
    /// where it wasn't. Nothing changes but its mark, which a look that found one reference sets.
    pub fn look_page(&mut self, pool: &mut P, p: Pfn) -> bool
        requires stands { IsStanding P.world pool.old self.old }
        requires local { IsSome (frame_at self.old.own.map.pages p) }
        ensures stands { IsStanding P.world pool.new self.new }
        ensures mark { result ≡ is_marked self.new.own p }
        ensures marked { is_marked self.old.own p ≡ true → result ≡ true }
        ensures met { is_marked self.old.own p ≡ false
            → IsTrue result ↔ (P.world.met self.new.seat ≡ 1) }
        ensures told { is_marked self.old.own p ≡ false
            → IfTold P.world pool.old self.old p (λ n. IsTrue result ↔ (n ≡ 1)) }
        ensures shared { result ≡ false → IsSharedPage P.world pool.old self.old p }
        ensures same { result ≡ false
            → IsUnchanged P.world pool.old self.old pool.new self.new }
        ensures bytes { KeepsPages P.world pool.old self.old pool.new self.new }
        ensures mappings { KeepsMap P.world pool.old self.old pool.new self.new }
        ensures leaves { KeepsLeaves P.world pool.old self.old pool.new self.new }
        ensures map { self.new.own.map ≡ self.old.own.map }
        ensures spare { self.new.own.spare ≡ self.old.own.spare }
        ensures id { self.new.id ≡ self.old.id }
        ensures root { self.new.tables.root ≡ self.old.tables.root }
        ensures hand { self.new.hand ≡ self.old.hand }
        ensures moves { KeepsSeats P.world pool.old self.old pool.new self.new }
        ensures counts { SameCounts P.world pool.old pool.new }
    {
        if self.own.marks[p.get() as usize] {
            return true;
        }
        let frame = frame_for(&self.own.map, p).unwrap();
        if !pool.look(&mut self.seat, frame) {
            return false;
        }
        self.own.marks[p.get() as usize] = true;
        true
    }

    /// Whether a spare is held.
    pub fn has_spare(&self) -> bool
        ensures { result ≡ is_some self.now.own.spare }
    {
        self.own.spare.is_some()
    }

    /// The page of the write in hand, `None` exactly where there is none.
    pub fn in_hand(&self) -> Option<Pfn>
        ensures { result ≡ option_map (λ h. h.pfn) self.now.hand }
    {
        match self.hand {
            Some(hand) => Some(hand.pfn),
            None => None,
        }
    }

    /// The frame of a local page, `None` exactly for any other.
    pub fn frame(&self, p: Pfn) -> Option<FrameNo>
        ensures { result ≡ frame_at self.now.own.map.pages p }
    {
        frame_for(&self.own.map, p)
    }

    /// How many pages there are.
    pub fn pages(&self) -> u16
        ensures { result ≡ length self.now.own.map.pages }
    {
        self.own.map.len() as u16
    }
}
