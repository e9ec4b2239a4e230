// A page goes over to another seat, and comes back.
ghost use Rattle.std.specs.Prelude.{◌≡◌, ◌≢◌, ◌<◌, ◌^◌, ℕ, true, false, None, Some, IfOk, IsSome, OnOk, OnErr, slice_get, ◌==◌, if◌then◌else◌};
ghost use Rattle.neph_pool.specs.Bytes.{bytes_at};
ghost use Rattle.neph_pool.specs.Entries.{without, IsSoleAt};
ghost use Rattle.neph_pool.specs.Names.{IsApart, both_names};
ghost use Rattle.neph_pool.specs.World.{World, IsSeat, Moves, Stays, Spares, SameCounts};
ghost use Rattle.neph_ptab.specs.Tables.{walk_at, IsTables, IsRetabled};
ghost use Rattle.neph_gmap.specs.GuestPages.{has_number};
ghost use Rattle.neph_memory.specs.Pages.{frame_at};
ghost use Rattle.neph_memory.specs.Memory.{is_marked, wanted_by};
ghost use Rattle.neph_memory.specs.Domains.{IsStanding, domain_page};
ghost use Rattle.neph_memory.specs.Exposed.{turned, walk_turned, PutsPage, GetsPage, ComesBack};

use crate::build::lead_there;
use crate::dom_local::DomLocal;
use crate::own::frame_for;
use neph_base::{FrameNo, Pfn, Vpn};
use neph_gmap::Page;
use neph_pool::FramePool;
use neph_ptab::{Tables, Walk};

/// A page isn't marked as in no other domain.
#[derive(Clone, Copy, Debug, PartialEq, Eq)]
pub struct NotSole;

// Whether a walk leads to a page that is wanted writable.
fn is_wanted(walk: Walk) -> bool
    ensures { result ≡ wanted_by walk }
{
    match walk {
        Walk::None => false,
        Walk::Local { rw, shared, .. } => rw || shared,
        Walk::Exposed { rw, .. } => rw,
    }
}

// One virtual page leads to its page's new place.
fn turn_one<P: FramePool>(
    pool: &mut P,
    seat: &mut P::Seat,
    tables: &mut Tables<P>,
    v: Vpn,
    p: Pfn,
    place: &Page,
)
    requires seat { IsSeat P.world pool.old seat.old }
    requires stands { IsTables (P.world.entries pool.old seat.old) tables.old.root }
    requires mapped { walk_at (P.world.entries pool.old seat.old) tables.old.root v ≢ Walk.None }
    ensures root { tables.new.root ≡ tables.old.root }
    ensures walks { (u : ℕ) → u < 2 ^ 18
        → walk_at (P.world.entries pool.new seat.new) tables.old.root u
        ≡ (if u == v
        then turned place.now p (walk_at (P.world.entries pool.old seat.old) tables.old.root u)
        else walk_at (P.world.entries pool.old seat.old) tables.old.root u) }
    ensures tables { IsRetabled (P.world.entries pool.old seat.old)
        (P.world.entries pool.new seat.new) tables.old.root }
    ensures met { P.world.met seat.new ≡ P.world.met seat.old }
    ensures moves { Moves P.world pool.old seat.old pool.new seat.new }
    ensures counts { SameCounts P.world pool.old pool.new }
{
    let walk = tables.walk(pool, seat, v);
    let to = lead_there(*place, true, p, is_wanted(walk));
    tables.set(pool, seat, v, to);
}

// Each of these virtual pages, which map to one page, leads to that page's new place.
fn turn_all<P: FramePool>(
    pool: &mut P,
    seat: &mut P::Seat,
    tables: &mut Tables<P>,
    vpns: &[Vpn],
    p: Pfn,
    place: &Page,
)
    requires seat { IsSeat P.world pool.old seat.old }
    requires stands { IsTables (P.world.entries pool.old seat.old) tables.old.root }
    requires mapped { (u : ℕ) → u < 2 ^ 18 → has_number u vpns.now ≡ true
        → walk_at (P.world.entries pool.old seat.old) tables.old.root u ≢ Walk.None }
    ensures root { tables.new.root ≡ tables.old.root }
    ensures walks { (u : ℕ) → u < 2 ^ 18
        → walk_at (P.world.entries pool.new seat.new) tables.old.root u
        ≡ walk_turned place.now p vpns.now u
        (walk_at (P.world.entries pool.old seat.old) tables.old.root u) }
    ensures tables { IsRetabled (P.world.entries pool.old seat.old)
        (P.world.entries pool.new seat.new) tables.old.root }
    ensures met { P.world.met seat.new ≡ P.world.met seat.old }
    ensures moves { Moves P.world pool.old seat.old pool.new seat.new }
    ensures counts { SameCounts P.world pool.old pool.new }
{
    for v in vpns {
        let _number = v.get();
        turn_one(pool, seat, tables, *v, p, place);
    }
}

impl<P: FramePool> DomLocal<P> {
    /// Gives the frame of a local page, but not of the identity page, to another seat, where no
    /// other domain can have the page. The page is exposed then, and that seat must have the name
    /// 0. `NotSole` exactly where the page isn't marked; nothing changes then.
    pub fn give_out(&mut self, pool: &mut P, p: Pfn, to: &mut P::Seat) -> Result<FrameNo, NotSole>
        requires stands { IsStanding P.world pool.old self.old }
        requires local { IsSome (frame_at self.old.own.map.pages p) }
        requires other { p ≢ 0 }
        requires idle { self.old.hand ≡ None }
        requires to { P.world.fits pool.old to.old × (P.world.names to.old 0 ≡ true) }
        requires apart { IsApart (P.world.names self.old.seat) (P.world.names to.old) }
        ensures stands { IsStanding P.world pool.new self.new }
        ensures given { IfOk result
            (λ f. GetsPage P.world pool.old self.old to.old pool.new to.new p f) }
        ensures page { OnOk result
            (PutsPage P.world pool.old self.old pool.new self.new p Page.Exposed false) }
        ensures away { OnOk result (domain_page P.world pool.new self.new p ≡ None) }
        ensures ok { OnOk result (is_marked self.old.own p ≡ true) }
        ensures err { OnErr result (is_marked self.old.own p ≡ false) }
        ensures same { OnErr result
            ((self.new ≡ self.old) × (pool.new ≡ pool.old) × (to.new ≡ to.old)) }
        ensures spare { self.new.own.spare ≡ self.old.own.spare }
        ensures id { self.new.id ≡ self.old.id }
        ensures root { self.new.tables.root ≡ self.old.tables.root }
        ensures hand { self.new.hand ≡ self.old.hand }
        ensures met { (P.world.met self.new.seat ≡ P.world.met self.old.seat)
            × (P.world.met to.new ≡ P.world.met to.old) }
        ensures to { Stays P.world pool.new to.old to.new }
        ensures seat { Stays P.world pool.new self.old.seat self.new.seat }
        ensures others { Spares P.world
            (both_names (P.world.names self.old.seat) (P.world.names to.old)) pool.old pool.new }
        ensures counts { SameCounts P.world pool.old pool.new }
    {
        if !self.own.marks[p.get() as usize] {
            return Err(NotSole);
        }
        Ok(self.expose(pool, p, to))
    }

    // Gives the frame of a marked page to another seat.
    fn expose(&mut self, pool: &mut P, p: Pfn, to: &mut P::Seat) -> FrameNo
        requires stands { IsStanding P.world pool.old self.old }
        requires local { IsSome (frame_at self.old.own.map.pages p) }
        requires marked { is_marked self.old.own p ≡ true }
        requires other { p ≢ 0 }
        requires to { P.world.fits pool.old to.old × (P.world.names to.old 0 ≡ true) }
        requires apart { IsApart (P.world.names self.old.seat) (P.world.names to.old) }
        ensures stands { IsStanding P.world pool.new self.new }
        ensures given { GetsPage P.world pool.old self.old to.old pool.new to.new p result }
        ensures page { PutsPage P.world pool.old self.old pool.new self.new p Page.Exposed false }
        ensures away { domain_page P.world pool.new self.new p ≡ None }
        ensures spare { self.new.own.spare ≡ self.old.own.spare }
        ensures id { self.new.id ≡ self.old.id }
        ensures root { self.new.tables.root ≡ self.old.tables.root }
        ensures hand { self.new.hand ≡ self.old.hand }
        ensures met { (P.world.met self.new.seat ≡ P.world.met self.old.seat)
            × (P.world.met to.new ≡ P.world.met to.old) }
        ensures to { Stays P.world pool.new to.old to.new }
        ensures seat { Stays P.world pool.new self.old.seat self.new.seat }
        ensures others { Spares P.world
            (both_names (P.world.names self.old.seat) (P.world.names to.old)) pool.old pool.new }
        ensures counts { SameCounts P.world pool.old pool.new }
    {
        let frame = frame_for(&self.own.map, p).unwrap();
        pool.hand(&mut self.seat, to, &[frame]);
        let vpns = self.own.map.vpns(p);
        turn_all(
            pool,
            &mut self.seat,
            &mut self.tables,
            vpns,
            p,
            &Page::Exposed,
        );
        self.own.map.set(p, Page::Exposed);
        self.own.marks[p.get() as usize] = false;
        frame
    }

    /// Takes the frame of an exposed page back from a seat that has it to itself. The page is local
    /// then, and marked.
    pub fn take_back(&mut self, pool: &mut P, p: Pfn, from: &mut P::Seat, f: FrameNo)
        requires stands { IsStanding P.world pool.old self.old }
        requires away { slice_get self.old.own.map.pages p ≡ Some Page.Exposed }
        requires from { IsSeat P.world pool.old from.old }
        requires apart { IsApart (P.world.names from.old) (P.world.names self.old.seat) }
        requires frame { IsSoleAt (P.world.entries pool.old from.old) f }
        ensures stands { IsStanding P.world pool.new self.new }
        ensures page { PutsPage P.world pool.old self.old pool.new self.new p (Page.Local f) true }
        ensures bytes { domain_page P.world pool.new self.new p
            ≡ Some (bytes_at (P.world.entries pool.old from.old) f) }
        ensures left { P.world.entries pool.new from.new
            ≡ without (P.world.entries pool.old from.old) f }
        ensures spare { self.new.own.spare ≡ self.old.own.spare }
        ensures id { self.new.id ≡ self.old.id }
        ensures root { self.new.tables.root ≡ self.old.tables.root }
        ensures hand { self.new.hand ≡ self.old.hand }
        ensures met { (P.world.met self.new.seat ≡ P.world.met self.old.seat)
            × (P.world.met from.new ≡ P.world.met from.old) }
        ensures from { Stays P.world pool.new from.old from.new }
        ensures seat { Stays P.world pool.new self.old.seat self.new.seat }
        ensures others { Spares P.world
            (both_names (P.world.names from.old) (P.world.names self.old.seat)) pool.old pool.new }
        ensures counts { SameCounts P.world pool.old pool.new }
    {
        let _number = self.id.get();
        pool.hand(from, &mut self.seat, &[f]);
        let vpns = self.own.map.vpns(p);
        turn_all(
            pool,
            &mut self.seat,
            &mut self.tables,
            vpns,
            p,
            &Page::Local(f),
        );
        self.own.map.set(p, Page::Local(f));
        self.own.marks[p.get() as usize] = true;
    }
}

/// A page that is given out and taken back at once is as it was.
pub fn comes_back<P: FramePool>()
    ensures { ComesBack P.world }
{}
