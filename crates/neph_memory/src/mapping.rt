// Mapping and unmapping of pages.
ghost use Rattle.std.specs.Prelude.{◌≡◌, is_some, None, ◌+◌, ◌/◌, ◌<◌, ◌≤◌, ◌^◌, ◌==◌, ◌↔◌, ℕ, true, Some, IsSome, IsTrue, IfSome, OnOk, OnErr, length, if◌then◌else◌};
ghost use Rattle.neph_pool.specs.World.{World, SameCounts};
ghost use Rattle.neph_gmap.specs.GuestPages.{IsUnaliased};
ghost use Rattle.neph_memory.specs.Memory.{mode_of, pfn_by};
ghost use Rattle.neph_memory.specs.Mapped.{is_bad_page, IsMapAnswer, leaf_after_map, spare_after_map, with_vpn, without_old_vpn};
ghost use Rattle.neph_memory.specs.Domains.{IsStanding, domain_mapping, domain_walk, domain_leaf, domain_leaf_count, KeepsPages, KeepsMap, KeepsLeaves, KeepsSeats};

use crate::build::lead;
use crate::dom_local::DomLocal;
use crate::fault::MapFault;
use crate::mapped::drop_map;
use neph_base::{FrameNo, Mode, NoMemory, Pfn, TABLE_ENTRIES, Vpn};
use neph_gmap::GuestMap;
use neph_pool::FramePool;
use neph_ptab::Walk;

// The page to which a walk leads.
fn page_by(map: &GuestMap, walk: Walk) -> Option<Pfn>
    requires { IsUnaliased map.now.pages }
    ensures { result ≡ pfn_by map.now.pages walk }
{
    match walk {
        Walk::None => None,
        Walk::Local { frame, .. } => map.page_in(frame),
        Walk::Exposed { pfn, .. } => Some(pfn),
    }
}

// Whether a page can't be mapped so.
fn is_bad_page(map: &GuestMap, p: Pfn, m: Mode) -> bool
    ensures { result ≡ is_bad_page (length map.now.pages) p m }
{
    let past = map.len() <= p.get() as usize;
    match m {
        Mode::Ro => past,
        Mode::Rw => past || p.get() < 4,
    }
}

// Whether a page is wanted writable.
fn is_writable(m: Mode) -> bool
    ensures { mode_of result ≡ m }
{
    match m {
        Mode::Ro => false,
        Mode::Rw => true,
    }
}

// Takes a virtual page from the list of the page that it was mapped to, unless it stays there.
fn drop_old(map: &mut GuestMap, from: Option<Pfn>, p: Pfn, v: Vpn)
    ensures { map.new ≡ without_old_vpn map.old from p v }
{
    if let Some(q) = from {
        if q.get() != p.get() {
            map.drop_vpn(q, v);
        }
    }
}

// Lists a virtual page at the page `p` alone. After `NoMemory` nothing has changed.
fn relist(map: &mut GuestMap, from: Option<Pfn>, p: Pfn, v: Vpn) -> Result<(), NoMemory>
    requires { p < length map.old.pages }
    ensures ok { OnOk result (map.new ≡ without_old_vpn (with_vpn map.old p v) from p v) }
    ensures err { OnErr result (map.new ≡ map.old) }
{
    map.add_vpn(p, v)?;
    drop_old(map, from, p, v);
    Ok(())
}

// Maps a virtual page, whose leaf table is there, to a page, wherever it led before.
fn remap<P: FramePool>(
    pool: &mut P,
    d: &mut DomLocal<P>,
    v: Vpn,
    from: Option<Pfn>,
    p: Pfn,
    rw: bool,
) -> Result<(), NoMemory>
    requires stands { IsStanding P.world pool.old d.old }
    requires from { from ≡ pfn_by d.old.own.map.pages (domain_walk P.world pool.old d.old v) }
    requires page { p < length d.old.own.map.pages }
    requires leaf { IsSome (domain_leaf P.world pool.old d.old (v / TABLE_ENTRIES)) }
    ensures stands { IsStanding P.world pool.new d.new }
    ensures mappings { OnOk result ((u : ℕ) → u < 2 ^ 18 → domain_mapping P.world pool.new d.new u
        ≡ (if u == v then Some (record { pfn = p; mode = mode_of rw })
        else domain_mapping P.world pool.old d.old u)) }
    ensures bytes { KeepsPages P.world pool.old d.old pool.new d.new }
    ensures leaves { KeepsLeaves P.world pool.old d.old pool.new d.new }
    ensures err { OnErr result (d.new.own ≡ d.old.own) }
    ensures entries { OnErr result (P.world.entries pool.new d.new.seat
        ≡ P.world.entries pool.old d.old.seat) }
    ensures root { d.new.tables.root ≡ d.old.tables.root }
    ensures pages { d.new.own.map.pages ≡ d.old.own.map.pages }
    ensures marks { d.new.own.marks ≡ d.old.own.marks }
    ensures spare { d.new.own.spare ≡ d.old.own.spare }
    ensures id { d.new.id ≡ d.old.id }
    ensures hand { d.new.hand ≡ d.old.hand }
    ensures moves { KeepsSeats P.world pool.old d.old pool.new d.new }
    ensures counts { SameCounts P.world pool.old pool.new }
{
    let _number = v.get();
    let to = lead(&d.own, p, rw);
    relist(&mut d.own.map, from, p, v)?;
    d.tables.set(pool, &mut d.seat, v, to);
    Ok(())
}

// Maps a virtual page, whose leaf table is missing, to a page: the spare becomes that table.
fn map_anew<P: FramePool>(
    pool: &mut P,
    d: &mut DomLocal<P>,
    v: Vpn,
    p: Pfn,
    rw: bool,
    f: FrameNo,
) -> Result<(), NoMemory>
    requires stands { IsStanding P.world pool.old d.old }
    requires spare { d.old.own.spare ≡ Some f }
    requires page { p < length d.old.own.map.pages }
    requires needed { domain_leaf P.world pool.old d.old (v / TABLE_ENTRIES) ≡ None }
    requires room { length d.old.own.map.pages + 3 + domain_leaf_count P.world pool.old d.old
        ≤ P.world.cap pool.old }
    ensures stands { IsStanding P.world pool.new d.new }
    ensures mappings { OnOk result ((u : ℕ) → u < 2 ^ 18 → domain_mapping P.world pool.new d.new u
        ≡ (if u == v then Some (record { pfn = p; mode = mode_of rw })
        else domain_mapping P.world pool.old d.old u)) }
    ensures bytes { KeepsPages P.world pool.old d.old pool.new d.new }
    ensures leaves { OnOk result ((i : ℕ) → i < TABLE_ENTRIES → domain_leaf P.world pool.new d.new i
        ≡ (if i == v / TABLE_ENTRIES then Some f else domain_leaf P.world pool.old d.old i)) }
    ensures spent { OnOk result (d.new.own.spare ≡ None) }
    ensures err { OnErr result (d.new.own ≡ d.old.own) }
    ensures entries { OnErr result (P.world.entries pool.new d.new.seat
        ≡ P.world.entries pool.old d.old.seat) }
    ensures root { d.new.tables.root ≡ d.old.tables.root }
    ensures pages { d.new.own.map.pages ≡ d.old.own.map.pages }
    ensures marks { d.new.own.marks ≡ d.old.own.marks }
    ensures id { d.new.id ≡ d.old.id }
    ensures hand { d.new.hand ≡ d.old.hand }
    ensures moves { KeepsSeats P.world pool.old d.old pool.new d.new }
    ensures counts { SameCounts P.world pool.old pool.new }
{
    let _number = v.get();
    let to = lead(&d.own, p, rw);
    d.own.map.add_vpn(p, v)?;
    d.tables.add_leaf(pool, &mut d.seat, v, f);
    d.own.spare = None;
    d.tables.set(pool, &mut d.seat, v, to);
    Ok(())
}

impl<P: FramePool> DomLocal<P> {
    // The page to which a virtual page is mapped.
    fn mapped_page(&mut self, pool: &mut P, v: Vpn) -> Option<Pfn>
        requires stands { IsStanding P.world pool.old self.old }
        ensures page { result
            ≡ pfn_by self.new.own.map.pages (domain_walk P.world pool.new self.new v) }
        ensures range { v < 2 ^ 18 }
        ensures stands { IsStanding P.world pool.new self.new }
        ensures mappings { KeepsMap P.world pool.old self.old pool.new self.new }
        ensures leaves { KeepsLeaves P.world pool.old self.old pool.new self.new }
        ensures bytes { KeepsPages P.world pool.old self.old pool.new self.new }
        ensures entries { P.world.entries pool.new self.new.seat
            ≡ P.world.entries pool.old self.old.seat }
        ensures count { domain_leaf_count P.world pool.new self.new
            ≡ domain_leaf_count P.world pool.old self.old }
        ensures id { self.new.id ≡ self.old.id }
        ensures root { self.new.tables.root ≡ self.old.tables.root }
        ensures own { self.new.own ≡ self.old.own }
        ensures hand { self.new.hand ≡ self.old.hand }
        ensures moves { KeepsSeats P.world pool.old self.old pool.new self.new }
        ensures counts { SameCounts P.world pool.old pool.new }
    {
        let walk = self.tables.walk(pool, &mut self.seat, v);
        page_by(&self.own.map, walk)
    }

    // Whether a leaf table is missing for a virtual page.
    fn lacks_leaf(&mut self, pool: &mut P, v: Vpn) -> bool
        requires stands { IsStanding P.world pool.old self.old }
        ensures lacks { IsTrue result
            ↔ (domain_leaf P.world pool.new self.new (v / TABLE_ENTRIES) ≡ None) }
        ensures range { v < 2 ^ 18 }
        ensures stands { IsStanding P.world pool.new self.new }
        ensures mappings { KeepsMap P.world pool.old self.old pool.new self.new }
        ensures leaves { KeepsLeaves P.world pool.old self.old pool.new self.new }
        ensures bytes { KeepsPages P.world pool.old self.old pool.new self.new }
        ensures entries { P.world.entries pool.new self.new.seat
            ≡ P.world.entries pool.old self.old.seat }
        ensures count { domain_leaf_count P.world pool.new self.new
            ≡ domain_leaf_count P.world pool.old self.old }
        ensures id { self.new.id ≡ self.old.id }
        ensures root { self.new.tables.root ≡ self.old.tables.root }
        ensures own { self.new.own ≡ self.old.own }
        ensures hand { self.new.hand ≡ self.old.hand }
        ensures moves { KeepsSeats P.world pool.old self.old pool.new self.new }
        ensures counts { SameCounts P.world pool.old pool.new }
    {
        self.tables.needs_leaf(pool, &mut self.seat, v)
    }

    /// Maps a virtual page to a page, wherever it led before. A leaf table that is missing is made
    /// in the spare. After a fault nothing has changed.
    pub fn map_page(&mut self, pool: &mut P, v: Vpn, p: Pfn, m: Mode) -> Result<(), MapFault>
        requires stands { IsStanding P.world pool.old self.old }
        requires room { domain_leaf P.world pool.old self.old (v / TABLE_ENTRIES) ≡ None
            → length self.old.own.map.pages + 3 + domain_leaf_count P.world pool.old self.old
            ≤ P.world.cap pool.old }
        ensures stands { IsStanding P.world pool.new self.new }
        ensures answer { IsMapAnswer (is_bad_page (length self.old.own.map.pages) p m)
            (domain_leaf P.world pool.old self.old (v / TABLE_ENTRIES)) self.old.own.spare result }
        ensures mappings { OnOk result ((u : ℕ) → u < 2 ^ 18
            → domain_mapping P.world pool.new self.new u
            ≡ (if u == v then Some (record { pfn = p; mode = m })
            else domain_mapping P.world pool.old self.old u)) }
        ensures leaves { OnOk result ((i : ℕ) → i < TABLE_ENTRIES
            → domain_leaf P.world pool.new self.new i ≡ (if i == v / TABLE_ENTRIES
            then leaf_after_map (domain_leaf P.world pool.old self.old i) self.old.own.spare
            else domain_leaf P.world pool.old self.old i)) }
        ensures spare { OnOk result (self.new.own.spare ≡ spare_after_map
            (domain_leaf P.world pool.old self.old (v / TABLE_ENTRIES)) self.old.own.spare) }
        ensures bytes { KeepsPages P.world pool.old self.old pool.new self.new }
        ensures err { OnErr result (self.new.own ≡ self.old.own) }
        ensures entries { OnErr result (P.world.entries pool.new self.new.seat
            ≡ P.world.entries pool.old self.old.seat) }
        ensures root { self.new.tables.root ≡ self.old.tables.root }
        ensures pages { self.new.own.map.pages ≡ self.old.own.map.pages }
        ensures marks { self.new.own.marks ≡ self.old.own.marks }
        ensures id { self.new.id ≡ self.old.id }
        ensures hand { self.new.hand ≡ self.old.hand }
        ensures moves { KeepsSeats P.world pool.old self.old pool.new self.new }
        ensures counts { SameCounts P.world pool.old pool.new }
    {
        let _number = v.get();
        if is_bad_page(&self.own.map, p, m) {
            return Err(MapFault::BadPfn);
        }
        let rw = is_writable(m);
        if self.lacks_leaf(pool, v) {
            match self.own.spare {
                Some(f) => map_anew(pool, self, v, p, rw, f)?,
                None => return Err(MapFault::NeedSpare),
            }
            return Ok(());
        }
        let from = self.mapped_page(pool, v);
        remap(pool, self, v, from, p, rw)?;
        Ok(())
    }

    /// Lets a virtual page be mapped nowhere. False exactly where it is already.
    pub fn unmap_page(&mut self, pool: &mut P, v: Vpn) -> bool
        requires stands { IsStanding P.world pool.old self.old }
        ensures stands { IsStanding P.world pool.new self.new }
        ensures answer { result ≡ is_some (domain_mapping P.world pool.old self.old v) }
        ensures mappings { (u : ℕ) → u < 2 ^ 18 → domain_mapping P.world pool.new self.new u
            ≡ (if u == v then None else domain_mapping P.world pool.old self.old u) }
        ensures leaves { KeepsLeaves P.world pool.old self.old pool.new self.new }
        ensures bytes { KeepsPages P.world pool.old self.old pool.new self.new }
        ensures root { self.new.tables.root ≡ self.old.tables.root }
        ensures pages { self.new.own.map.pages ≡ self.old.own.map.pages }
        ensures marks { self.new.own.marks ≡ self.old.own.marks }
        ensures spare { self.new.own.spare ≡ self.old.own.spare }
        ensures id { self.new.id ≡ self.old.id }
        ensures hand { self.new.hand ≡ self.old.hand }
        ensures moves { KeepsSeats P.world pool.old self.old pool.new self.new }
        ensures counts { SameCounts P.world pool.old pool.new }
    {
        match self.mapped_page(pool, v) {
            Some(p) => {
                drop_map(pool, self, v, p);
                true
            }
            None => false,
        }
    }
}
