// The memory of a domain at its start.
ghost use Rattle.std.specs.Prelude.{◌≡◌, ◌+◌, ◌/◌, ◌<◌, ◌≤◌, ◌⊎◌, ℕ, true, None, IsSome, IfOk, OnOk, length};
ghost use Rattle.neph_model.specs.Start.{started_512s};
ghost use Rattle.neph_pool.specs.Entries.{hold_at, is_here, IsSoleAt};
ghost use Rattle.neph_pool.specs.Handing.{AreDistinct};
ghost use Rattle.neph_pool.specs.Names.{only_name};
ghost use Rattle.neph_pool.specs.World.{World, Moves, SameCounts};
ghost use Rattle.neph_memory.specs.Domains.{IsStanding, domain_leaf, KeepsLeaves, KeepsHolds, KeepsSeats};
ghost use Rattle.neph_memory.specs.Building.{IsAmong, IsBuilding, IsMadeOf, RestOf};
ghost use Rattle.neph_local.specs.Starts.{HasStarted, IsStarted};

use crate::identity::write_identity;
use neph_base::{DomId, FrameNo, MAX_PAGES, NoMemory, Pfn, TABLE_ENTRIES, Vpn};
use neph_memory::{DomLocal, Own, Room, add_leaf, place, put};
use neph_pool::FramePool;
use neph_ptab::Tables;
use std::alloc::Global;

// The memory of a domain with so many pages, all exposed and mapped nowhere. The last frame is the
// root, and the others wait.
fn rooted<P: FramePool>(
    alloc: Global,
    pool: &mut P,
    seat: P::Seat,
    id: DomId,
    frames: &mut Vec<FrameNo>,
    pages: u16,
) -> Result<DomLocal<P>, NoMemory>
    requires fits { P.world.fits pool.old seat }
    requires names { P.world.names seat ≡ only_name id }
    requires some { 0 < length frames.old.items }
    requires once { AreDistinct frames.old.items }
    requires sole { (f : ℕ) → IsAmong frames.old.items f
        → IsSoleAt (P.world.entries pool.old seat) f }
    requires only { (f : ℕ) → is_here (hold_at (P.world.entries pool.old seat) f) ≡ true
        → IsAmong frames.old.items f }
    requires few { pages ≤ MAX_PAGES }
    ensures builds { IfOk result (λ d. IsBuilding P.world pool.new d frames.new.items) }
    ensures left { OnOk result (length frames.new.items + 1 ≡ length frames.old.items) }
    ensures starts { IfOk result (λ d. HasStarted P.world pool.new d 0 0) }
    ensures count { IfOk result (λ d. length d.own.map.pages ≡ pages) }
    ensures leaves { IfOk result (λ d. (i : ℕ) → i < TABLE_ENTRIES
        → domain_leaf P.world pool.new d i ≡ None) }
    ensures id { IfOk result (λ d. d.id ≡ id) }
    ensures hand { IfOk result (λ d. d.hand ≡ None) }
    ensures spare { IfOk result (λ d. d.own.spare ≡ None) }
    ensures moves { IfOk result (λ d. Moves P.world pool.old seat pool.new d.seat) }
    ensures counts { SameCounts P.world pool.old pool.new }
{
    let mut seat = seat;
    let own = Own::new(alloc, pages)?;
    let room = Room::new(alloc)?;
    let root = frames.pop().unwrap();
    let tables = Tables::new(pool, &mut seat, root);
    Ok(DomLocal {
        id,
        seat,
        tables,
        own,
        hand: None,
        room,
    })
}

// Leaf tables for so many started 512s of virtual pages.
fn add_leaves<P: FramePool>(
    pool: &mut P,
    d: &mut DomLocal<P>,
    count: u16,
    frames: &mut Vec<FrameNo>,
)
    requires builds { IsBuilding P.world pool.old d.old frames.old.items }
    requires starts { HasStarted P.world pool.old d.old 0 0 }
    requires none { (i : ℕ) → i < TABLE_ENTRIES → domain_leaf P.world pool.old d.old i ≡ None }
    requires some { count ≤ length frames.old.items }
    requires few { count ≤ 2 }
    ensures builds { IsBuilding P.world pool.new d.new frames.new.items }
    ensures starts { HasStarted P.world pool.new d.new 0 0 }
    ensures left { length frames.new.items + count ≡ length frames.old.items }
    ensures leaves { (i : ℕ) → i < count → IsSome (domain_leaf P.world pool.new d.new i) }
    ensures none { (i : ℕ) → count ≤ i → i < TABLE_ENTRIES
        → domain_leaf P.world pool.new d.new i ≡ None }
    ensures own { d.new.own ≡ d.old.own }
    ensures id { d.new.id ≡ d.old.id }
    ensures hand { d.new.hand ≡ d.old.hand }
    ensures moves { KeepsSeats P.world pool.old d.old pool.new d.new }
    ensures counts { SameCounts P.world pool.old pool.new }
{
    for i in 0..count {
        let v = Vpn::new(512 * u32::from(i)).unwrap();
        let _number = v.get();
        add_leaf(pool, d, v, frames);
    }
}

// A page of a start that is the domain's own: it gets a frame, and its own virtual page maps to it.
fn start_page<P: FramePool>(
    pool: &mut P,
    d: &mut DomLocal<P>,
    n: u16,
    frames: &mut Vec<FrameNo>,
) -> Result<(), NoMemory>
    requires builds { IsBuilding P.world pool.old d.old frames.old.items }
    requires starts { HasStarted P.world pool.old d.old n n }
    requires some { 0 < length frames.old.items }
    requires page { n < length d.old.own.map.pages }
    requires own { (n ≡ 0) ⊎ (4 ≤ n) }
    requires leaf { IsSome (domain_leaf P.world pool.old d.old (n / TABLE_ENTRIES)) }
    ensures builds { OnOk result (IsBuilding P.world pool.new d.new frames.new.items) }
    ensures starts { OnOk result (HasStarted P.world pool.new d.new (n + 1) (n + 1)) }
    ensures left { OnOk result (length frames.new.items + 1 ≡ length frames.old.items) }
    ensures leaves { KeepsLeaves P.world pool.old d.old pool.new d.new }
    ensures count { length d.new.own.map.pages ≡ length d.old.own.map.pages }
    ensures spare { d.new.own.spare ≡ d.old.own.spare }
    ensures id { d.new.id ≡ d.old.id }
    ensures hand { d.new.hand ≡ d.old.hand }
    ensures moves { KeepsSeats P.world pool.old d.old pool.new d.new }
    ensures counts { SameCounts P.world pool.old pool.new }
{
    let p = Pfn::new(u32::from(n)).unwrap();
    let v = Vpn::new(u32::from(n)).unwrap();
    place(pool, d, p, frames);
    put(pool, d, v, p, n > 3)?;
    Ok(())
}

// A device page of a start, which stays exposed: its own virtual page maps to it.
fn start_away<P: FramePool>(pool: &mut P, d: &mut DomLocal<P>, n: u16) -> Result<(), NoMemory>
    requires fits { P.world.fits pool.old d.old.seat }
    requires names { P.world.names d.old.seat ≡ only_name d.old.id }
    requires made { IsMadeOf P.world pool.old d.old (RestOf P.world pool.old d.old) }
    requires starts { HasStarted P.world pool.old d.old n n }
    requires page { n < length d.old.own.map.pages }
    requires away { (0 < n) × (n < 4) }
    requires leaf { IsSome (domain_leaf P.world pool.old d.old (n / TABLE_ENTRIES)) }
    ensures made { OnOk result
        (IsMadeOf P.world pool.new d.new (RestOf P.world pool.old d.old)) }
    ensures holds { KeepsHolds P.world pool.old d.old pool.new d.new }
    ensures starts { OnOk result (HasStarted P.world pool.new d.new (n + 1) (n + 1)) }
    ensures leaves { KeepsLeaves P.world pool.old d.old pool.new d.new }
    ensures count { length d.new.own.map.pages ≡ length d.old.own.map.pages }
    ensures spare { d.new.own.spare ≡ d.old.own.spare }
    ensures id { d.new.id ≡ d.old.id }
    ensures hand { d.new.hand ≡ d.old.hand }
    ensures moves { KeepsSeats P.world pool.old d.old pool.new d.new }
    ensures counts { SameCounts P.world pool.old pool.new }
{
    let p = Pfn::new(u32::from(n)).unwrap();
    let v = Vpn::new(u32::from(n)).unwrap();
    put(pool, d, v, p, false)?;
    Ok(())
}

// The device pages of a start.
fn start_devices<P: FramePool>(
    pool: &mut P,
    d: &mut DomLocal<P>,
    frames: &mut Vec<FrameNo>,
) -> Result<(), NoMemory>
    requires builds { IsBuilding P.world pool.old d.old frames.old.items }
    requires starts { HasStarted P.world pool.old d.old 1 1 }
    requires pages { 4 ≤ length d.old.own.map.pages }
    requires leaf { IsSome (domain_leaf P.world pool.old d.old 0) }
    ensures builds { OnOk result (IsBuilding P.world pool.new d.new frames.new.items) }
    ensures starts { OnOk result (HasStarted P.world pool.new d.new 4 4) }
    ensures left { frames.new.items ≡ frames.old.items }
    ensures leaves { KeepsLeaves P.world pool.old d.old pool.new d.new }
    ensures count { length d.new.own.map.pages ≡ length d.old.own.map.pages }
    ensures spare { d.new.own.spare ≡ d.old.own.spare }
    ensures id { d.new.id ≡ d.old.id }
    ensures hand { d.new.hand ≡ d.old.hand }
    ensures moves { KeepsSeats P.world pool.old d.old pool.new d.new }
    ensures counts { SameCounts P.world pool.old pool.new }
{
    for n in 1..4 {
        start_away(pool, d, n)?;
    }
    Ok(())
}

// The other pages of a start.
fn start_others<P: FramePool>(
    pool: &mut P,
    d: &mut DomLocal<P>,
    pages: u16,
    frames: &mut Vec<FrameNo>,
) -> Result<(), NoMemory>
    requires builds { IsBuilding P.world pool.old d.old frames.old.items }
    requires starts { HasStarted P.world pool.old d.old 4 4 }
    requires many { 4 ≤ pages }
    requires few { pages ≤ MAX_PAGES }
    requires pages { length d.old.own.map.pages ≡ pages }
    requires some { length frames.old.items + 4 ≡ pages }
    requires leaves { (i : ℕ) → i < started_512s pages
        → IsSome (domain_leaf P.world pool.old d.old i) }
    ensures builds { OnOk result (IsBuilding P.world pool.new d.new frames.new.items) }
    ensures starts { OnOk result (HasStarted P.world pool.new d.new pages pages) }
    ensures left { OnOk result (length frames.new.items ≡ 0) }
    ensures leaves { KeepsLeaves P.world pool.old d.old pool.new d.new }
    ensures count { length d.new.own.map.pages ≡ length d.old.own.map.pages }
    ensures spare { d.new.own.spare ≡ d.old.own.spare }
    ensures id { d.new.id ≡ d.old.id }
    ensures hand { d.new.hand ≡ d.old.hand }
    ensures moves { KeepsSeats P.world pool.old d.old pool.new d.new }
    ensures counts { SameCounts P.world pool.old pool.new }
{
    for n in 4..pages {
        start_page(pool, d, n, frames)?;
    }
    Ok(())
}

// The memory of a domain at its start, but for the numbers of its identity page.
fn start_blank<P: FramePool>(
    alloc: Global,
    pool: &mut P,
    seat: P::Seat,
    id: DomId,
    frames: Vec<FrameNo>,
    pages: u16,
) -> Result<DomLocal<P>, NoMemory>
    requires fits { P.world.fits pool.old seat }
    requires names { P.world.names seat ≡ only_name id }
    requires once { AreDistinct frames.items }
    requires sole { (f : ℕ) → IsAmong frames.items f → IsSoleAt (P.world.entries pool.old seat) f }
    requires only { (f : ℕ) → is_here (hold_at (P.world.entries pool.old seat) f) ≡ true
        → IsAmong frames.items f }
    requires many { 8 ≤ pages }
    requires few { pages ≤ MAX_PAGES }
    requires count { length frames.items + 2 ≡ pages + started_512s pages }
    requires room { pages + 2 + started_512s pages ≤ P.world.cap pool.old }
    ensures stands { IfOk result (λ d. IsStanding P.world pool.new d) }
    ensures starts { IfOk result (λ d. HasStarted P.world pool.new d pages pages) }
    ensures leaves { IfOk result (λ d. (i : ℕ) → i < started_512s pages
        → IsSome (domain_leaf P.world pool.new d i)) }
    ensures none { IfOk result (λ d. (i : ℕ) → started_512s pages ≤ i → i < TABLE_ENTRIES
        → domain_leaf P.world pool.new d i ≡ None) }
    ensures count { IfOk result (λ d. length d.own.map.pages ≡ pages) }
    ensures spare { IfOk result (λ d. d.own.spare ≡ None) }
    ensures id { IfOk result (λ d. d.id ≡ id) }
    ensures hand { IfOk result (λ d. d.hand ≡ None) }
    ensures moves { IfOk result (λ d. Moves P.world pool.old seat pool.new d.seat) }
    ensures counts { SameCounts P.world pool.old pool.new }
{
    let mut frames = frames;
    let mut d = rooted(alloc, pool, seat, id, &mut frames, pages)?;
    add_leaves(pool, &mut d, (pages + 511) / 512, &mut frames);
    start_page(pool, &mut d, 0, &mut frames)?;
    start_devices(pool, &mut d, &mut frames)?;
    start_others(pool, &mut d, pages, &mut frames)?;
    Ok(d)
}

/// The memory of a domain at its start: pages of zeros but for the numbers of the identity page, of
/// which pages 1 to 3 are exposed. Virtual page i maps to page i, pages 0 to 3 read-only. The seat
/// has these frames to itself, each listed once, and nothing else: one for each page that is not
/// exposed, one for the root and one for each leaf table. Takes memory.
pub fn start<P: FramePool>(
    alloc: Global,
    pool: &mut P,
    seat: P::Seat,
    id: DomId,
    frames: Vec<FrameNo>,
    pages: u16,
) -> Result<DomLocal<P>, NoMemory>
    requires fits { P.world.fits pool.old seat }
    requires names { P.world.names seat ≡ only_name id }
    requires once { AreDistinct frames.items }
    requires sole { (f : ℕ) → IsAmong frames.items f → IsSoleAt (P.world.entries pool.old seat) f }
    requires only { (f : ℕ) → is_here (hold_at (P.world.entries pool.old seat) f) ≡ true
        → IsAmong frames.items f }
    requires many { 8 ≤ pages }
    requires few { pages ≤ MAX_PAGES }
    requires count { length frames.items + 2 ≡ pages + started_512s pages }
    requires room { pages + 2 + started_512s pages ≤ P.world.cap pool.old }
    ensures stands { IfOk result (λ d. IsStanding P.world pool.new d) }
    ensures started { IfOk result (λ d. IsStarted P.world pool.new d id pages) }
    ensures leaves { IfOk result (λ d. (i : ℕ) → i < started_512s pages
        → IsSome (domain_leaf P.world pool.new d i)) }
    ensures none { IfOk result (λ d. (i : ℕ) → started_512s pages ≤ i → i < TABLE_ENTRIES
        → domain_leaf P.world pool.new d i ≡ None) }
    ensures id { IfOk result (λ d. d.id ≡ id) }
    ensures moves { IfOk result (λ d. Moves P.world pool.old seat pool.new d.seat) }
    ensures counts { SameCounts P.world pool.old pool.new }
{
    let mut d = start_blank(alloc, pool, seat, id, frames, pages)?;
    let nobody = DomId::new(0).unwrap();
    write_identity(pool, &mut d, nobody, pages);
    Ok(d)
}
