// Steps by which a memory is built.
ghost use Rattle.std.specs.Prelude.{true, ◌≡◌, ◌≢◌, ◌+◌, ◌/◌, ◌<◌, ◌^◌, ◌==◌, [], ℕ, Some, None, IsSome, OnOk, OnErr, length, if◌then◌else◌, slice_get};
ghost use Rattle.neph_pool.specs.Names.{only_name};
ghost use Rattle.neph_pool.specs.World.{World, SameCounts};
ghost use Rattle.neph_gmap.specs.GuestPages.{vpns_at};
ghost use Rattle.neph_model.specs.Memory.{zero_page};
ghost use Rattle.neph_memory.specs.Pages.{frame_at};
ghost use Rattle.neph_memory.specs.Memory.{is_marked, mode_of};
ghost use Rattle.neph_memory.specs.Domains.{domain_page, domain_mapping, domain_walk, domain_leaf, KeepsPages, KeepsOtherPages, KeepsMap, KeepsLeaves, KeepsHolds, KeepsSeats};
ghost use Rattle.neph_memory.specs.Building.{IsBuilding, IsMadeOf, RestOf, lead_to};
ghost use Rattle.neph_memory.specs.Shared.{KeepsShared};

use crate::dom_local::DomLocal;
use crate::own::Own;
use neph_base::{FrameNo, NoMemory, Pfn, TABLE_ENTRIES, Vpn};
use neph_gmap::Page;
use neph_pool::FramePool;
use neph_ptab::{Walk, wipe};

/// The last frame that waits becomes a page of zeros, where the page was exposed and is mapped
/// nowhere.
pub fn place<P: FramePool>(pool: &mut P, d: &mut DomLocal<P>, p: Pfn, frames: &mut Vec<FrameNo>)
    requires builds { IsBuilding P.world pool.old d.old frames.old.items }
    requires some { 0 < length frames.old.items }
    requires away { slice_get d.old.own.map.pages p ≡ Some Page.Exposed }
    requires unlisted { vpns_at d.old.own.map p ≡ [] }
    ensures builds { IsBuilding P.world pool.new d.new frames.new.items }
    ensures left { length frames.new.items + 1 ≡ length frames.old.items }
    ensures zero { domain_page P.world pool.new d.new p ≡ Some zero_page }
    ensures bytes { KeepsOtherPages P.world pool.old d.old pool.new d.new p }
    ensures mappings { KeepsMap P.world pool.old d.old pool.new d.new }
    ensures leaves { (i : ℕ)
        → domain_leaf P.world pool.new d.new i ≡ domain_leaf P.world pool.old d.old i }
    ensures page { IsSome (frame_at d.new.own.map.pages p) }
    ensures mark { is_marked d.new.own p ≡ true }
    ensures marks { (q : ℕ) → q ≢ p → is_marked d.new.own q ≡ is_marked d.old.own q }
    ensures others { (q : ℕ) → q ≢ p
        → slice_get d.new.own.map.pages q ≡ slice_get d.old.own.map.pages q }
    ensures vpns { d.new.own.map.vpns ≡ d.old.own.map.vpns }
    ensures count { length d.new.own.map.pages ≡ length d.old.own.map.pages }
    ensures spare { d.new.own.spare ≡ d.old.own.spare }
    ensures id { d.new.id ≡ d.old.id }
    ensures hand { d.new.hand ≡ d.old.hand }
    ensures shared { KeepsShared P.world pool.old d.old pool.new d.new }
    ensures moves { KeepsSeats P.world pool.old d.old pool.new d.new }
    ensures counts { SameCounts P.world pool.old pool.new }
{
    let f = frames.pop().unwrap();
    wipe(pool, &mut d.seat, f);
    d.own.map.set(p, Page::Local(f));
    d.own.marks[p.get() as usize] = true;
}

/// The last frame that waits becomes the leaf table for a virtual page, where one is missing.
pub fn add_leaf<P: FramePool>(pool: &mut P, d: &mut DomLocal<P>, v: Vpn, frames: &mut Vec<FrameNo>)
    requires builds { IsBuilding P.world pool.old d.old frames.old.items }
    requires some { 0 < length frames.old.items }
    requires needed { domain_leaf P.world pool.old d.old (v / TABLE_ENTRIES) ≡ None }
    ensures builds { IsBuilding P.world pool.new d.new frames.new.items }
    ensures left { length frames.new.items + 1 ≡ length frames.old.items }
    ensures own { d.new.own ≡ d.old.own }
    ensures bytes { KeepsPages P.world pool.old d.old pool.new d.new }
    ensures mappings { KeepsMap P.world pool.old d.old pool.new d.new }
    ensures walks { (u : ℕ) → u < 2 ^ 18
        → domain_walk P.world pool.new d.new u ≡ domain_walk P.world pool.old d.old u }
    ensures leaf { IsSome (domain_leaf P.world pool.new d.new (v / TABLE_ENTRIES)) }
    ensures leaves { (i : ℕ) → i < TABLE_ENTRIES → i ≢ v / TABLE_ENTRIES
        → domain_leaf P.world pool.new d.new i ≡ domain_leaf P.world pool.old d.old i }
    ensures id { d.new.id ≡ d.old.id }
    ensures hand { d.new.hand ≡ d.old.hand }
    ensures shared { KeepsShared P.world pool.old d.old pool.new d.new }
    ensures moves { KeepsSeats P.world pool.old d.old pool.new d.new }
    ensures counts { SameCounts P.world pool.old pool.new }
{
    let _number = v.get();
    let f = frames.pop().unwrap();
    d.tables.add_leaf(pool, &mut d.seat, v, f);
}

/// Where a virtual page leads that is mapped to this page.
pub fn lead(own: &Own, p: Pfn, rw: bool) -> Walk
    requires page { p < length own.now.map.pages }
    requires marks { length own.now.marks.items ≡ length own.now.map.pages }
    ensures { result ≡ lead_to (slice_get own.now.map.pages p) (is_marked own.now p) p rw }
{
    let marked = own.marks[p.get() as usize];
    match own.map.page(p) {
        Some(page) => lead_there(page, marked, p, rw),
        None => Walk::None,
    }
}

/// The same where the page lies there.
pub fn lead_there(page: Page, marked: bool, p: Pfn, rw: bool) -> Walk
    ensures { result ≡ lead_to (Some page) marked p rw }
{
    match page {
        Page::Local(frame) => {
            if marked {
                Walk::Local {
                    frame,
                    rw,
                    shared: false,
                }
            } else {
                Walk::Local {
                    frame,
                    rw: false,
                    shared: rw,
                }
            }
        }
        Page::Exposed => Walk::Exposed { pfn: p, rw },
    }
}

/// Maps a virtual page that is mapped nowhere, and whose leaf table is there, to a page, writable
/// where `rw` says so. After `NoMemory` nothing has changed.
pub fn put<P: FramePool>(
    pool: &mut P,
    d: &mut DomLocal<P>,
    v: Vpn,
    p: Pfn,
    rw: bool,
) -> Result<(), NoMemory>
    requires fits { P.world.fits pool.old d.old.seat }
    requires names { P.world.names d.old.seat ≡ only_name d.old.id }
    requires made { IsMadeOf P.world pool.old d.old (RestOf P.world pool.old d.old) }
    requires page { p < length d.old.own.map.pages }
    requires none { domain_walk P.world pool.old d.old v ≡ Walk.None }
    requires leaf { IsSome (domain_leaf P.world pool.old d.old (v / TABLE_ENTRIES)) }
    ensures made { OnOk result
        (IsMadeOf P.world pool.new d.new (RestOf P.world pool.old d.old)) }
    ensures holds { KeepsHolds P.world pool.old d.old pool.new d.new }
    ensures mappings { OnOk result ((u : ℕ) → u < 2 ^ 18 → domain_mapping P.world pool.new d.new u
        ≡ (if u == v then Some (record { pfn = p; mode = mode_of rw })
        else domain_mapping P.world pool.old d.old u)) }
    ensures walks { OnOk result ((u : ℕ) → u < 2 ^ 18 → u ≢ v
        → domain_walk P.world pool.new d.new u ≡ domain_walk P.world pool.old d.old u) }
    ensures bytes { OnOk result (KeepsPages P.world pool.old d.old pool.new d.new) }
    ensures leaves { KeepsLeaves P.world pool.old d.old pool.new d.new }
    ensures lists { OnOk result ((q : ℕ) → q ≢ p
        → vpns_at d.new.own.map q ≡ vpns_at d.old.own.map q) }
    ensures err { OnErr result (d.new.own ≡ d.old.own) }
    ensures entries { OnErr result (P.world.entries pool.new d.new.seat
        ≡ P.world.entries pool.old d.old.seat) }
    ensures root { d.new.tables.root ≡ d.old.tables.root }
    ensures pages { d.new.own.map.pages ≡ d.old.own.map.pages }
    ensures marks { d.new.own.marks ≡ d.old.own.marks }
    ensures spare { d.new.own.spare ≡ d.old.own.spare }
    ensures id { d.new.id ≡ d.old.id }
    ensures hand { d.new.hand ≡ d.old.hand }
    ensures shared { KeepsShared P.world pool.old d.old pool.new d.new }
    ensures moves { KeepsSeats P.world pool.old d.old pool.new d.new }
    ensures counts { SameCounts P.world pool.old pool.new }
{
    let _number = v.get();
    let to = lead(&d.own, p, rw);
    d.own.map.add_vpn(p, v)?;
    d.tables.set(pool, &mut d.seat, v, to);
    Ok(())
}
