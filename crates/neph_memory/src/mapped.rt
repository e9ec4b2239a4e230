// Mapping and unmapping of pages, step by step.
ghost use Rattle.std.specs.Prelude.{◌≡◌, ◌+◌, ◌/◌, ◌<◌, ◌≤◌, ◌^◌, ◌==◌, ℕ, Some, None, IsSome, OnOk, OnErr, length, if◌then◌else◌};
ghost use Rattle.neph_pool.specs.World.{World, SameCounts};
ghost use Rattle.neph_memory.specs.Memory.{mode_of, pfn_by};
ghost use Rattle.neph_memory.specs.Domains.{IsStanding, domain_mapping, domain_walk, domain_leaf, domain_leaf_count, KeepsPages, KeepsMap, KeepsLeaves, KeepsSeats};

use crate::build::put;
use crate::dom_local::DomLocal;
use neph_base::{FrameNo, NoMemory, Pfn, TABLE_ENTRIES, Vpn};
use neph_pool::FramePool;
use neph_ptab::Walk;

/// The spare becomes the leaf table for a virtual page, where one is missing.
pub fn spend_spare<P: FramePool>(pool: &mut P, d: &mut DomLocal<P>, v: Vpn, f: FrameNo)
    requires stands { IsStanding P.world pool.old d.old }
    requires spare { d.old.own.spare ≡ Some f }
    requires needed { domain_leaf P.world pool.old d.old (v / TABLE_ENTRIES) ≡ None }
    requires room { length d.old.own.map.pages + 3 + domain_leaf_count P.world pool.old d.old
        ≤ P.world.cap pool.old }
    ensures stands { IsStanding P.world pool.new d.new }
    ensures own { d.new.own ≡ record d.old.own { spare = None } }
    ensures bytes { KeepsPages P.world pool.old d.old pool.new d.new }
    ensures mappings { KeepsMap P.world pool.old d.old pool.new d.new }
    ensures walk { (u : ℕ) → u < 2 ^ 18
        → domain_walk P.world pool.new d.new u ≡ domain_walk P.world pool.old d.old u }
    ensures leaf { IsSome (domain_leaf P.world pool.new d.new (v / TABLE_ENTRIES)) }
    ensures id { d.new.id ≡ d.old.id }
    ensures hand { d.new.hand ≡ d.old.hand }
    ensures moves { KeepsSeats P.world pool.old d.old pool.new d.new }
    ensures counts { SameCounts P.world pool.old pool.new }
{
    let _number = v.get();
    d.tables.add_leaf(pool, &mut d.seat, v, f);
    d.own.spare = None;
}

/// A virtual page that is mapped to the page `p` is mapped nowhere.
pub fn drop_map<P: FramePool>(pool: &mut P, d: &mut DomLocal<P>, v: Vpn, p: Pfn)
    requires stands { IsStanding P.world pool.old d.old }
    requires mapped { pfn_by d.old.own.map.pages (domain_walk P.world pool.old d.old v) ≡ Some p }
    requires page { p < length d.old.own.map.pages }
    requires leaf { IsSome (domain_leaf P.world pool.old d.old (v / TABLE_ENTRIES)) }
    ensures stands { IsStanding P.world pool.new d.new }
    ensures bytes { KeepsPages P.world pool.old d.old pool.new d.new }
    ensures mappings { (u : ℕ) → u < 2 ^ 18 → domain_mapping P.world pool.new d.new u
        ≡ (if u == v then None else domain_mapping P.world pool.old d.old u) }
    ensures leaves { KeepsLeaves P.world pool.old d.old pool.new d.new }
    ensures root { d.new.tables.root ≡ d.old.tables.root }
    ensures pages { d.new.own.map.pages ≡ d.old.own.map.pages }
    ensures marks { d.new.own.marks ≡ d.old.own.marks }
    ensures spare { d.new.own.spare ≡ d.old.own.spare }
    ensures id { d.new.id ≡ d.old.id }
    ensures hand { d.new.hand ≡ d.old.hand }
    ensures moves { KeepsSeats P.world pool.old d.old pool.new d.new }
    ensures counts { SameCounts P.world pool.old pool.new }
{
    let _number = v.get();
    d.own.map.drop_vpn(p, v);
    d.tables.set(pool, &mut d.seat, v, Walk::None);
}

/// Maps a virtual page that is mapped nowhere, and whose leaf table is there, to a page, writable
/// where `rw` says so.
pub fn map_there<P: FramePool>(
    pool: &mut P,
    d: &mut DomLocal<P>,
    v: Vpn,
    p: Pfn,
    rw: bool,
) -> Result<(), NoMemory>
    requires stands { IsStanding P.world pool.old d.old }
    requires page { p < length d.old.own.map.pages }
    requires none { domain_walk P.world pool.old d.old v ≡ Walk.None }
    requires leaf { IsSome (domain_leaf P.world pool.old d.old (v / TABLE_ENTRIES)) }
    ensures stands { OnOk result (IsStanding P.world pool.new d.new) }
    ensures bytes { OnOk result (KeepsPages P.world pool.old d.old pool.new d.new) }
    ensures mappings { OnOk result ((u : ℕ) → u < 2 ^ 18 → domain_mapping P.world pool.new d.new u
        ≡ (if u == v then Some (record { pfn = p; mode = mode_of rw })
        else domain_mapping P.world pool.old d.old u)) }
    ensures err { OnErr result (d.new.own ≡ d.old.own) }
    ensures entries { OnErr result (P.world.entries pool.new d.new.seat
        ≡ P.world.entries pool.old d.old.seat) }
    ensures pages { d.new.own.map.pages ≡ d.old.own.map.pages }
    ensures spare { d.new.own.spare ≡ d.old.own.spare }
    ensures id { d.new.id ≡ d.old.id }
    ensures hand { d.new.hand ≡ d.old.hand }
    ensures moves { KeepsSeats P.world pool.old d.old pool.new d.new }
    ensures counts { SameCounts P.world pool.old pool.new }
{
    put(pool, d, v, p, rw)?;
    Ok(())
}
