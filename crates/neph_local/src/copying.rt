// A child's tables: those of its parent.
ghost use Rattle.std.specs.Prelude.{◌≡◌, ◌≢◌, ◌+◌, ◌<◌, ◌≤◌, ◌^◌, ℕ, List, true, None, IsSome, OnOk, is_some, length};
ghost use Rattle.std.specs.declared.option.Option.{Option};
ghost use Rattle.neph_pool.specs.declared.entry.Entry.{Entry};
ghost use Rattle.neph_pool.specs.Entries.{IsSoleAt};
ghost use Rattle.neph_pool.specs.Names.{IsApart, both_names};
ghost use Rattle.neph_pool.specs.World.{World, IsSeat, Stays, Spares, SameCounts};
ghost use Rattle.neph_ptab.specs.Tables.{leaf_at, IsTable, IsTables};
ghost use Rattle.neph_memory.specs.Pages.{frame_at};
ghost use Rattle.neph_memory.specs.Memory.{is_marked, leaf_count};
ghost use Rattle.neph_memory.specs.Domains.{IsStanding, domain_mapping, domain_leaf, domain_leaf_count, KeepsPages};
ghost use Rattle.neph_memory.specs.Building.{IsBuilding, IsAmong};
ghost use Rattle.neph_local.specs.Copies.{IsChildStep, AreCopied};
ghost use Rattle.neph_local.specs.Forks.{leaf_count_of};

use crate::sprout::Child;
use neph_base::{FrameNo, NoMemory, Pfn, TABLE_ENTRIES};
use neph_memory::{DomLocal, frame_for};
use neph_pool::FramePool;
use neph_ptab::Tables;

// The leaf table of the place i, if the parent has it, in the last frame that waits.
fn copy_table<P: FramePool>(
    pool: &mut P,
    from: &mut P::Seat,
    source: &Tables<P>,
    seat: &mut P::Seat,
    tables: &mut Tables<P>,
    frames: &mut Vec<FrameNo>,
    i: u16,
)
    requires from { IsSeat P.world pool.old from.old }
    requires seat { IsSeat P.world pool.old seat.old }
    requires apart { IsApart (P.world.names from.old) (P.world.names seat.old) }
    requires source { IsTables (P.world.entries pool.old from.old) source.now.root }
    requires stands { IsTables (P.world.entries pool.old seat.old) tables.old.root }
    requires place { i < TABLE_ENTRIES }
    requires none { leaf_at (P.world.entries pool.old seat.old) tables.old.root i ≡ None }
    requires sole { (g : ℕ) → IsAmong frames.old.items g
        → IsSoleAt (P.world.entries pool.old seat.old) g }
    requires free { (g : ℕ) → IsAmong frames.old.items g
        → IsTable (P.world.entries pool.old seat.old) tables.old.root g → ⊥ }
    requires room { leaf_count_of (leaf_at (P.world.entries pool.old from.old) source.now.root i)
        ≤ length frames.old.items }
    ensures root { tables.new.root ≡ tables.old.root }
    ensures kept { P.world.entries pool.new from.new ≡ P.world.entries pool.old from.old }
    ensures copied { (cs : List (Option Entry)) (waits : List ℕ)
        → AreCopied (P.world.entries pool.old from.old) source.now.root cs
        (P.world.entries pool.old seat.old) tables.old.root waits frames.old.items i
        → AreCopied (P.world.entries pool.old from.old) source.now.root cs
        (P.world.entries pool.new seat.new) tables.old.root waits frames.new.items (i + 1) }
    ensures left { length frames.new.items
        + leaf_count_of (leaf_at (P.world.entries pool.old from.old) source.now.root i)
        ≡ length frames.old.items }
    ensures from { Stays P.world pool.new from.old from.new }
    ensures seat { Stays P.world pool.new seat.old seat.new }
    ensures others { Spares P.world (both_names (P.world.names from.old)
        (P.world.names seat.old)) pool.old pool.new }
    ensures counts { SameCounts P.world pool.old pool.new }
{
    let leaf = source.nth_leaf(pool, from, i);
    if leaf.is_none() {
        return;
    }
    let frame = frames.pop().unwrap();
    tables.copy_leaf(pool, seat, source, from, i, frame);
}

// All leaf tables, each in a frame that waits.
fn copy_leaves<P: FramePool>(
    pool: &mut P,
    from: &mut P::Seat,
    source: &Tables<P>,
    seat: &mut P::Seat,
    tables: &mut Tables<P>,
    frames: &mut Vec<FrameNo>,
)
    requires from { IsSeat P.world pool.old from.old }
    requires seat { IsSeat P.world pool.old seat.old }
    requires apart { IsApart (P.world.names from.old) (P.world.names seat.old) }
    requires source { IsTables (P.world.entries pool.old from.old) source.now.root }
    requires sole { (g : ℕ) → IsAmong frames.old.items g
        → IsSoleAt (P.world.entries pool.old seat.old) g }
    requires none { AreCopied (P.world.entries pool.old from.old) source.now.root
        (P.world.entries pool.old seat.old) (P.world.entries pool.old seat.old) tables.old.root
        frames.old.items frames.old.items 0 }
    requires enough { length frames.old.items
        ≡ leaf_count (P.world.entries pool.old from.old) source.now.root }
    ensures root { tables.new.root ≡ tables.old.root }
    ensures kept { P.world.entries pool.new from.new ≡ P.world.entries pool.old from.old }
    ensures copied { AreCopied (P.world.entries pool.old from.old) source.now.root
        (P.world.entries pool.old seat.old) (P.world.entries pool.new seat.new) tables.old.root
        frames.old.items frames.new.items TABLE_ENTRIES }
    ensures left { length frames.new.items ≡ 0 }
    ensures from { Stays P.world pool.new from.old from.new }
    ensures seat { Stays P.world pool.new seat.old seat.new }
    ensures others { Spares P.world (both_names (P.world.names from.old)
        (P.world.names seat.old)) pool.old pool.new }
    ensures counts { SameCounts P.world pool.old pool.new }
{
    for i in 0..512u16 {
        copy_table(pool, from, source, seat, tables, frames, i);
    }
}

/// The child gets the leaf tables of its parent, each in a frame that waits, and maps each virtual
/// page as its parent does. All frames are taken then.
///
/// A table is copied whole, since the child has its parent's frame for each local page but the
/// identity page. The virtual pages of that one are then moved to the child's own frame.
pub fn copy_tables<P: FramePool>(
    pool: &mut P,
    d: &mut DomLocal<P>,
    c: &mut Child<P>,
) -> Result<(), NoMemory>
    requires stands { IsStanding P.world pool.old d.old }
    requires builds { IsBuilding P.world pool.old c.old.memory c.old.frames.items }
    requires apart { d.old.id ≢ c.old.memory.id }
    requires count { length c.old.memory.own.map.pages ≡ length d.old.own.map.pages }
    requires frames { (x : ℕ) → 1 ≤ x → frame_at c.old.memory.own.map.pages x
        ≡ frame_at d.old.own.map.pages x }
    requires first { IsSome (frame_at c.old.memory.own.map.pages 0) }
    requires alone { is_marked c.old.memory.own 0 ≡ true }
    requires none { (i : ℕ) → i < TABLE_ENTRIES
        → domain_leaf P.world pool.old c.old.memory i ≡ None }
    requires enough { length c.old.frames.items ≡ domain_leaf_count P.world pool.old d.old }
    ensures stands { IsStanding P.world pool.new d.new }
    ensures step { IsChildStep P.world pool.old d.old c.old.memory pool.new d.new c.new.memory }
    ensures builds { OnOk result (IsBuilding P.world pool.new c.new.memory c.new.frames.items) }
    ensures maps { OnOk result ((u : ℕ) → u < 2 ^ 18
        → domain_mapping P.world pool.new c.new.memory u
        ≡ domain_mapping P.world pool.old d.old u) }
    ensures bytes { OnOk result
        (KeepsPages P.world pool.old c.old.memory pool.new c.new.memory) }
    ensures leaves { OnOk result ((i : ℕ) → i < TABLE_ENTRIES
        → is_some (domain_leaf P.world pool.new c.new.memory i)
        ≡ is_some (domain_leaf P.world pool.old d.old i)) }
    ensures left { OnOk result (length c.new.frames.items ≡ 0) }
    ensures pages { c.new.memory.own.map.pages ≡ c.old.memory.own.map.pages }
    ensures marks { c.new.memory.own.marks ≡ c.old.memory.own.marks }
    ensures spare { c.new.memory.own.spare ≡ c.old.memory.own.spare }
{
    let memory = &mut c.memory;
    memory.own.map.copy_vpns(&d.own.map)?;
    copy_leaves(
        pool,
        &mut d.seat,
        &d.tables,
        &mut memory.seat,
        &mut memory.tables,
        &mut c.frames,
    );
    let first = Pfn::new(0).unwrap();
    let frame = frame_for(&memory.own.map, first).unwrap();
    memory.tables.move_page(
        pool,
        &mut memory.seat,
        memory.own.map.vpns(first),
        frame,
        true,
    );
    Ok(())
}
