// The identity page.
ghost use Rattle.std.specs.Prelude.{◌≡◌, ◌≢◌, ℕ, true, IsSome, option_map, length};
ghost use Rattle.std.specs.Int.{w32, to_le_bytes};
ghost use Rattle.neph_model.specs.Memory.{page_with_identity};
ghost use Rattle.neph_pool.specs.World.{World, SameCounts};
ghost use Rattle.neph_memory.specs.Pages.{frame_at};
ghost use Rattle.neph_memory.specs.Memory.{is_marked};
ghost use Rattle.neph_memory.specs.Domains.{IsStanding, domain_page, KeepsOtherPages, KeepsMap, KeepsLeaves, KeepsSeats};
ghost use Rattle.neph_memory.specs.Shared.{KeepsShared};
ghost use Rattle.neph_local.specs.Copies.{IsChildStep};

use byteorder::{ByteOrder, LittleEndian};
use neph_base::{DomId, Pfn, Piece};
use neph_memory::{DomLocal, frame_for};
use neph_pool::FramePool;

/// A local page of a child, which is marked, gets the bytes of its parent's.
pub fn copy_bytes<P: FramePool>(pool: &mut P, d: &mut DomLocal<P>, c: &mut DomLocal<P>, p: Pfn)
    requires stands { IsStanding P.world pool.old d.old }
    requires child { IsStanding P.world pool.old c.old }
    requires apart { d.old.id ≢ c.old.id }
    requires source { IsSome (frame_at d.old.own.map.pages p) }
    requires target { IsSome (frame_at c.old.own.map.pages p) }
    requires marked { is_marked c.old.own p ≡ true }
    ensures stands { IsStanding P.world pool.new d.new }
    ensures child { IsStanding P.world pool.new c.new }
    ensures step { IsChildStep P.world pool.old d.old c.old pool.new d.new c.new }
    ensures page { domain_page P.world pool.new c.new p ≡ domain_page P.world pool.old d.old p }
    ensures bytes { KeepsOtherPages P.world pool.old c.old pool.new c.new p }
    ensures mappings { KeepsMap P.world pool.old c.old pool.new c.new }
    ensures leaves { KeepsLeaves P.world pool.old c.old pool.new c.new }
    ensures own { c.new.own ≡ c.old.own }
{
    let f = frame_for(&d.own.map, p).unwrap();
    let t = frame_for(&c.own.map, p).unwrap();
    pool.copy_across(&mut d.seat, &mut c.seat, f, t);
}

// A number as four bytes, the lowest first.
fn number_piece(n: u32) -> Piece
    ensures { result ≡ to_le_bytes w32 n }
{
    let mut bytes = [0u8; 4];
    LittleEndian::write_u32(&mut bytes, n);
    Piece::new(&bytes).unwrap()
}

/// Puts the numbers of the identity page into page 0, which is marked: the domain's id, its
/// parent's, and the number of its pages.
pub fn write_identity<P: FramePool>(pool: &mut P, d: &mut DomLocal<P>, parent: DomId, pages: u16)
    requires stands { IsStanding P.world pool.old d.old }
    requires marked { is_marked d.old.own 0 ≡ true }
    ensures stands { IsStanding P.world pool.new d.new }
    ensures identity { domain_page P.world pool.new d.new 0
        ≡ option_map (λ page. page_with_identity page d.old.id parent pages)
        (domain_page P.world pool.old d.old 0) }
    ensures bytes { KeepsOtherPages P.world pool.old d.old pool.new d.new 0 }
    ensures mappings { KeepsMap P.world pool.old d.old pool.new d.new }
    ensures leaves { KeepsLeaves P.world pool.old d.old pool.new d.new }
    ensures own { d.new.own ≡ d.old.own }
    ensures id { d.new.id ≡ d.old.id }
    ensures hand { d.new.hand ≡ d.old.hand }
    ensures shared { KeepsShared P.world pool.old d.old pool.new d.new }
    ensures moves { KeepsSeats P.world pool.old d.old pool.new d.new }
    ensures counts { SameCounts P.world pool.old pool.new }
{
    let first = Pfn::new(0).unwrap();
    let id = number_piece(d.id.get());
    let from = number_piece(parent.get());
    let count = number_piece(u32::from(pages));
    d.write_marked(pool, first, 0, &id);
    d.write_marked(pool, first, 4, &from);
    d.write_marked(pool, first, 8, &count);
}
