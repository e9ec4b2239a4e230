// A child's memory before it has pages.
ghost use Rattle.std.specs.Prelude.{◌≡◌, ◌+◌, ◌<◌, ◌≤◌, ◌^◌, ℕ, [], Some, None, length, replicate, slice_get};
ghost use Rattle.neph_pool.specs.Bytes.{bytes_at};
ghost use Rattle.neph_pool.specs.Handing.{AreDistinct};
ghost use Rattle.neph_pool.specs.World.{World, Moves, Spares, SameCounts};
ghost use Rattle.neph_ptab.specs.Tables.{leaf_at, walk_at};
ghost use Rattle.neph_memory.specs.Pages.{frame_at};
ghost use Rattle.neph_memory.specs.Domains.{IsStanding, domain_page, domain_leaf_count};
ghost use Rattle.neph_memory.specs.Building.{IsBuilding};
ghost use Rattle.neph_memory.specs.Shared.{SharedStays};
ghost use Rattle.neph_local.specs.Copies.{IsBlank, IsSprout};
ghost use Rattle.neph_local.specs.Forks.{IsForkOf, IsForkInHand, NoPageLeft, Adopts, MayAdopt};

use crate::adopted::adopt_all;
use crate::forking::Fork;
use neph_base::{FrameNo, TABLE_ENTRIES};
use neph_gmap::Page;
use neph_memory::{DomLocal, Own, Room};
use neph_pool::FramePool;
use neph_ptab::{Tables, Walk};

/// A child that is built: its memory so far, and the frames that wait.
#[derive(Drop)]
pub struct Child<P: FramePool> {
    /// Its memory.
    pub memory: DomLocal<P>,
    /// The frames of its seat that are no table and no page yet.
    pub frames: Vec<FrameNo>,
}

// Where no page of a fork is left: the last frame that was put aside becomes the root of the
// child's tables. All else of its seat waits.
fn sprout_root<P: FramePool>(pool: &mut P, d: &DomLocal<P>, k: &mut Fork<P>, own: &Own) -> Tables<P>
    requires stands { IsStanding P.world pool.old d.now }
    requires forks { IsForkOf P.world pool.old d.now k.old (length d.now.own.map.pages) }
    requires some { 0 < length k.old.frames.items }
    requires map { own.now.map ≡ record {
      pages = replicate (length d.now.own.map.pages) Page.Exposed;
      vpns = replicate (length d.now.own.map.pages) [];
    } }
    requires marks { length own.now.marks.items ≡ length d.now.own.map.pages }
    ensures adopts { Adopts (P.world.entries pool.new k.new.seat) result.root own.now
        d.now.own.map.pages 1 (length d.now.own.map.pages) k.new.frames.items }
    ensures may { MayAdopt (P.world.entries pool.new k.new.seat) d.now.own.map.pages
        k.new.frames.items }
    ensures bytes { (q f : ℕ) → 1 ≤ q → frame_at d.now.own.map.pages q ≡ Some f
        → domain_page P.world pool.old d.now q
        ≡ Some (bytes_at (P.world.entries pool.new k.new.seat) f) }
    ensures leaves { (i : ℕ) → i < TABLE_ENTRIES
        → leaf_at (P.world.entries pool.new k.new.seat) result.root i ≡ None }
    ensures walks { (u : ℕ) → u < 2 ^ 18
        → walk_at (P.world.entries pool.new k.new.seat) result.root u ≡ Walk.None }
    ensures once { AreDistinct k.new.frames.items }
    ensures left { length k.new.frames.items + 1 ≡ length k.old.frames.items }
    ensures child { k.new.child ≡ k.old.child }
    ensures shared { SharedStays (P.world.entries pool.old k.old.seat)
        (P.world.entries pool.new k.new.seat) }
    ensures moves { Moves P.world pool.old k.old.seat pool.new k.new.seat }
    ensures counts { SameCounts P.world pool.old pool.new }
{
    let root = k.frames.pop().unwrap();
    Tables::new(pool, &mut k.seat, root)
}

/// Where no page of a fork is left: the child with its root, and with its parent's pages but for
/// the identity page. It is built in these blank pages.
pub fn sprout<P: FramePool>(
    pool: &mut P,
    d: &DomLocal<P>,
    k: Fork<P>,
    own: Own,
    room: Room,
) -> Child<P>
    requires stands { IsStanding P.world pool.old d.now }
    requires fork { IsForkInHand P.world pool.old d.now k }
    requires done { NoPageLeft d.now.own.map.pages k.next }
    requires blank { IsBlank own (length d.now.own.map.pages) }
    ensures builds { IsBuilding P.world pool.new result.memory result.frames.items }
    ensures sprout { IsSprout P.world pool.new d.now result.memory }
    ensures identity { slice_get result.memory.own.map.pages 0 ≡ Some Page.Exposed }
    ensures left { length result.frames.items ≡ domain_leaf_count P.world pool.old d.now + 1 }
    ensures id { result.memory.id ≡ k.child }
    ensures hand { result.memory.hand ≡ None }
    ensures spare { result.memory.own.spare ≡ None }
    ensures shared { SharedStays (P.world.entries pool.old k.seat)
        (P.world.entries pool.new result.memory.seat) }
    ensures others { Spares P.world (P.world.names k.seat) pool.old pool.new }
    ensures counts { SameCounts P.world pool.old pool.new }
{
    let pages = d.own.map.len() as u16;
    let mut k = k;
    let mut own = own;
    let tables = sprout_root(pool, d, &mut k, &own);
    adopt_all(pool, &k, tables.root, &mut own, &d.own.map, pages);
    Child {
        memory: DomLocal {
            id: k.child,
            seat: k.seat,
            tables,
            own,
            hand: None,
            room,
        },
        frames: k.frames,
    }
}
