// The pages of a child: references that its seat got from the parent.
ghost use Rattle.std.specs.Prelude.{◌≡◌, ◌+◌, ◌<◌, ◌≤◌, false, length, slice_set};
ghost use Rattle.neph_pool.specs.World.{World};
ghost use Rattle.neph_memory.specs.Memory.{IsMade};
ghost use Rattle.neph_memory.specs.Building.{IsAmong};
ghost use Rattle.neph_local.specs.Forks.{Adopts, MayAdopt};

use crate::forking::Fork;
use neph_base::{FrameNo, Pfn};
use neph_gmap::{GuestMap, Page};
use neph_memory::{Own, frame_for};
use neph_pool::FramePool;

// A page lies in this frame, and may be in other domains.
fn adopt(own: &mut Own, p: Pfn, f: FrameNo)
    requires page { p < length own.old.map.pages }
    requires marks { length own.old.marks.items ≡ length own.old.map.pages }
    ensures pages { own.new.map.pages ≡ slice_set own.old.map.pages p (Page.Local f) }
    ensures vpns { own.new.map.vpns ≡ own.old.map.vpns }
    ensures marks { own.new.marks.items ≡ slice_set own.old.marks.items p false }
    ensures spare { own.new.spare ≡ own.old.spare }
{
    own.map.set(p, Page::Local(f));
    own.marks[p.get() as usize] = false;
}

// The page n of the child is that of the parent.
fn adopt_one<P: FramePool>(
    pool: &P,
    k: &Fork<P>,
    root: FrameNo,
    own: &mut Own,
    from: &GuestMap,
    n: u16,
)
    requires may { MayAdopt (P.world.entries pool.now k.now.seat) from.now.pages
        k.now.frames.items }
    requires adopts { Adopts (P.world.entries pool.now k.now.seat) root own.old from.now.pages n
        (length from.now.pages) k.now.frames.items }
    requires shared { 1 ≤ n }
    requires page { n < length from.now.pages }
    ensures adopts { Adopts (P.world.entries pool.now k.now.seat) root own.new from.now.pages
        (n + 1) (length from.now.pages) k.now.frames.items }
    ensures spare { own.new.spare ≡ own.old.spare }
{
    let p = Pfn::new(u32::from(n)).unwrap();
    match frame_for(from, p) {
        Some(f) => adopt(own, p, f),
        None => (),
    }
}

// The child's pages from page 1 on are those of the parent. The pool isn't entered.
pub(crate) fn adopt_all<P: FramePool>(
    pool: &P,
    k: &Fork<P>,
    root: FrameNo,
    own: &mut Own,
    from: &GuestMap,
    pages: u16,
)
    requires may { MayAdopt (P.world.entries pool.now k.now.seat) from.now.pages
        k.now.frames.items }
    requires adopts { Adopts (P.world.entries pool.now k.now.seat) root own.old from.now.pages 1
        (length from.now.pages) k.now.frames.items }
    requires pages { length from.now.pages ≡ pages }
    requires some { 1 ≤ pages }
    ensures made { IsMade (P.world.entries pool.now k.now.seat) root own.new
        (IsAmong k.now.frames.items) }
    ensures adopts { Adopts (P.world.entries pool.now k.now.seat) root own.new from.now.pages pages
        (length from.now.pages) k.now.frames.items }
    ensures spare { own.new.spare ≡ own.old.spare }
{
    for n in 1..pages {
        adopt_one(pool, k, root, own, from, n);
    }
}
