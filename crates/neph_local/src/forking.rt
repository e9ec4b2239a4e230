// A fork in hand.
ghost use Rattle.std.specs.Prelude.{ℕ, true, ◌≡◌, ◌≢◌, ◌+◌, ◌-◌, ◌<◌, ◌≤◌, ◌^◌, ◌↔◌, IsSome, IsTrue, IfSome, is_some, min, length, if◌then◌else◌, None, false};
ghost use Rattle.neph_pool.specs.Entries.{hold_at, is_here, IsSoleAt, entry_count};
ghost use Rattle.neph_pool.specs.Handing.{AreDistinct};
ghost use Rattle.neph_pool.specs.Names.{only_name, both_names};
ghost use Rattle.neph_pool.specs.World.{World, Stays, Spares};
ghost use Rattle.neph_memory.specs.Pages.{frame_at};
ghost use Rattle.neph_memory.specs.Domains.{IsStanding, domain_leaf_count, KeepsPages, KeepsMap, KeepsLeaves};
ghost use Rattle.neph_memory.specs.Building.{IsAmong};
ghost use Rattle.neph_local.specs.Forks.{IsForkOf, IsForkInHand, IsNextPage, NoPageLeft};

use neph_base::{DomId, FrameNo, Pfn};
use neph_gmap::GuestMap;
use neph_memory::{DomLocal, frame_for};
use neph_pool::FramePool;

/// A fork in hand.
#[derive(Drop)]
pub struct Fork<P: FramePool> {
    /// The id of the child, which is the only name of its seat.
    pub child: DomId,
    /// The child's seat.
    pub seat: P::Seat,
    /// The frames that are put aside for the child.
    pub frames: Vec<FrameNo>,
    /// The next page to be shared.
    pub next: u16,
}

/// Begins a fork of a domain: the child's seat has these frames to itself, each listed once, and
/// nothing else. They are one for its root, one for each leaf table of its parent and one for its
/// identity page.
pub fn fork_begin<P: FramePool>(
    pool: &P,
    d: &DomLocal<P>,
    child: DomId,
    seat: P::Seat,
    frames: Vec<FrameNo>,
) -> Fork<P>
    requires stands { IsStanding P.world pool.now d.now }
    requires fits { P.world.fits pool.now seat }
    requires names { P.world.names seat ≡ only_name child }
    requires apart { d.now.id ≢ child }
    requires once { AreDistinct frames.items }
    requires sole { (f : ℕ) → IsAmong frames.items f → IsSoleAt (P.world.entries pool.now seat) f }
    requires only { (f : ℕ) → is_here (hold_at (P.world.entries pool.now seat) f) ≡ true
        → IsAmong frames.items f }
    requires enough { length frames.items ≡ domain_leaf_count P.world pool.now d.now + 2 }
    ensures fork { IsForkInHand P.world pool.now d.now result }
    ensures child { result.child ≡ child }
    ensures seat { result.seat ≡ seat }
    ensures frames { result.frames ≡ frames }
    ensures next { result.next ≡ 1 }
{
    Fork {
        child,
        seat,
        frames,
        next: 1,
    }
}

// Shares the next page, which is the domain's own.
fn share_next<P: FramePool>(pool: &mut P, d: &mut DomLocal<P>, k: &mut Fork<P>, p: Pfn)
    requires stands { IsStanding P.world pool.old d.old }
    requires forks { IsForkOf P.world pool.old d.old k.old k.old.next }
    requires local { IsSome (frame_at d.old.own.map.pages p) }
    requires page { p ≡ k.old.next }
    requires began { 1 ≤ k.old.next }
    requires small { k.old.next < 1024 }
    requires apart { d.old.id ≢ k.old.child }
    requires room { entry_count (P.world.entries pool.old k.old.seat) + 1 ≤ P.world.cap pool.old }
    ensures stands { IsStanding P.world pool.new d.new }
    ensures forks { IsForkOf P.world pool.new d.new k.new k.new.next }
    ensures next { k.new.next ≡ k.old.next + 1 }
    ensures frames { k.new.frames ≡ k.old.frames }
    ensures child { k.new.child ≡ k.old.child }
    ensures map { d.new.own.map ≡ d.old.own.map }
    ensures spare { d.new.own.spare ≡ d.old.own.spare }
    ensures bytes { KeepsPages P.world pool.old d.old pool.new d.new }
    ensures mappings { KeepsMap P.world pool.old d.old pool.new d.new }
    ensures leaves { KeepsLeaves P.world pool.old d.old pool.new d.new }
    ensures id { d.new.id ≡ d.old.id }
    ensures hand { d.new.hand ≡ d.old.hand }
    ensures seat { Stays P.world pool.new d.old.seat d.new.seat }
    ensures others { Spares P.world
        (both_names (P.world.names d.old.seat) (P.world.names k.old.seat)) pool.old pool.new }
    ensures shares { P.world.shares pool.new ≡ min (P.world.shares pool.old + 1) (2 ^ 64 - 1) }
{
    let frame = frame_for(&d.own.map, p).unwrap();
    let _number = frame.get();
    d.share_page(pool, &mut k.seat, k.child, p);
    k.next += 1;
}

// The first page from this one on that is the domain's own.
fn next_local(map: &GuestMap, from: u16) -> Option<Pfn>
    ensures found { IfSome result (λ p. IsNextPage map.now.pages from p) }
    ensures none { result ≡ None → NoPageLeft map.now.pages from }
{
    let pages = map.len() as u16;
    for n in from..pages {
        let p = Pfn::new(u32::from(n)).unwrap();
        if frame_for(map, p).is_some() {
            return Some(p);
        }
    }
    None
}

/// Shares the next local page of a fork. False exactly where none is left: nothing changes then.
pub fn fork_page<P: FramePool>(pool: &mut P, d: &mut DomLocal<P>, k: &mut Fork<P>) -> bool
    requires stands { IsStanding P.world pool.old d.old }
    requires fork { IsForkInHand P.world pool.old d.old k.old }
    ensures stands { IsStanding P.world pool.new d.new }
    ensures fork { IsForkInHand P.world pool.new d.new k.new }
    ensures shared { result ≡ true
        → IsNextPage d.old.own.map.pages k.old.next (k.new.next - 1) }
    ensures done { result ≡ false → NoPageLeft d.old.own.map.pages k.old.next }
    ensures same { result ≡ false
        → (k.new ≡ k.old) × (d.new ≡ d.old) × (pool.new ≡ pool.old) }
    ensures frames { k.new.frames ≡ k.old.frames }
    ensures child { k.new.child ≡ k.old.child }
    ensures map { d.new.own.map ≡ d.old.own.map }
    ensures spare { d.new.own.spare ≡ d.old.own.spare }
    ensures bytes { KeepsPages P.world pool.old d.old pool.new d.new }
    ensures mappings { KeepsMap P.world pool.old d.old pool.new d.new }
    ensures leaves { KeepsLeaves P.world pool.old d.old pool.new d.new }
    ensures id { d.new.id ≡ d.old.id }
    ensures hand { d.new.hand ≡ d.old.hand }
    ensures seat { Stays P.world pool.new d.old.seat d.new.seat }
    ensures others { Spares P.world
        (both_names (P.world.names d.old.seat) (P.world.names k.old.seat)) pool.old pool.new }
    ensures shares { P.world.shares pool.new ≡ (if result
        then min (P.world.shares pool.old + 1) (2 ^ 64 - 1) else P.world.shares pool.old) }
{
    match next_local(&d.own.map, k.next) {
        Some(p) => {
            k.next = p.get() as u16;
            share_next(pool, d, k, p);
            true
        }
        None => false,
    }
}
