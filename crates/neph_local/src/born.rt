// The end of a fork.
ghost use Rattle.std.specs.Prelude.{◌≡◌, ◌≢◌, ◌+◌, ◌≤◌, IfOk, IfErr, length};
ghost use Rattle.neph_base.specs.declared.sizes.TheConstants.{MAX_PAGES};
ghost use Rattle.neph_pool.specs.Names.{both_names};
ghost use Rattle.neph_pool.specs.World.{World, Spares, SameCounts};
ghost use Rattle.neph_memory.specs.Domains.{IsStanding, IsUnchanged, domain_leaf_count};
ghost use Rattle.neph_local.specs.Copies.{IsBlank, IsChildOf, IsGrown, IsSameFork, KeepsFrames};
ghost use Rattle.neph_local.specs.Forks.{Forks, IsForkInHand, NoPageLeft};

use crate::copying::copy_tables;
use crate::forking::Fork;
use crate::identity::{copy_bytes, write_identity};
use crate::sprout::{Child, sprout};
use neph_base::{FrameNo, NoMemory, Pfn};
use neph_memory::{DomLocal, Own, Room, place};
use neph_pool::FramePool;
use std::alloc::Global;

// What a child takes of memory before it is built, and the list of the frames put aside.
#[derive(Drop)]
struct Blank {
    own: Own,
    room: Room,
    frames: Vec<FrameNo>,
}

fn blank_memory(alloc: Global, pages: u16, frames: &[FrameNo]) -> Result<Blank, NoMemory>
    requires { pages ≤ MAX_PAGES }
    ensures blank { IfOk result (λ b. IsBlank b.own pages) }
    ensures frames { IfOk result (λ b. b.frames.items ≡ frames.now) }
{
    let own = Own::new(alloc, pages)?;
    let room = Room::new(alloc)?;
    let frames = Vec::from_slice(alloc, frames)?;
    Ok(Blank { own, room, frames })
}

// The child with its tables, and with a page of zeros in the place of its identity page. Where
// memory runs out, the fork's seat.
fn grow<P: FramePool>(
    pool: &mut P,
    d: &mut DomLocal<P>,
    k: Fork<P>,
    own: Own,
    room: Room,
) -> Result<DomLocal<P>, P::Seat>
    requires stands { IsStanding P.world pool.old d.old }
    requires fork { IsForkInHand P.world pool.old d.old k }
    requires done { NoPageLeft d.old.own.map.pages k.next }
    requires blank { IsBlank own (length d.old.own.map.pages) }
    ensures stands { IsStanding P.world pool.new d.new }
    ensures same { IsUnchanged P.world pool.old d.old pool.new d.new }
    ensures child { IfOk result (λ c. IsStanding P.world pool.new c) }
    ensures grown { IfOk result (λ c. IsGrown P.world pool.old d.old pool.new c) }
    ensures id { IfOk result (λ c. c.id ≡ k.child) }
    ensures seat { IfOk result (λ c. KeepsFrames P.world pool.old k.seat pool.new c.seat) }
    ensures back { IfErr result (λ s. KeepsFrames P.world pool.old k.seat pool.new s) }
    ensures others { Spares P.world (both_names (P.world.names d.old.seat) (P.world.names k.seat))
        pool.old pool.new }
    ensures counts { SameCounts P.world pool.old pool.new }
{
    let mut c = sprout(pool, d, k, own, room);
    let first = Pfn::new(0).unwrap();
    place(pool, &mut c.memory, first, &mut c.frames);
    match copy_tables(pool, d, &mut c) {
        Ok(()) => Ok(c.memory),
        Err(_) => Err(c.memory.seat),
    }
}

// The child, or the fork's seat where memory runs out.
fn bear<P: FramePool>(
    pool: &mut P,
    d: &mut DomLocal<P>,
    k: Fork<P>,
    own: Own,
    room: Room,
) -> Result<DomLocal<P>, P::Seat>
    requires stands { IsStanding P.world pool.old d.old }
    requires fork { IsForkInHand P.world pool.old d.old k }
    requires done { NoPageLeft d.old.own.map.pages k.next }
    requires blank { IsBlank own (length d.old.own.map.pages) }
    ensures stands { IsStanding P.world pool.new d.new }
    ensures same { IsUnchanged P.world pool.old d.old pool.new d.new }
    ensures child { IfOk result (λ c. IsStanding P.world pool.new c) }
    ensures born { IfOk result (λ c. IsChildOf P.world pool.old d.old pool.new c) }
    ensures id { IfOk result (λ c. c.id ≡ k.child) }
    ensures seat { IfOk result (λ c. KeepsFrames P.world pool.old k.seat pool.new c.seat) }
    ensures back { IfErr result (λ s. KeepsFrames P.world pool.old k.seat pool.new s) }
    ensures others { Spares P.world (both_names (P.world.names d.old.seat) (P.world.names k.seat))
        pool.old pool.new }
    ensures counts { SameCounts P.world pool.old pool.new }
{
    let mut c = match grow(pool, d, k, own, room) {
        Ok(c) => c,
        Err(seat) => return Err(seat),
    };
    let first = Pfn::new(0).unwrap();
    copy_bytes(pool, d, &mut c, first);
    let pages = d.own.map.len() as u16;
    write_identity(pool, &mut c, d.id, pages);
    Ok(c)
}

/// Ends a fork of which no page is left: gives the child. It has the frame of each local page of
/// its parent but the identity page, whose bytes are copied and get the child's numbers, and it
/// maps each virtual page as its parent does. The parent's memory is as it was. Takes memory.
///
/// An error is want of memory, and gives the fork back: it is in hand as it was.
pub fn fork_end<P: FramePool>(
    alloc: Global,
    pool: &mut P,
    d: &mut DomLocal<P>,
    k: Fork<P>,
) -> Result<DomLocal<P>, Fork<P>>
    requires stands { IsStanding P.world pool.old d.old }
    requires fork { IsForkInHand P.world pool.old d.old k }
    requires done { NoPageLeft d.old.own.map.pages k.next }
    ensures stands { IsStanding P.world pool.new d.new }
    ensures same { IsUnchanged P.world pool.old d.old pool.new d.new }
    ensures child { IfOk result (λ c. IsStanding P.world pool.new c) }
    ensures born { IfOk result (λ c. IsChildOf P.world pool.old d.old pool.new c) }
    ensures id { IfOk result (λ c. c.id ≡ k.child) }
    ensures names { IfOk result (λ c. P.world.names c.seat ≡ P.world.names k.seat) }
    ensures still { IfOk result (λ c. Forks P.world pool.new d.new.seat c.seat k.child
        d.new.own.map.pages k.next k.frames.items) }
    ensures back { IfErr result (λ e. IsForkInHand P.world pool.new d.new e) }
    ensures kept { IfErr result (λ e. IsSameFork P.world k e) }
    ensures others { Spares P.world (both_names (P.world.names d.old.seat) (P.world.names k.seat))
        pool.old pool.new }
    ensures counts { SameCounts P.world pool.old pool.new }
{
    let pages = d.own.map.len() as u16;
    let blank = match blank_memory(alloc, pages, &k.frames) {
        Ok(blank) => blank,
        Err(_) => return Err(k),
    };
    let child = k.child;
    let next = k.next;
    let frames = blank.frames;
    match bear(pool, d, k, blank.own, blank.room) {
        Ok(c) => Ok(c),
        Err(seat) => Err(Fork {
            child,
            seat,
            frames,
            next,
        }),
    }
}

/// Takes a child back into the fork of which it was born, with the frames that were put aside for
/// it and the next page to be shared. The child's seat must hold what the fork's seat held, as it
/// does behind `fork_end`.
pub fn fork_back<P: FramePool>(
    pool: &P,
    d: &DomLocal<P>,
    c: DomLocal<P>,
    frames: Vec<FrameNo>,
    next: u16,
) -> Fork<P>
    requires still { Forks P.world pool.now d.now.seat c.seat c.id d.now.own.map.pages next
        frames.items }
    requires began { 1 ≤ next }
    requires apart { d.now.id ≢ c.id }
    requires enough { length frames.items ≡ domain_leaf_count P.world pool.now d.now + 2 }
    ensures fork { IsForkInHand P.world pool.now d.now result }
    ensures child { result.child ≡ c.id }
    ensures seat { result.seat ≡ c.seat }
    ensures frames { result.frames ≡ frames }
    ensures next { result.next ≡ next }
{
    Fork {
        child: c.id,
        seat: c.seat,
        frames,
        next,
    }
}
