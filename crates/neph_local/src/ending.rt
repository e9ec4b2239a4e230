// The end of a domain.
ghost use Rattle.std.specs.Prelude.{◌≡◌};
ghost use Rattle.neph_pool.specs.World.{World, Moves};
ghost use Rattle.neph_memory.specs.Domains.{IsStanding};
ghost use Rattle.neph_local.specs.Freed.{AreZero, Freed};

use crate::freed::release_some;
use neph_base::{FrameNo, Pfn};
use neph_memory::{DomLocal, frame_for};
use neph_pool::FramePool;

/// Gives up all frames of a domain: the pages, the tables and the spare. The seat keeps those whose
/// last reference it had, which the list has, each once. It takes no memory.
pub fn end<P: FramePool>(pool: &mut P, d: DomLocal<P>) -> (P::Seat, Vec<FrameNo>)
    requires stands { IsStanding P.world pool.old d }
    ensures zero { AreZero (P.world.entries pool.new result.0) }
    ensures freed { Freed (P.world.entries pool.new result.0) result.1.items }
    ensures moves { Moves P.world pool.old d.seat pool.new result.0 }
    ensures shares { P.world.shares pool.new ≡ P.world.shares pool.old }
{
    let mut seat = d.seat;
    let tables = d.tables;
    let own = d.own;
    let mut freed = d.room.into_list();
    let pages = own.map.len() as u16;
    for n in 0..pages {
        let p = Pfn::new(u32::from(n)).unwrap();
        let frame = frame_for(&own.map, p);
        release_some(pool, &mut seat, frame, &mut freed);
    }
    for i in 0..512u16 {
        let leaf = tables.nth_leaf(pool, &mut seat, i);
        release_some(pool, &mut seat, leaf, &mut freed);
    }
    release_some(pool, &mut seat, own.spare, &mut freed);
    release_some(pool, &mut seat, Some(tables.root), &mut freed);
    (seat, freed)
}
