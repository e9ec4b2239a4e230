// Some frames of a seat, one after another.
ghost use Rattle.std.specs.Prelude.{◌≡◌, ◌<◌, ◌≤◌, ℕ, [], true, None, Some};
ghost use Rattle.neph_pool.specs.Entries.{words_at, hold_at, is_here, IsZeroAt, IsSoleAt};
ghost use Rattle.neph_pool.specs.Handing.{add_entries};
ghost use Rattle.neph_pool.specs.Names.{IsApart, both_names};
ghost use Rattle.neph_pool.specs.World.{World, IsSeat, Moves, Spares};
ghost use Rattle.neph_pool.specs.declared.entry.Hold.TheVariants.{Zero, Sole};
ghost use Rattle.neph_heap.specs.Holds.{times, Has, HoldsAmong};
ghost use Rattle.neph_heap.specs.Lists.{frames_of};

use crate::exposed_frame::ExposedFrame;
use neph_base::FrameNo;
use neph_pool::FramePool;

// Makes the first reference of each of these frames, which the seat keeps.
pub fn retake_all<P: FramePool>(pool: &mut P, seat: &mut P::Seat, frames: &[FrameNo])
    requires seat { IsSeat P.world pool.old seat.old }
    requires once { (f : ℕ) → times f frames.now ≤ 1 }
    requires zero { (f : ℕ) → 0 < times f frames.now
        → IsZeroAt (P.world.entries pool.old seat.old) f }
    ensures holds { HoldsAmong frames.now (Some Sole) (P.world.entries pool.old seat.old)
        (P.world.entries pool.new seat.new) }
    ensures words { (f : ℕ) → words_at (P.world.entries pool.new seat.new) f
        ≡ words_at (P.world.entries pool.old seat.old) f }
    ensures moves { Moves P.world pool.old seat.old pool.new seat.new }
    ensures shares { P.world.shares pool.new ≡ P.world.shares pool.old }
{
    for f in frames {
        pool.retake(seat, *f);
    }
}

// Gives up the only reference of the frame of each of these pages. The seat keeps the frames.
pub fn release_all<P: FramePool>(pool: &mut P, seat: &mut P::Seat, pages: &[ExposedFrame])
    requires seat { IsSeat P.world pool.old seat.old }
    requires once { (f : ℕ) → times f (frames_of pages.now) ≤ 1 }
    requires sole { (f : ℕ) → 0 < times f (frames_of pages.now)
        → IsSoleAt (P.world.entries pool.old seat.old) f }
    ensures holds { HoldsAmong (frames_of pages.now) (Some Zero)
        (P.world.entries pool.old seat.old) (P.world.entries pool.new seat.new) }
    ensures words { (f : ℕ) → words_at (P.world.entries pool.new seat.new) f
        ≡ words_at (P.world.entries pool.old seat.old) f }
    ensures moves { Moves P.world pool.old seat.old pool.new seat.new }
    ensures shares { P.world.shares pool.new ≡ P.world.shares pool.old }
{
    for page in pages {
        pool.release(seat, page.frame);
    }
}

// Joins a seat that keeps these frames and has no other. They are handed over one by one, so that
// the pool has no frame to look for.
pub fn join_kept<P: FramePool>(pool: &mut P, s: &mut P::Seat, other: P::Seat, kept: &[FrameNo])
    requires seat { IsSeat P.world pool.old s.old }
    requires first { P.world.names s.old 0 ≡ true }
    requires other { IsSeat P.world pool.old other }
    requires apart { IsApart (P.world.names s.old) (P.world.names other) }
    requires kept { Has (P.world.entries pool.old other) [] [] kept.now }
    ensures names { P.world.names s.new ≡ both_names (P.world.names s.old) (P.world.names other) }
    ensures entries { P.world.entries pool.new s.new
        ≡ add_entries (P.world.entries pool.old s.old) (P.world.entries pool.old other) }
    ensures absent { (f : ℕ) → is_here (hold_at (P.world.entries pool.old other) f) ≡ true
        → hold_at (P.world.entries pool.old s.old) f ≡ None }
    ensures seat { P.world.fits pool.new s.new }
    ensures others { Spares P.world (both_names (P.world.names s.old) (P.world.names other))
        pool.old pool.new }
    ensures shares { P.world.shares pool.new ≡ P.world.shares pool.old }
{
    let mut giver = other;
    pool.hand(&mut giver, s, kept);
    pool.join(s, giver);
}
