// Frames that are given up at a domain's end.
ghost use Rattle.std.specs.Prelude.{◌≡◌, ◌≢◌, ◌+◌, ◌<◌, ◌≤◌, ℕ, false, Some, None, IfSome, length, vec_capacity, if◌then◌else◌};
ghost use Rattle.neph_pool.specs.Entries.{hold_at, words_at, is_held, IsOnceAt};
ghost use Rattle.neph_pool.specs.World.{World, IsSeat, Moves};
ghost use Rattle.neph_pool.specs.declared.entry.Hold.TheVariants.{Zero};
ghost use Rattle.neph_local.specs.Freed.{Freed};

use neph_base::FrameNo;
use neph_pool::FramePool;

// Gives up the seat's one reference of a frame. True where it was the last.
fn release_one<P: FramePool>(pool: &mut P, seat: &mut P::Seat, f: FrameNo) -> bool
    requires seat { IsSeat P.world pool.old seat.old }
    requires frame { IsOnceAt (P.world.entries pool.old seat.old) f }
    ensures hold { hold_at (P.world.entries pool.new seat.new) f
        ≡ (if result then Some Zero else None) }
    ensures holds { (g : ℕ) → g ≢ f → hold_at (P.world.entries pool.new seat.new) g
        ≡ hold_at (P.world.entries pool.old seat.old) g }
    ensures words { (g : ℕ) → g ≢ f → words_at (P.world.entries pool.new seat.new) g
        ≡ words_at (P.world.entries pool.old seat.old) g }
    ensures moves { Moves P.world pool.old seat.old pool.new seat.new }
    ensures shares { P.world.shares pool.new ≡ P.world.shares pool.old }
{
    pool.release(seat, f)
}

/// Gives up the seat's one reference of a frame, and lists the frame where it was the last.
pub fn release_into<P: FramePool>(
    pool: &mut P,
    seat: &mut P::Seat,
    f: FrameNo,
    freed: &mut Vec<FrameNo>,
)
    requires seat { IsSeat P.world pool.old seat.old }
    requires frame { IsOnceAt (P.world.entries pool.old seat.old) f }
    requires freed { Freed (P.world.entries pool.old seat.old) freed.old.items }
    requires room { length freed.old.items < vec_capacity freed.old }
    ensures freed { Freed (P.world.entries pool.new seat.new) freed.new.items }
    ensures count { length freed.new.items ≤ length freed.old.items + 1 }
    ensures room { vec_capacity freed.new ≡ vec_capacity freed.old }
    ensures gone { is_held (hold_at (P.world.entries pool.new seat.new) f) ≡ false }
    ensures holds { (g : ℕ) → g ≢ f → hold_at (P.world.entries pool.new seat.new) g
        ≡ hold_at (P.world.entries pool.old seat.old) g }
    ensures words { (g : ℕ) → g ≢ f → words_at (P.world.entries pool.new seat.new) g
        ≡ words_at (P.world.entries pool.old seat.old) g }
    ensures moves { Moves P.world pool.old seat.old pool.new seat.new }
    ensures shares { P.world.shares pool.new ≡ P.world.shares pool.old }
{
    let last = release_one(pool, seat, f);
    if !last {
        return;
    }
    freed.push_reserved(f);
}

/// The same for a frame that may not be there.
pub fn release_some<P: FramePool>(
    pool: &mut P,
    seat: &mut P::Seat,
    x: Option<FrameNo>,
    freed: &mut Vec<FrameNo>,
)
    requires seat { IsSeat P.world pool.old seat.old }
    requires frame { (f : ℕ) → x ≡ Some f → IsOnceAt (P.world.entries pool.old seat.old) f }
    requires freed { Freed (P.world.entries pool.old seat.old) freed.old.items }
    requires room { length freed.old.items < vec_capacity freed.old }
    ensures freed { Freed (P.world.entries pool.new seat.new) freed.new.items }
    ensures count { length freed.new.items ≤ length freed.old.items + 1 }
    ensures room { vec_capacity freed.new ≡ vec_capacity freed.old }
    ensures gone { (f : ℕ) → x ≡ Some f
        → is_held (hold_at (P.world.entries pool.new seat.new) f) ≡ false }
    ensures holds { (g : ℕ) → x ≢ Some g → hold_at (P.world.entries pool.new seat.new) g
        ≡ hold_at (P.world.entries pool.old seat.old) g }
    ensures words { (g : ℕ) → x ≢ Some g → words_at (P.world.entries pool.new seat.new) g
        ≡ words_at (P.world.entries pool.old seat.old) g }
    ensures moves { Moves P.world pool.old seat.old pool.new seat.new }
    ensures shares { P.world.shares pool.new ≡ P.world.shares pool.old }
{
    if let Some(f) = x {
        release_into(pool, seat, f, freed);
    }
}
