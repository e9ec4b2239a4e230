// One page of a fork.
ghost use Rattle.std.specs.Prelude.{◌≡◌, ◌≢◌, ◌+◌, ◌-◌, ◌≤◌, ◌^◌, ℕ, true, false, Some, None, min};
ghost use Rattle.neph_pool.specs.Entries.{hold_at, words_at, is_counted, entry_count, IsOnceAt};
ghost use Rattle.neph_pool.specs.Names.{IsApart, both_names};
ghost use Rattle.neph_pool.specs.World.{World, IsSeat, Stays, Spares, recounted};
ghost use Rattle.neph_pool.specs.declared.entry.Hold.TheVariants.{Counted};

use neph_base::{DomId, FrameNo};
use neph_pool::FramePool;

/// Makes a second reference of a frame and gives it to another seat, which had nothing of it.
pub fn lend<P: FramePool>(
    pool: &mut P,
    seat: &mut P::Seat,
    to: &mut P::Seat,
    child: DomId,
    f: FrameNo,
)
    requires seat { IsSeat P.world pool.old seat.old }
    requires to { P.world.fits pool.old to.old × (P.world.names to.old child ≡ true) }
    requires apart { IsApart (P.world.names seat.old) (P.world.names to.old) }
    requires frame { IsOnceAt (P.world.entries pool.old seat.old) f }
    requires free { is_counted (hold_at (P.world.entries pool.old to.old) f) ≡ false }
    requires room { entry_count (P.world.entries pool.old to.old) + 1 ≤ P.world.cap pool.old }
    ensures absent { hold_at (P.world.entries pool.old to.old) f ≡ None }
    ensures kept { hold_at (P.world.entries pool.new seat.new) f ≡ Some (Counted 1) }
    ensures holds { (g : ℕ) → g ≢ f → hold_at (P.world.entries pool.new seat.new) g
        ≡ hold_at (P.world.entries pool.old seat.old) g }
    ensures words { (g : ℕ) → words_at (P.world.entries pool.new seat.new) g
        ≡ words_at (P.world.entries pool.old seat.old) g }
    ensures lent { hold_at (P.world.entries pool.new to.new) f ≡ Some (Counted 1) }
    ensures same { words_at (P.world.entries pool.new to.new) f
        ≡ words_at (P.world.entries pool.old seat.old) f }
    ensures others_held { (g : ℕ) → g ≢ f → hold_at (P.world.entries pool.new to.new) g
        ≡ hold_at (P.world.entries pool.old to.old) g }
    ensures others_words { (g : ℕ) → g ≢ f → words_at (P.world.entries pool.new to.new) g
        ≡ words_at (P.world.entries pool.old to.old) g }
    ensures seat { Stays P.world pool.new seat.old seat.new }
    ensures to { Stays P.world pool.new to.old to.new }
    ensures others { Spares P.world (both_names (P.world.names seat.old) (P.world.names to.old))
        pool.old pool.new }
    ensures shares { P.world.shares pool.new ≡ min (P.world.shares pool.old + 1) (2 ^ 64 - 1) }
    ensures told { P.world.told pool.new ≡ recounted (λ n. n + 1) f (P.world.told pool.old) }
{
    let _child = child.get();
    pool.share(seat, f);
    pool.hand(seat, to, &[f]);
}
