// An empty table.
ghost use Rattle.std.specs.Prelude.{◌≡◌};
ghost use Rattle.neph_pool.specs.Entries.{with_words, IsSoleAt};
ghost use Rattle.neph_pool.specs.World.{World, IsSeat, Moves, SameCounts};
ghost use Rattle.neph_ptab.specs.Tables.{zero_words};

use neph_base::FrameNo;
use neph_pool::FramePool;

/// A frame becomes an empty table: all its words become 0.
#[tactic(auto, unfolding(crate::specs::Tables::zero_words))]
pub fn wipe<P: FramePool>(pool: &mut P, seat: &mut P::Seat, frame: FrameNo)
    requires seat { IsSeat P.world pool.old seat.old }
    requires frame { IsSoleAt (P.world.entries pool.old seat.old) frame }
    ensures entries { P.world.entries pool.new seat.new
        ≡ with_words (P.world.entries pool.old seat.old) frame zero_words }
    ensures met { P.world.met seat.new ≡ P.world.met seat.old }
    ensures moves { Moves P.world pool.old seat.old pool.new seat.new }
    ensures counts { SameCounts P.world pool.old pool.new }
{
    pool.blank(seat, frame);
}
