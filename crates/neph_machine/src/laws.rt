// Laws of a machine that stands for a state.
ghost use Rattle.neph_pool.specs.World.{World};
ghost use Rattle.neph_pool.specs.Plain.{plain_world};
ghost use Rattle.neph_machine.specs.Surveyed.{IsSurveyed};
ghost use Rattle.neph_machine.specs.Laws.{FreeIsListed, UsesAreCounts, CountTellsShared, SoleIsAlone};

use neph_pool::FramePool;

/// The free list is as long as the definitions say: what `free` counts, and what a clone is told.
pub fn free_is_listed<P: FramePool>(_pool: &P)
    ensures { FreeIsListed P.world }
{}

/// Tables, spares, frames put aside and free ones are what the definitions count.
pub fn uses_are_counts<P: FramePool>(_pool: &P)
    ensures { UsesAreCounts P.world }
{}

/// A look at a frame's count decides what the definitions decide by colours.
pub fn count_tells_shared<P: FramePool>(_pool: &P)
    ensures { CountTellsShared P.world }
{}

/// A page that is marked as its domain's alone has a colour of its own.
pub fn sole_is_alone<P: FramePool>(_pool: &P)
    ensures { SoleIsAlone P.world }
{}

/// The pool of one thread tells its counts, and they tell of all its seats.
pub fn plain_pool_is_surveyed()
    ensures { IsSurveyed plain_world }
{}
