// The memories of many domains.
ghost use Rattle.std.specs.Prelude.{◌≡◌, ◌<◌, ℕ, IfSome, IsSome, length, slice_get};
ghost use Rattle.neph_pool.specs.World.{World};
ghost use Rattle.neph_memory.specs.Pages.{frame_at};
ghost use Rattle.neph_local.specs.Crowd.{AllStand, HaveOwnIds};

use neph_base::Pfn;
use neph_memory::{DomLocal, NeedSpare};
use neph_pool::FramePool;

/// Makes a page of one of many domains that domain's alone. All the others stand as they did.
pub fn unshare_one<P: FramePool>(
    pool: &mut P,
    all: &mut [DomLocal<P>],
    i: usize,
    p: Pfn,
) -> Result<(), NeedSpare>
    requires stand { AllStand P.world pool.old all.old }
    requires ids { HaveOwnIds all.old }
    requires at { i < length all.old }
    requires local { IfSome (slice_get all.old i) (λ d. IsSome (frame_at d.own.map.pages p)) }
    ensures stand { AllStand P.world pool.new all.new }
    ensures ids { HaveOwnIds all.new }
{
    let domain = &mut all[i];
    domain.unshare(pool, p)
}
