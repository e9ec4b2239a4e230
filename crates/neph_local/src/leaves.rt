// The leaf tables of a domain.
ghost use Rattle.std.specs.Prelude.{◌≡◌, ◌<◌, ◌≤◌, ℕ};
ghost use Rattle.neph_pool.specs.World.{World, SameCounts};
ghost use Rattle.neph_memory.specs.Domains.{IsStanding, IsUnchanged, domain_leaf, domain_leaf_count, KeepsSeats};
ghost use Rattle.neph_local.specs.Forks.{leaf_count_of};

use neph_base::TABLE_ENTRIES;
use neph_memory::DomLocal;
use neph_pool::FramePool;

// One where the i-th leaf table is there.
fn nth_leaf_count<P: FramePool>(pool: &mut P, d: &mut DomLocal<P>, i: u16) -> u16
    requires stands { IsStanding P.world pool.old d.old }
    requires small { i < TABLE_ENTRIES }
    ensures count { result ≡ leaf_count_of (domain_leaf P.world pool.old d.old i) }
    ensures most { result ≤ 1 }
    ensures same { IsUnchanged P.world pool.old d.old pool.new d.new }
    ensures moves { KeepsSeats P.world pool.old d.old pool.new d.new }
    ensures counts { SameCounts P.world pool.old pool.new }
{
    match d.tables.nth_leaf(pool, &mut d.seat, i) {
        Some(_) => 1,
        None => 0,
    }
}

/// How many leaf tables a domain has. Its memory is as it was.
pub fn leaf_count<P: FramePool>(pool: &mut P, d: &mut DomLocal<P>) -> u16
    requires stands { IsStanding P.world pool.old d.old }
    ensures count { result ≡ domain_leaf_count P.world pool.old d.old }
    ensures most { result ≤ TABLE_ENTRIES }
    ensures stands { IsStanding P.world pool.new d.new }
    ensures same { IsUnchanged P.world pool.old d.old pool.new d.new }
    ensures moves { KeepsSeats P.world pool.old d.old pool.new d.new }
    ensures counts { SameCounts P.world pool.old pool.new }
{
    let mut count = 0u16;
    for i in 0..512u16 {
        count += nth_leaf_count(pool, d, i);
    }
    count
}
