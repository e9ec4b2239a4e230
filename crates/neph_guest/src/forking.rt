// The turns of a guest whose clone is in flight.
ghost use Rattle.std.specs.Prelude.{◌≡◌, ◌+◌, ◌-◌, ◌^◌, ◌<◌, min, true, false, if◌then◌else◌, IfOk, IfErr};
ghost use Rattle.neph_pool.specs.Names.{both_names};
ghost use Rattle.neph_pool.specs.World.{World, Spares, Stays};
ghost use Rattle.neph_memory.specs.Domains.{IsStanding, IsUnchanged, KeepsPages, KeepsMap, KeepsLeaves};
ghost use Rattle.neph_local.specs.Forks.{IsForkInHand, IsNextPage, NoPageLeft};
ghost use Rattle.neph_hyper.specs.Calls.{Calls};
ghost use Rattle.neph_guest.specs.Forked.{HasBorne, HasKept, answer_of, guest_behind};

use crate::live::{Guest, Live, Stage};
use neph_base::{DomId, Reply};
use neph_hyper::Hyper;
use neph_local::{Fork, fork_page};
use neph_pool::FramePool;
use std::alloc::Global;

/// A page step of the clone that a guest has in flight: the child shares the frame of the next page
/// that goes shared. False exactly where no page is left to share: nothing changes then. It enters
/// no hypervisor, and takes no memory.
pub fn page_turn<P: FramePool>(live: &mut Live<P>, pool: &mut P, fork: &mut Fork<P>) -> bool
    requires stands { IsStanding P.world pool.old live.old.local }
    requires fork { IsForkInHand P.world pool.old live.old.local fork.old }
    ensures stands { IsStanding P.world pool.new live.new.local }
    ensures fork { IsForkInHand P.world pool.new live.new.local fork.new }
    ensures shared { result ≡ true
        → IsNextPage live.old.local.own.map.pages fork.old.next (fork.new.next - 1) }
    ensures done { result ≡ false → NoPageLeft live.old.local.own.map.pages fork.old.next }
    ensures same { result ≡ false
        → (fork.new ≡ fork.old) × (live.new ≡ live.old) × (pool.new ≡ pool.old) }
    ensures frames { fork.new.frames ≡ fork.old.frames }
    ensures child { fork.new.child ≡ fork.old.child }
    ensures guest { live.new.guest ≡ live.old.guest }
    ensures map { live.new.local.own.map ≡ live.old.local.own.map }
    ensures spare { live.new.local.own.spare ≡ live.old.local.own.spare }
    ensures bytes { KeepsPages P.world pool.old live.old.local pool.new live.new.local }
    ensures mappings { KeepsMap P.world pool.old live.old.local pool.new live.new.local }
    ensures leaves { KeepsLeaves P.world pool.old live.old.local pool.new live.new.local }
    ensures id { live.new.local.id ≡ live.old.local.id }
    ensures hand { live.new.local.hand ≡ live.old.local.hand }
    ensures seat { Stays P.world pool.new live.old.local.seat live.new.local.seat }
    ensures others { Spares P.world (both_names (P.world.names live.old.local.seat)
        (P.world.names fork.old.seat)) pool.old pool.new }
    ensures shares { P.world.shares pool.new ≡ (if result
        then min (P.world.shares pool.old + 1) (2 ^ 64 - 1) else P.world.shares pool.old) }
{
    fork_page(pool, &mut live.local, fork)
}

/// Commits the clone that a guest has in flight, of whose fork no page is left. Gives the child,
/// which is live then, at its parent's next line. An error is want of memory: all is as before, and
/// the fork is in hand again.
pub fn commit_turn<P: FramePool, H: Hyper<P>>(
    alloc: Global,
    live: &mut Live<P>,
    fork: Fork<P>,
    hv: &mut H,
    pool: &mut P,
) -> Result<(Live<P>, Reply), Fork<P>>
    requires serves { H.calls.MayCommit pool.old hv.old live.old.local fork }
    requires stands { IsStanding P.world pool.old live.old.local }
    requires fork { IsForkInHand P.world pool.old live.old.local fork }
    requires done { NoPageLeft live.old.local.own.map.pages fork.next }
    requires room { live.old.guest.line < 65535 }
    ensures stands { IsStanding P.world pool.new live.new.local }
    ensures same { IsUnchanged P.world pool.old live.old.local pool.new live.new.local }
    ensures born { IfOk result (λ made. HasBorne P.world pool.old live.old fork pool.new live.new
        made.0 made.1) }
    ensures back { IfErr result (λ e. HasKept P.world pool.old live.old fork pool.new live.new e) }
    ensures committed { H.calls.Committed pool.old hv.old live.old.local fork
        pool.new hv.new live.new.local (answer_of result) }
{
    let child = fork.child;
    let line = live.guest.line;
    match hv.commit(alloc, pool, &mut live.local, fork) {
        Ok((local, reply)) => {
            live.guest = guest_behind(live.guest.dom, line, false);
            let guest = guest_behind(child, line, true);
            Ok((Live { guest, local }, reply))
        }
        Err(fork) => Err(fork),
    }
}

// The guest of a domain behind the commit of a clone at a line: of its parent, or of the child,
// which came by it.
fn guest_behind(dom: DomId, line: u16, came: bool) -> Guest
    requires room { line < 65535 }
    ensures { result ≡ guest_behind dom line came }
{
    Guest {
        dom,
        line: line + 1,
        came,
        failed: false,
        stage: Stage::Ready,
    }
}
