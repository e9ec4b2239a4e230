// The commit of a clone in flight.
ghost use Rattle.std.specs.Prelude.{List};
ghost use Rattle.neph_base.specs.declared.reply.Actor.{Actor};
ghost use Rattle.neph_base.specs.declared.reply.Actor.TheVariants.{Dom};
ghost use Rattle.neph_model.specs.Turns.{turn};
ghost use Rattle.neph_model.specs.WellFormed.{IsWellFormed};
ghost use Rattle.neph_pool.specs.World.{World};
ghost use Rattle.neph_machine.specs.Reached.{state_after};
ghost use Rattle.neph_machine.specs.Stages.{IsAt, IsForked};
ghost use Rattle.neph_machine.specs.StandsFor.{StandsFor};
ghost use Rattle.neph_machine.specs.Surveyed.{IsSurveyed};
ghost use Rattle.neph_machine.specs.Turned.{IsRunning, TookOrLacked};

use neph_base::{DomId, Entry, NoMemory, Noted};
use neph_guest::Stage;
use neph_machine::{Flight, Machine, Place, Turn, live_mut, put_live, put_place, take_flight};
use neph_pool::FramePool;
use std::alloc::Global;

/// The turn of a domain whose clone in flight has no page left to share: the clone is committed.
/// The child is live then, a copy of its parent at this instant but for what a clone tells it, and
/// waits with its parent for the daemon. Takes memory: without it all is as before.
pub fn commit_turn<P: FramePool>(
    machine: &mut Machine<P>,
    alloc: Global,
    id: DomId,
    child: DomId,
) -> Result<Turn, NoMemory>
    requires surveyed { IsSurveyed P.world }
    requires formed { IsWellFormed machine.old.script }
    requires running { IsRunning P.world machine.old }
    requires at { IsAt machine.old id Stage.Forking }
    requires forked { IsForked machine.old id child }
    ensures { (before : List Actor)
        → StandsFor P.world machine.old (state_after machine.old.script before)
        → TookOrLacked P.world machine.old machine.new (state_after machine.old.script before)
        (turn machine.old.script (state_after machine.old.script before) (Dom id)) result }
{
    let flight = take_flight(&mut machine.places, child);
    let live = live_mut(&mut machine.places, id);
    let line = live.guest.line;
    let pool = &mut machine.pool;
    match neph_guest::commit_turn(alloc, live, flight.fork, &mut machine.hv, pool) {
        Ok((born, reply)) => {
            put_live(&mut machine.places, child, born);
            let entry = Entry::Commit { dom: id, line };
            Ok(Turn::Noted(Noted { entry, reply }))
        }
        Err(fork) => {
            let flight = Flight { parent: id, fork };
            put_place(&mut machine.places, child, Place::Flight(flight));
            Err(NoMemory)
        }
    }
}
