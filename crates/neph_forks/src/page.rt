// A page step of a clone in flight.
ghost use Rattle.std.specs.Prelude.{◌≡◌, true, false, List, Some, slice_get};
ghost use Rattle.neph_base.specs.declared.reply.Actor.{Actor};
ghost use Rattle.neph_base.specs.declared.reply.Actor.TheVariants.{Dom};
ghost use Rattle.neph_model.specs.Machine.{guest_at};
ghost use Rattle.neph_model.specs.Turns.{turn};
ghost use Rattle.neph_model.specs.WellFormed.{IsWellFormed};
ghost use Rattle.neph_pool.specs.World.{World};
ghost use Rattle.neph_machine.specs.Reached.{state_after};
ghost use Rattle.neph_machine.specs.Stages.{IsAt, IsForked};
ghost use Rattle.neph_machine.specs.StandsFor.{StandsFor};
ghost use Rattle.neph_machine.specs.Turned.{IsRunning, Took};

use neph_base::DomId;
use neph_guest::{Stage, page_turn};
use neph_machine::{Machine, Place, Turn, live_mut, put_place, take_flight};
use neph_pool::FramePool;

/// A page step of the clone that a domain has in flight: the child shares the frame of the next
/// page that goes shared. False exactly where no page is left to share: nothing changes then.
/// Takes no memory.
pub fn step_page<P: FramePool>(machine: &mut Machine<P>, id: DomId, child: DomId) -> bool
    requires formed { IsWellFormed machine.old.script }
    requires running { IsRunning P.world machine.old }
    requires forking { IsAt machine.old id Stage.Forking }
    requires begun { slice_get (guest_at id machine.old.hv.registry.tables).begun 0 ≡ Some child }
    ensures stepped { result ≡ true → (before : List Actor)
        → StandsFor P.world machine.old (state_after machine.old.script before)
        → Took P.world machine.old machine.new (turn machine.old.script
        (state_after machine.old.script before) (Dom id)) Turn.Moved }
    ensures same { result ≡ false → machine.new ≡ machine.old }
    ensures done { result ≡ false → IsForked machine.new id child }
{
    let mut flight = take_flight(&mut machine.places, child);
    let live = live_mut(&mut machine.places, id);
    let stepped = page_turn(live, &mut machine.pool, &mut flight.fork);
    put_place(&mut machine.places, child, Place::Flight(flight));
    stepped
}
