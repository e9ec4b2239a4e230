// The end of a domain.
ghost use Rattle.std.specs.Prelude.{List};
ghost use Rattle.neph_model.specs.Turns.{turn};
ghost use Rattle.neph_model.specs.WellFormed.{IsWellFormed};
ghost use Rattle.neph_pool.specs.World.{World};
ghost use Rattle.neph_machine.specs.Reached.{state_after};
ghost use Rattle.neph_machine.specs.Stages.{IsReadyAt};
ghost use Rattle.neph_machine.specs.StandsFor.{StandsFor};
ghost use Rattle.neph_machine.specs.Turned.{IsRunning, Took};

use neph_base::{Actor, Command, DomId, Entry, Noted};
use neph_machine::{Machine, Turn, take_live};
use neph_pool::FramePool;

/// The turn of a domain that is ready for its exit: it ends. The frames of which it had the
/// last reference are free then, and so are those of its exposed pages. Takes no memory.
pub fn exit_turn<P: FramePool>(machine: &mut Machine<P>, id: DomId) -> Turn
    requires formed { IsWellFormed machine.old.script }
    requires running { IsRunning P.world machine.old }
    requires here { IsReadyAt machine.old id Command.Exit }
    ensures { (before : List Actor)
        → StandsFor P.world machine.old (state_after machine.old.script before)
        → Took P.world machine.old machine.new
        (turn machine.old.script (state_after machine.old.script before) (Actor.Dom id)) result }
{
    let live = take_live(&mut machine.places, id);
    let line = live.guest.line;
    let reply = machine.hv.end_domain(&mut machine.pool, live.local);
    let entry = Entry::Line { dom: id, line };
    Turn::Noted(Noted { entry, reply })
}
