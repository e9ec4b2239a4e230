// The turn of an actor, by what stands in its place.
ghost use Rattle.std.specs.Prelude.{◌≡◌, List, None, length, slice_get};
ghost use Rattle.neph_base.specs.declared.reply.Actor.TheVariants.{Dom};
ghost use Rattle.neph_model.specs.Machine.{program_run};
ghost use Rattle.neph_model.specs.Turns.{turn};
ghost use Rattle.neph_model.specs.WellFormed.{IsWellFormed};
ghost use Rattle.neph_pool.specs.World.{World};
ghost use Rattle.neph_machine.specs.Places.{place_at};
ghost use Rattle.neph_machine.specs.Reached.{state_after};
ghost use Rattle.neph_machine.specs.Stages.{IsAt};
ghost use Rattle.neph_machine.specs.StandsFor.{StandsFor};
ghost use Rattle.neph_machine.specs.Surveyed.{IsSurveyed};
ghost use Rattle.neph_machine.specs.Turned.{IsRunning, Took, TookOrLacked};
ghost use Rattle.neph_turns.specs.Standing.{IsAtLine, stage_in};

use neph_base::{Actor, DomId, Entry, NoMemory, Noted};
use neph_commit::commit_turn;
use neph_forks::step_page;
use neph_guest::{Stage, Turned, guest_turn};
use neph_lines::exit_turn;
use neph_machine::{Flight, Machine, Place, Turn, live_mut, put_place};
use neph_pool::FramePool;
use std::alloc::Global;

/// A turn of an actor. Where memory runs out the machine stands for what it stood for before.
pub fn turn<P: FramePool>(
    machine: &mut Machine<P>,
    alloc: Global,
    actor: Actor,
) -> Result<Turn, NoMemory>
    requires surveyed { IsSurveyed P.world }
    requires formed { IsWellFormed machine.old.script }
    requires running { IsRunning P.world machine.old }
    ensures { (before : List Actor)
        → StandsFor P.world machine.old (state_after machine.old.script before)
        → TookOrLacked P.world machine.old machine.new (state_after machine.old.script before)
        (turn machine.old.script (state_after machine.old.script before) actor) result }
{
    match actor {
        Actor::Dom(id) => domain_turn(machine, alloc, id),
        Actor::Daemon => Ok(machine.daemon_turn()),
        Actor::Console | Actor::Net | Actor::P9 => Ok(Turn::Rested),
    }
}

// The turn of a domain, which rests where none stands. A domain that has begun a clone goes on with
// it.
fn domain_turn<P: FramePool>(
    machine: &mut Machine<P>,
    alloc: Global,
    id: DomId,
) -> Result<Turn, NoMemory>
    requires surveyed { IsSurveyed P.world }
    requires formed { IsWellFormed machine.old.script }
    requires running { IsRunning P.world machine.old }
    ensures { (before : List Actor)
        → StandsFor P.world machine.old (state_after machine.old.script before)
        → TookOrLacked P.world machine.old machine.new (state_after machine.old.script before)
        (turn machine.old.script (state_after machine.old.script before) (Dom id)) result }
{
    let Some(stage) = stage_at(machine, id) else {
        return Ok(Turn::Rested);
    };
    match stage {
        Stage::Forking => fork_turn(machine, alloc, id),
        _ => line_turn(machine, id),
    }
}

// How far the domain of an id is with its line, where one stands.
fn stage_at<P: FramePool>(machine: &Machine<P>, id: DomId) -> Option<Stage>
    requires { length machine.now.places.items ≡ 64 }
    ensures { result ≡ stage_in (place_at id machine.now.places.items) }
{
    let Place::Domain(live) = &machine.places[id.get() as usize] else {
        return None;
    };
    Some(live.guest.stage)
}

// The turn of a domain that has begun a clone: it shares the next page, or commits.
fn fork_turn<P: FramePool>(
    machine: &mut Machine<P>,
    alloc: Global,
    id: DomId,
) -> Result<Turn, NoMemory>
    requires surveyed { IsSurveyed P.world }
    requires formed { IsWellFormed machine.old.script }
    requires running { IsRunning P.world machine.old }
    requires forking { IsAt machine.old id Stage.Forking }
    ensures { (before : List Actor)
        → StandsFor P.world machine.old (state_after machine.old.script before)
        → TookOrLacked P.world machine.old machine.new (state_after machine.old.script before)
        (turn machine.old.script (state_after machine.old.script before) (Dom id)) result }
{
    let Some(child) = machine.hv.registry.first_begun(id) else {
        unreachable!();
    };
    if step_page(machine, id, child) {
        return Ok(Turn::Moved);
    }
    commit_turn(machine, alloc, id, child)
}

// The turn of a domain that has begun no clone: its guest takes it.
fn line_turn<P: FramePool>(machine: &mut Machine<P>, id: DomId) -> Result<Turn, NoMemory>
    requires surveyed { IsSurveyed P.world }
    requires formed { IsWellFormed machine.old.script }
    requires running { IsRunning P.world machine.old }
    requires here { IsAtLine machine.old id }
    ensures { (before : List Actor)
        → StandsFor P.world machine.old (state_after machine.old.script before)
        → TookOrLacked P.world machine.old machine.new (state_after machine.old.script before)
        (turn machine.old.script (state_after machine.old.script before) (Dom id)) result }
{
    let number = machine.hv.registry.program(id);
    let Some(program) = machine.script.programs.items().get(number as usize) else {
        return Ok(bare_turn(machine, id));
    };
    let live = live_mut(&mut machine.places, id);
    let line = live.guest.line;
    let mut begun = None;
    let pool = &mut machine.pool;
    match guest_turn(live, &mut machine.hv, pool, program, &mut begun) {
        Ok(Turned::Rests) => Ok(Turn::Rested),
        Ok(Turned::Moves) => Ok(Turn::Moved),
        Ok(Turned::Did(reply)) => {
            let entry = Entry::Line { dom: id, line };
            let noted = Turn::Noted(Noted { entry, reply });
            let Some(fork) = begun else {
                return Ok(noted);
            };
            let child = fork.child;
            let flight = Flight { parent: id, fork };
            put_place(&mut machine.places, child, Place::Flight(flight));
            Ok(noted)
        }
        Ok(Turned::Ends) => Ok(exit_turn(machine, id)),
        Err(lacks) => Err(lacks),
    }
}

// The turn of a domain whose program isn't there, which has only the exit that isn't written. It
// rests where it is paused.
fn bare_turn<P: FramePool>(machine: &mut Machine<P>, id: DomId) -> Turn
    requires formed { IsWellFormed machine.old.script }
    requires running { IsRunning P.world machine.old }
    requires here { IsAtLine machine.old id }
    requires absent { slice_get machine.old.script.programs
        (program_run id machine.old.hv.registry.lives) ≡ None }
    ensures { (before : List Actor)
        → StandsFor P.world machine.old (state_after machine.old.script before)
        → Took P.world machine.old machine.new
        (turn machine.old.script (state_after machine.old.script before) (Dom id)) result }
{
    if machine.hv.registry.is_paused(id) {
        return Turn::Rested;
    }
    exit_turn(machine, id)
}
