// The run of a script by turns, to its end.
ghost use Rattle.std.specs.Prelude.{◌≡◌, ◌<◌, IfOk, List};
ghost use Rattle.neph_model.specs.WellFormed.{IsWellFormed};
ghost use Rattle.neph_model.specs.Turns.{turns, round};
ghost use Rattle.neph_machine.specs.Reached.{state_after};
ghost use Rattle.neph_core.specs.Course.{IsRunning, Stands};
ghost use Rattle.neph_core.specs.Does.{Goes};
ghost use Rattle.neph_core.specs.Plays.{EndsRun};

use crate::machine::Machine;
use neph_base::{Actor, NoMemory, TryClone};
use neph_model::Script;
use std::alloc::Global;

/// A run at its end.
#[derive(Drop)]
pub struct Played {
    /// The machine.
    pub machine: Machine,
    /// Whether the run stalled; else no domain is live.
    pub stalled: bool,
}

/// Runs a script by turns: those that it gives, and then rounds, until no domain is live or a round
/// does nothing.
pub fn play(alloc: Global, s: Script) -> Result<Played, NoMemory>
    requires { IsWellFormed s }
    ensures { IfOk result (λ p. EndsRun s p.machine p.stalled) }
{
    let first = s.turns.try_clone()?;
    let mut machine = Machine::new(alloc, s)?;
    let _moved = take_turns(&mut machine, alloc, first.items())?;
    'rounds: while !machine.is_over() {
        if !take_round(&mut machine, alloc)? {
            return Ok(Played {
                machine,
                stalled: true,
            });
        }
    }
    Ok(Played {
        machine,
        stalled: false,
    })
}

// The turns of these actors in order, until no domain is live. Tells whether one did anything.
fn take_turns(machine: &mut Machine, alloc: Global, actors: &[Actor]) -> Result<bool, NoMemory>
    requires formed { IsWellFormed machine.old.frames.script }
    requires running { IsRunning machine.old }
    ensures { IfOk result (λ moved. (before : List Actor) → Stands machine.old before
        → Goes machine.old machine.new before (turns machine.old.frames.script
        (state_after machine.old.frames.script before) actors.now) moved) }
{
    let mut moved = false;
    for actor in actors {
        if machine.is_over() {
            return Ok(moved);
        }
        moved |= machine.turn(alloc, *actor)?;
    }
    Ok(moved)
}

// The turns of a round, until no domain is live. Takes those of the live domains, by rising id, and
// the daemon's where a clone waits for it: the others do nothing. Tells whether one did anything.
fn take_round(machine: &mut Machine, alloc: Global) -> Result<bool, NoMemory>
    requires formed { IsWellFormed machine.old.frames.script }
    requires running { IsRunning machine.old }
    ensures { IfOk result (λ moved. (before : List Actor) → Stands machine.old before
        → Goes machine.old machine.new before (turns machine.old.frames.script
        (state_after machine.old.frames.script before) round) moved) }
{
    let mut moved = false;
    let mut from = 1;
    'domains: while let Some(id) = machine.frames.next_live(from) {
        moved |= machine.turn(alloc, Actor::Dom(id))?;
        from = id.get() + 1;
    }
    if !machine.frames.hv.registry.has_waiting() {
        return Ok(moved);
    }
    if !machine.is_over() {
        moved |= machine.turn(alloc, Actor::Daemon)?;
    }
    Ok(moved)
}
