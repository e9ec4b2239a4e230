// The turn of a guest that is ready for its line, or whose write waits for a copy.
ghost use Rattle.std.specs.Prelude.{◌≡◌, ◌≢◌, ◌<◌, None, IfSome, IfNone, MatchResult};
ghost use Rattle.neph_model.specs.declared.own.Own.{Own};
ghost use Rattle.neph_model.specs.Programs.{command_in};
ghost use Rattle.neph_model.specs.WellFormed.{FitsPage};
ghost use Rattle.neph_pool.specs.World.{World};
ghost use Rattle.neph_memory.specs.Domains.{IsStanding};
ghost use Rattle.neph_hyper.specs.Calls.{Calls};
ghost use Rattle.neph_hyper.specs.Guests.{MayTrap};
ghost use Rattle.neph_guest.specs.OwnHalf.{IsOwnHalf};
ghost use Rattle.neph_guest.specs.Turns.{HasLeafRoom, IsLineInHand, MayAsk};
ghost use Rattle.neph_guest.specs.Turned.{HasTried, HasLacked, HasSpared, HasTrapped, HasUngranted, HasAsked, HasCopied, HasDone, HasTurned};

use crate::copying::copy_turn;
use crate::going::{go_on, refuse};
use crate::live::{Live, Stage};
use crate::local::local_turn;
use crate::row::{CopyTurn, LocalTurn};
use crate::turned::Turned;
use neph_base::{Command, GrantRef, NoMemory, Refusal, Reply};
use neph_hyper::Hyper;
use neph_local::Fork;
use neph_model::Program;
use neph_pool::FramePool;

/// The turn of a guest that runs this program and has no clone in flight. It rests where its domain
/// is paused. Else a write in hand is done, or takes a spare frame, or is refused; and a line is
/// done by itself, waits for a copy, takes a spare frame or is refused, or is asked of the
/// hypervisor. A clone that it begins leaves its fork in `begun`. Only a `map` and a `clone` take
/// memory. After `NoMemory` it is as it was.
pub fn guest_turn<P: FramePool, H: Hyper<P>>(
    live: &mut Live<P>,
    hv: &mut H,
    pool: &mut P,
    program: &Program,
    begun: &mut Option<Fork<P>>,
) -> Result<Turned, NoMemory>
    requires serves { H.calls.Serves pool.old hv.old live.old.local }
    requires stands { IsStanding P.world pool.old live.old.local }
    requires half { (o : Own) × IsOwnHalf P.world pool.old live.old o }
    requires fits { FitsPage (command_in program.now.commands live.old.guest.line) }
    requires room { command_in program.now.commands live.old.guest.line ≢ Command.Exit
        → live.old.guest.line < 65535 }
    requires leaf { HasLeafRoom P.world pool.old live.old.local
        (command_in program.now.commands live.old.guest.line) }
    requires quiet { live.old.guest.stage ≢ Stage.Forking }
    requires copying { live.old.guest.stage ≡ Stage.Copying → IsLineInHand P.world pool.old
        live.old.local (command_in program.now.commands live.old.guest.line) }
    requires none { begun.old ≡ None }
    ensures { HasTurned P.world H.calls pool.old hv.old live.old pool.new hv.new live.new
        program.now begun.new result }
{
    if hv.is_paused(live.local.id) {
        return Ok(Turned::Rests);
    }
    let Some(command) = command_at(program, live.guest.line) else {
        return Ok(Turned::Ends);
    };
    match live.guest.stage {
        Stage::Copying => Ok(copying_turn(live, hv, pool, command)),
        _ => ready_turn(live, hv, pool, program, command, begun),
    }
}

/// Ends a guest, whose line is its exit. Takes no memory.
pub fn end_turn<P: FramePool, H: Hyper<P>>(live: Live<P>, hv: &mut H, pool: &mut P) -> Reply
    requires serves { H.calls.Serves pool.old hv.old live.local }
    requires stands { IsStanding P.world pool.old live.local }
    ensures reply { result ≡ Reply.Ended }
    ensures ended { H.calls.Ended pool.old hv.old live.local pool.new hv.new }
{
    hv.end_domain(pool, live.local)
}

// The command at a line of a program, unless it is an exit. Behind the last there is one that isn't
// written.
fn command_at(program: &Program, line: u16) -> Option<&Command>
    ensures written { IfSome result (λ c. command_in program.now.commands line ≡ c.now) }
    ensures far { IfSome result (λ c. c.now ≢ Command.Exit) }
    ensures exit { IfNone result (command_in program.now.commands line ≡ Command.Exit) }
{
    match program.commands.items().get(line as usize) {
        Some(Command::Exit) => None,
        written => written,
    }
}

// The turn of a guest that is ready for its line, which isn't its exit.
fn ready_turn<P: FramePool, H: Hyper<P>>(
    live: &mut Live<P>,
    hv: &mut H,
    pool: &mut P,
    program: &Program,
    command: &Command,
    begun: &mut Option<Fork<P>>,
) -> Result<Turned, NoMemory>
    requires serves { H.calls.Serves pool.old hv.old live.old.local }
    requires stands { IsStanding P.world pool.old live.old.local }
    requires half { (o : Own) × IsOwnHalf P.world pool.old live.old o }
    requires fits { FitsPage command.now }
    requires far { command.now ≢ Command.Exit }
    requires room { live.old.guest.line < 65535 }
    requires leaf { HasLeafRoom P.world pool.old live.old.local command.now }
    requires none { begun.old ≡ None }
    ensures { HasDone P.world H.calls pool.old hv.old live.old pool.new hv.new live.new
        program.now command.now begun.new result }
{
    match try_line(pool, live, program, command) {
        Ok(LocalTurn::Did(reply)) => Ok(Turned::Did(reply)),
        Ok(LocalTurn::Copies) => Ok(Turned::Moves),
        Ok(LocalTurn::LacksFrame) => Ok(spare_turn(live, hv, pool)),
        Ok(LocalTurn::Asks) => ask_turn(live, hv, pool, command, begun),
        Err(lacks) => Err(lacks),
    }
}

// Tries the line of a guest that is ready for it by itself.
fn try_line<P: FramePool>(
    pool: &mut P,
    live: &mut Live<P>,
    program: &Program,
    command: &Command,
) -> Result<LocalTurn, NoMemory>
    requires stands { IsStanding P.world pool.old live.old.local }
    requires fits { FitsPage command.now }
    requires room { live.old.guest.line < 65535 }
    requires leaf { HasLeafRoom P.world pool.old live.old.local command.now }
    ensures { MatchResult result
        (λ turn. HasTried P.world pool.old live.old pool.new live.new program.now command.now turn)
        (λ lacks. HasLacked P.world pool.old live.old pool.new live.new command.now) }
{
    local_turn(pool, live, program, command)
}

// The turn of a guest whose write, which is its line, waits for a copy.
fn copying_turn<P: FramePool, H: Hyper<P>>(
    live: &mut Live<P>,
    hv: &mut H,
    pool: &mut P,
    command: &Command,
) -> Turned
    requires serves { H.calls.Serves pool.old hv.old live.old.local }
    requires stands { IsStanding P.world pool.old live.old.local }
    requires fits { FitsPage command.now }
    requires room { live.old.guest.line < 65535 }
    requires copying { live.old.guest.stage ≡ Stage.Copying }
    requires line { IsLineInHand P.world pool.old live.old.local command.now }
    ensures { HasCopied P.world H.calls pool.old hv.old live.old pool.new hv.new live.new
        command.now result }
{
    match copy_turn(pool, live, command) {
        CopyTurn::Did(reply) => Turned::Did(reply),
        CopyTurn::LacksFrame => spare_turn(live, hv, pool),
    }
}

// A guest whose line needs a frame asks for one, or is refused where none is free.
fn spare_turn<P: FramePool, H: Hyper<P>>(live: &mut Live<P>, hv: &mut H, pool: &mut P) -> Turned
    requires serves { H.calls.Serves pool.old hv.old live.old.local }
    requires stands { IsStanding P.world pool.old live.old.local }
    requires none { live.old.local.own.spare ≡ None }
    requires room { live.old.guest.line < 65535 }
    ensures { HasSpared P.world H.calls pool.old hv.old live.old pool.new hv.new live.new result }
{
    if hv.spare(pool, &mut live.local) {
        return Turned::Moves;
    }
    let reply = refuse(pool, live, Refusal::NoFrame);
    Turned::Did(reply)
}

// A guest asks its line of the hypervisor.
fn ask_turn<P: FramePool, H: Hyper<P>>(
    live: &mut Live<P>,
    hv: &mut H,
    pool: &mut P,
    command: &Command,
    begun: &mut Option<Fork<P>>,
) -> Result<Turned, NoMemory>
    requires serves { H.calls.Serves pool.old hv.old live.old.local }
    requires stands { IsStanding P.world pool.old live.old.local }
    requires fits { FitsPage command.now }
    requires asks { MayAsk P.world pool.old live.old.local command.now }
    requires room { live.old.guest.line < 65535 }
    requires none { begun.old ≡ None }
    ensures { HasAsked P.world H.calls pool.old hv.old live.old pool.new hv.new live.new
        command.now begun.new result }
{
    match command {
        Command::Ungrant { reference } => Ok(ungrant_turn(live, hv, pool, *reference)),
        _ => trap_turn(live, hv, pool, command, begun),
    }
}

// A guest asks the hypervisor to take an entry of its grants away.
fn ungrant_turn<P: FramePool, H: Hyper<P>>(
    live: &mut Live<P>,
    hv: &mut H,
    pool: &mut P,
    reference: GrantRef,
) -> Turned
    requires serves { H.calls.Serves pool.old hv.old live.old.local }
    requires stands { IsStanding P.world pool.old live.old.local }
    requires room { live.old.guest.line < 65535 }
    ensures { HasUngranted P.world H.calls pool.old hv.old live.old pool.new hv.new live.new
        reference result }
{
    let reply = hv.ungrant(pool, &mut live.local, reference);
    go_on(pool, live, &reply);
    Turned::Did(reply)
}

// A guest asks a line by which no page comes home of the hypervisor.
fn trap_turn<P: FramePool, H: Hyper<P>>(
    live: &mut Live<P>,
    hv: &mut H,
    pool: &mut P,
    command: &Command,
    begun: &mut Option<Fork<P>>,
) -> Result<Turned, NoMemory>
    requires serves { H.calls.Serves pool.old hv.old live.old.local }
    requires stands { IsStanding P.world pool.old live.old.local }
    requires fits { FitsPage command.now }
    requires asks { MayTrap P.world pool.old live.old.local command.now }
    requires room { live.old.guest.line < 65535 }
    requires none { begun.old ≡ None }
    ensures { HasTrapped P.world H.calls pool.old hv.old live.old pool.new hv.new live.new
        command.now begun.new result }
{
    let reply = hv.trap(pool, &mut live.local, command, begun)?;
    go_on(pool, live, &reply);
    Ok(Turned::Did(reply))
}
