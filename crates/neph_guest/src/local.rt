// A line that a guest does by itself.
ghost use Rattle.std.specs.Prelude.{◌≡◌, ◌<◌, ℕ, Some, IfOk, OnErr};
ghost use Rattle.neph_model.specs.declared.own.Own.{Own};
ghost use Rattle.neph_model.specs.declared.script.Script.{Script};
ghost use Rattle.neph_model.specs.declared.told.Told.TheVariants.{Enough};
ghost use Rattle.neph_model.specs.Own.{local_step};
ghost use Rattle.neph_model.specs.Programs.{program_at};
ghost use Rattle.neph_model.specs.WellFormed.{FitsPage};
ghost use Rattle.neph_pool.specs.World.{World, SameCounts};
ghost use Rattle.neph_memory.specs.Domains.{IsStanding, KeepsSeats, IsUnchanged};
ghost use Rattle.neph_guest.specs.OwnHalf.{IsOwnHalf};
ghost use Rattle.neph_guest.specs.Turns.{TurnDoneOrLacks, HandDone, LookDone, HasLeafRoom, HeldSpare, IsMap, IsWithoutSpare, spare_after, stage_after};

use crate::jump::jump;
use crate::live::Live;
use crate::memory::memory_row;
use crate::row::{LocalTurn, settle};
use neph_base::{Command, NoMemory};
use neph_model::Program;
use neph_pool::FramePool;

/// Does the command at the line of a guest that is ready for it and runs this program, as far as
/// it can do so by itself. Only a `map` takes memory. After `NoMemory` nothing has changed.
pub fn local_turn<P: FramePool>(
    pool: &mut P,
    live: &mut Live<P>,
    program: &Program,
    command: &Command,
) -> Result<LocalTurn, NoMemory>
    requires stands { IsStanding P.world pool.old live.old.local }
    requires fits { FitsPage command.now }
    requires room { live.old.guest.line < 65535 }
    requires cap { HasLeafRoom P.world pool.old live.old.local command.now }
    ensures stands { IsStanding P.world pool.new live.new.local }
    ensures turn { (s : Script) (p : ℕ) (o : Own) → program_at s p ≡ Some program.now
        → IsOwnHalf P.world pool.old live.old o
        → TurnDoneOrLacks (IsOwnHalf P.world pool.new live.new) o command.now
        (local_step s p o Enough command.now) result }
    ensures hand { IfOk result (λ turn. HandDone P.world pool.new live.new.local command.now
        live.old.local.hand turn) }
    ensures look { IfOk result (λ turn. LookDone P.world pool.old live.old.local live.new.local.own
        command.now turn) }
    ensures spare { IfOk result (λ turn. live.new.local.own.spare
        ≡ spare_after P.world pool.old live.old.local command.now turn) }
    ensures held { IfOk result (λ turn. HeldSpare P.world pool.old live.old.local command.now
        turn) }
    ensures lacks { IfOk result (λ turn. IsWithoutSpare turn live.old.local.own.spare) }
    ensures stage { IfOk result (λ turn. live.new.guest.stage
        ≡ stage_after live.old.guest.stage turn) }
    ensures map { OnErr result (IsMap command.now) }
    ensures memory { OnErr result
        (IsUnchanged P.world pool.old live.old.local pool.new live.new.local) }
    ensures guest { OnErr result (live.new.guest ≡ live.old.guest) }
    ensures pages { live.new.local.own.map.pages ≡ live.old.local.own.map.pages }
    ensures dom { live.new.guest.dom ≡ live.old.guest.dom }
    ensures id { live.new.local.id ≡ live.old.local.id }
    ensures moves { KeepsSeats P.world pool.old live.old.local pool.new live.new.local }
    ensures counts { SameCounts P.world pool.old pool.new }
{
    match jump(&mut live.guest, program, command) {
        Some(reply) => Ok(LocalTurn::Did(reply)),
        None => {
            let row = memory_row(pool, &mut live.local, command)?;
            Ok(settle(&mut live.guest, row))
        }
    }
}
