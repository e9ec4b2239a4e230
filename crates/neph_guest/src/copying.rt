// A write that waits for a copy of its page.
ghost use Rattle.std.specs.Prelude.{◌≡◌, ◌<◌, ℕ};
ghost use Rattle.neph_model.specs.declared.own.Own.{Own};
ghost use Rattle.neph_model.specs.declared.script.Script.{Script};
ghost use Rattle.neph_model.specs.declared.told.Told.TheVariants.{Enough};
ghost use Rattle.neph_model.specs.Own.{local_step};
ghost use Rattle.neph_model.specs.WellFormed.{FitsPage};
ghost use Rattle.neph_pool.specs.World.{World};
ghost use Rattle.neph_memory.specs.Domains.{IsStanding, KeepsSeats};
ghost use Rattle.neph_guest.specs.OwnHalf.{IsOwnHalf};
ghost use Rattle.neph_guest.specs.Turns.{IsLineInHand, CopyDone, PlaceDone, hand_after_copy, stage_after_copy};

use crate::live::{Live, Stage};
use crate::row::CopyTurn;
use neph_base::{Command, Reply};
use neph_pool::FramePool;

/// Does the write in hand of a guest, whose line it is. Where a look finds that no other domain has
/// the page, it is done in place. Else the page moves into the spare frame.
pub fn copy_turn<P: FramePool>(pool: &mut P, live: &mut Live<P>, command: &Command) -> CopyTurn
    requires stands { IsStanding P.world pool.old live.old.local }
    requires fits { FitsPage command.now }
    requires room { live.old.guest.line < 65535 }
    requires copying { live.old.guest.stage ≡ Stage.Copying }
    requires line { IsLineInHand P.world pool.old live.old.local command.now }
    ensures stands { IsStanding P.world pool.new live.new.local }
    ensures turn { (s : Script) (p : ℕ) (o : Own) → IsOwnHalf P.world pool.old live.old o
        → CopyDone (IsOwnHalf P.world pool.new live.new) o (local_step s p o Enough command.now)
        result }
    ensures place { PlaceDone P.world pool.old live.old.local pool.new live.new.local result }
    ensures waits { result ≡ CopyTurn.LacksFrame
        → IsLineInHand P.world pool.new live.new.local command.now }
    ensures guest { result ≡ CopyTurn.LacksFrame → live.new.guest ≡ live.old.guest }
    ensures hand { live.new.local.hand ≡ hand_after_copy live.old.local.hand result }
    ensures stage { live.new.guest.stage ≡ stage_after_copy result }
    ensures dom { live.new.guest.dom ≡ live.old.guest.dom }
    ensures id { live.new.local.id ≡ live.old.local.id }
    ensures moves { KeepsSeats P.world pool.old live.old.local pool.new live.new.local }
    ensures shares { P.world.shares pool.new ≡ P.world.shares pool.old }
{
    let write = live.local.hand.unwrap();
    let alone = live.local.look_page(pool, write.pfn);
    if !alone && !live.local.has_spare() {
        return CopyTurn::LacksFrame;
    }
    let Ok(()) = live.local.finish_write(pool) else {
        unreachable!();
    };
    live.guest.line += 1;
    live.guest.failed = false;
    live.guest.stage = Stage::Ready;
    CopyTurn::Did(Reply::Done)
}
