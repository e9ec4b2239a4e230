// How a guest goes on behind an answer of the hypervisor.
ghost use Rattle.std.specs.Prelude.{◌≡◌, ◌≢◌, ◌<◌, None, Err};
ghost use Rattle.neph_base.specs.declared.command.Command.{Command};
ghost use Rattle.neph_base.specs.declared.command.Command.TheVariants as command;
ghost use Rattle.neph_model.specs.declared.own.Own.{Own};
ghost use Rattle.neph_model.specs.Own.{settle};
ghost use Rattle.neph_model.specs.Lent.{own_behind};
ghost use Rattle.neph_pool.specs.World.{World};
ghost use Rattle.neph_guest.specs.OwnHalf.{IsOwnHalf};
ghost use Rattle.neph_guest.specs.Turns.{Settles, stage_behind};

use crate::live::{Live, Stage};
use neph_base::{Refusal, Reply};
use neph_pool::FramePool;

/// Goes on behind a line that is refused. A write that was in hand is given up.
pub fn refuse<P: FramePool>(pool: &P, live: &mut Live<P>, why: Refusal) -> Reply
    requires room { live.old.guest.line < 65535 }
    ensures half { (o : Own) → IsOwnHalf P.world pool.now live.old o
        → Settles (IsOwnHalf P.world pool.now live.new) (settle o (Err why)) result }
    ensures local { live.new.local ≡ record live.old.local { hand = None } }
    ensures stage { live.new.guest.stage ≡ Stage.Ready }
    ensures dom { live.new.guest.dom ≡ live.old.guest.dom }
{
    live.local.hand = None;
    live.guest.line += 1;
    live.guest.failed = true;
    live.guest.stage = Stage::Ready;
    Reply::Refused(why)
}

/// Goes on behind a call of the hypervisor that was answered so and gave no page back. A clone that
/// was begun stays at its line until its commit. The guest of an `exit` is no more.
pub fn go_on<P: FramePool>(pool: &P, live: &mut Live<P>, reply: &Reply)
    requires room { live.old.guest.line < 65535 }
    ensures half { (o : Own) (c : Command) → c ≢ command.Exit
        → IsOwnHalf P.world pool.now live.old o
        → IsOwnHalf P.world pool.now live.new (own_behind o c reply.now None) }
    ensures local { live.new.local ≡ live.old.local }
    ensures stage { live.new.guest.stage ≡ stage_behind live.old.guest.stage reply.now }
    ensures dom { live.new.guest.dom ≡ live.old.guest.dom }
{
    match reply {
        Reply::Begun(_) => {
            live.guest.failed = false;
            live.guest.stage = Stage::Forking;
        }
        Reply::Refused(_) => {
            live.guest.line += 1;
            live.guest.failed = true;
        }
        _ => {
            live.guest.line += 1;
            live.guest.failed = false;
        }
    }
}
