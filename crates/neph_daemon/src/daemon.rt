// One move of the clone daemon.
ghost use Rattle.std.specs.Prelude.{◌≡◌, [], Ok, IfOk, OnErr};
ghost use Rattle.neph_daemon.specs.StageTwo.{DaemonMoves};

use neph_base::{DomId, NoMemory};
use neph_clone::TwoStage;

/// What the daemon did.
#[derive(Clone, Copy, Debug, PartialEq, Eq)]
pub enum Daemon {
    /// It joined this child.
    Did(DomId),
    /// No child waits.
    Idle,
}

/// Joins the child that has waited longest, or is idle exactly where none waits. After `NoMemory`
/// the machine is as it was before; to be idle takes no memory.
pub fn stage_two<H: TwoStage>(h: &mut H) -> Result<Daemon, NoMemory>
    ensures moves { IfOk result (DaemonMoves H.children H.joins h.old h.new) }
    ensures idle { H.children h.old ≡ [] → result ≡ Ok Daemon.Idle }
    ensures err { OnErr result (h.new ≡ h.old) }
{
    let Some(child) = h.waiting() else {
        return Ok(Daemon::Idle);
    };
    h.finish(child)?;
    Ok(Daemon::Did(child))
}
