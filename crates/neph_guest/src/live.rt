// A guest that is live, and how its line and marks go on.
ghost use Rattle.std.specs.Prelude.{◌≡◌, ◌<◌, ◌+◌, None, true, false, if◌then◌else◌};
ghost use Rattle.neph_base.specs.declared.command.Command.{Command};
ghost use Rattle.neph_model.specs.declared.own.Own.{Own};

use neph_base::DomId;
use neph_memory::DomLocal;
use neph_pool::FramePool;

/// How far a guest is with its line.
#[derive(Clone, Copy, Debug, PartialEq, Eq)]
pub enum Stage {
    /// It is ready for it.
    Ready,
    /// Its write waits for a copy of its page.
    Copying,
    /// It has begun a clone, which is not committed.
    Forking,
}

/// A guest beside its memory.
#[derive(Clone, Copy, Debug, PartialEq, Eq)]
pub struct Guest {
    /// Its domain.
    pub dom: DomId,
    /// The number of its next line.
    pub line: u16,
    /// Whether it came as a child, and has committed no clone since.
    pub came: bool,
    /// Whether its last command that was no jump was refused.
    pub failed: bool,
    /// How far it is with its line.
    pub stage: Stage,
}

/// A live guest.
#[derive(Drop)]
pub struct Live<P: FramePool> {
    /// Its line and its marks.
    pub guest: Guest,
    /// Its memory.
    pub local: DomLocal<P>,
}
