// What is answered, and to what.
use crate::list::TryClone;
use crate::memory::NoMemory;
use crate::numbers::DomId;
use crate::piece::Piece;

/// Who has a turn.
#[derive(Clone, Copy, Debug, PartialEq, Eq)]
pub enum Actor {
    /// A domain.
    Dom(DomId),
    /// The clone daemon.
    Daemon,
    /// The console backend.
    Console,
    /// The switch.
    Net,
    /// The 9P server.
    P9,
}

impl TryClone for Actor {
    fn try_clone(&self) -> Result<Self, NoMemory> {
        Ok(*self)
    }
}

/// What was done.
#[derive(Clone, Copy, Debug, PartialEq, Eq)]
pub enum Entry {
    /// The command at a line of a domain's program.
    Line { dom: DomId, line: u16 },
    /// The commit of the clone that a domain began at a line.
    Commit { dom: DomId, line: u16 },
    /// The second stage of the oldest committed clone.
    Daemon,
}

/// Why a command was refused.
#[derive(Clone, Copy, Debug, PartialEq, Eq)]
pub enum Refusal {
    /// Nothing is mapped at the address.
    Unmapped,
    /// The page is mapped read-only.
    ReadOnly,
    /// The guest has no such page, or it may not be mapped writable.
    BadPfn,
    /// No frame is free for the copy or the leaf table that is needed.
    NoFrame,
    /// The domain has made as many clones as it may.
    Limit,
    /// Every id was given.
    Ids,
    /// A domain that has its network page to itself is not cloned.
    PolicyNet,
    /// A domain whose 9P page holds an unanswered request is not cloned.
    PolicyP9,
    /// The clone needs more frames than are free.
    Frames { need: u32, free: u32 },
    /// The domain's grant table has no such entry.
    NoGrant,
    /// The entry is mapped, or is one of those that a domain starts with.
    Busy,
    /// The granter has no such entry, or was never live.
    NoEntry,
    /// The entry lets in other domains.
    NotYours,
    /// The granter has ended.
    Gone,
    /// Every handle is held.
    HandlesFull,
    /// The handle isn't held.
    NoHandle,
}

/// What an entry was answered.
#[derive(Clone, Copy, Debug, PartialEq, Eq)]
pub enum Reply {
    /// It was done.
    Done,
    /// The jump was taken.
    Go,
    /// The jump was not taken.
    On,
    /// The domain ended.
    Ended,
    /// A count.
    Number(u32),
    /// A clone was begun, whose child will have this id.
    Begun(DomId),
    /// The clone with this id was committed, or is joined to the devices.
    Child(DomId),
    /// The bytes that were read.
    Bytes(Piece),
    /// It was refused.
    Refused(Refusal),
}

/// An entry and its reply.
#[derive(Clone, Copy, Debug, PartialEq, Eq)]
pub struct Noted {
    pub entry: Entry,
    pub reply: Reply,
}
