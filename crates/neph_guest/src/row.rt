// What a line of a guest comes to.
ghost use Rattle.std.specs.Prelude.{◌≡◌, ◌<◌};
ghost use Rattle.neph_guest.specs.Turns.{IsRowOfMap, row_of_write, row_of_read, row_of_unmap, turn_of, guest_after};

use crate::live::{Guest, Stage};
use neph_base::{NoMemory, Piece, Refusal, Reply};
use neph_memory::{MapFault, Touch, WriteStep};

/// What a command comes to by itself.
#[derive(Clone, Copy, Debug, PartialEq, Eq)]
pub enum Row {
    /// It is done, and answered so.
    Does(Reply),
    /// It is refused.
    Refuses(Refusal),
    /// The hypervisor has to be asked.
    Asks,
    /// It is a write into a page that other domains may have: it is in hand.
    Copies,
    /// It is a `map` that needs a leaf table, and no spare frame is held.
    LacksFrame,
}

/// What a turn of a guest that is ready for its line comes to, without the hypervisor.
#[derive(Clone, Copy, Debug, PartialEq, Eq)]
pub enum LocalTurn {
    /// The line is done or refused, and the guest has gone on.
    Did(Reply),
    /// The hypervisor has to be asked. Nothing has changed.
    Asks,
    /// Its write found another reference of its page's frame, and is in hand.
    Copies,
    /// Its `map` needs a leaf table, and no spare frame is held. Nothing has changed.
    LacksFrame,
}

/// What a turn of a guest whose write is in hand comes to.
#[derive(Clone, Copy, Debug, PartialEq, Eq)]
pub enum CopyTurn {
    /// The write is done, and the guest has gone on.
    Did(Reply),
    /// Another domain has the page too, and no spare frame is held. Nothing has changed.
    LacksFrame,
}

/// What a write that came so far comes to.
pub fn row_of_write(step: WriteStep) -> Row
    ensures { result ≡ row_of_write step }
{
    match step {
        WriteStep::Done => Row::Does(Reply::Done),
        WriteStep::Copying => Row::Copies,
        WriteStep::Unmapped => Row::Refuses(Refusal::Unmapped),
        WriteStep::ReadOnly => Row::Refuses(Refusal::ReadOnly),
        WriteStep::Exposed(_) => Row::Asks,
    }
}

/// What a read that was answered so comes to.
pub fn row_of_read(answer: Result<Piece, Touch>) -> Row
    ensures { result ≡ row_of_read answer }
{
    match answer {
        Ok(bytes) => Row::Does(Reply::Bytes(bytes)),
        Err(Touch::Unmapped) => Row::Refuses(Refusal::Unmapped),
        Err(Touch::Exposed(_)) => Row::Asks,
    }
}

/// What a `map` that was answered so comes to.
pub fn row_of_map(answer: Result<(), MapFault>) -> Result<Row, NoMemory>
    ensures { IsRowOfMap answer result }
{
    match answer {
        Ok(()) => Ok(Row::Does(Reply::Done)),
        Err(MapFault::BadPfn) => Ok(Row::Refuses(Refusal::BadPfn)),
        Err(MapFault::NeedSpare) => Ok(Row::LacksFrame),
        Err(MapFault::NoMemory) => Err(NoMemory),
    }
}

/// What an `unmap` that found a mapping or not comes to.
pub fn row_of_unmap(found: bool) -> Row
    ensures { result ≡ row_of_unmap found }
{
    if found {
        Row::Does(Reply::Done)
    } else {
        Row::Refuses(Refusal::Unmapped)
    }
}

/// Goes on to the next line where the command is done or refused, and marks which of the two.
pub fn settle(guest: &mut Guest, row: Row) -> LocalTurn
    requires room { guest.old.line < 65535 }
    ensures turn { result ≡ turn_of row }
    ensures guest { guest.new ≡ guest_after guest.old row }
{
    match row {
        Row::Does(reply) => {
            guest.line += 1;
            guest.failed = false;
            LocalTurn::Did(reply)
        }
        Row::Refuses(why) => {
            guest.line += 1;
            guest.failed = true;
            LocalTurn::Did(Reply::Refused(why))
        }
        Row::Asks => LocalTurn::Asks,
        Row::Copies => {
            guest.stage = Stage::Copying;
            LocalTurn::Copies
        }
        Row::LacksFrame => LocalTurn::LacksFrame,
    }
}
