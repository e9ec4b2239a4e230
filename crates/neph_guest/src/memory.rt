// What a command does to the memory of its domain, by itself.
ghost use Rattle.std.specs.Prelude.{◌≡◌, ◌+◌, ◌%◌, ◌<◌, ◌≤◌, length, IfOk, OnErr};
ghost use Rattle.neph_base.specs.declared.command.Command.TheVariants as command;
ghost use Rattle.neph_model.specs.declared.own.Own.{Own};
ghost use Rattle.neph_model.specs.WellFormed.{FitsPage};
ghost use Rattle.neph_pool.specs.World.{World, SameCounts};
ghost use Rattle.neph_memory.specs.Domains.{IsStanding, KeepsSeats, IsUnchanged};
ghost use Rattle.neph_guest.specs.OwnHalf.{IsOwnMemory};
ghost use Rattle.neph_guest.specs.Turns.{RowDone, RowDoneOrLacks, HandDone, LookDone, HasLeafRoom, HeldSpare, IsMap, IsWithoutSpare, memory_step, spare_after, turn_of};

use crate::row::{Row, row_of_map, row_of_read, row_of_unmap, row_of_write};
use neph_base::{Command, Mode, NoMemory, PAGE_BYTES, Pfn, Piece, VAddr, Vpn};
use neph_memory::DomLocal;
use neph_pool::FramePool;

// Writes bytes at an address.
fn write<P: FramePool>(pool: &mut P, d: &mut DomLocal<P>, addr: VAddr, bytes: &Piece) -> Row
    requires stands { IsStanding P.world pool.old d.old }
    requires fits { addr % PAGE_BYTES + length bytes.now ≤ PAGE_BYTES }
    ensures stands { IsStanding P.world pool.new d.new }
    ensures row { (o : Own) → IsOwnMemory P.world pool.old d.old o
        → RowDone (IsOwnMemory P.world pool.new d.new) o (command.W addr bytes.now)
        (memory_step o (command.W addr bytes.now)) result }
    ensures hand { HandDone P.world pool.new d.new (command.W addr bytes.now) d.old.hand
        (turn_of result) }
    ensures look { LookDone P.world pool.old d.old d.new.own (command.W addr bytes.now)
        (turn_of result) }
    ensures pages { d.new.own.map.pages ≡ d.old.own.map.pages }
    ensures spare { d.new.own.spare ≡ d.old.own.spare }
    ensures lacks { IsWithoutSpare (turn_of result) d.old.own.spare }
    ensures id { d.new.id ≡ d.old.id }
    ensures moves { KeepsSeats P.world pool.old d.old pool.new d.new }
    ensures counts { SameCounts P.world pool.old pool.new }
{
    let _number = addr.get();
    let step = d.begin_write(pool, addr, bytes);
    row_of_write(step)
}

// Reads bytes at an address.
fn read<P: FramePool>(pool: &mut P, d: &mut DomLocal<P>, addr: VAddr, len: u8) -> Row
    requires stands { IsStanding P.world pool.old d.old }
    requires some { 0 < len }
    requires few { len ≤ 64 }
    requires fits { addr % PAGE_BYTES + len ≤ PAGE_BYTES }
    ensures stands { IsStanding P.world pool.new d.new }
    ensures row { (o : Own) → IsOwnMemory P.world pool.old d.old o
        → RowDone (IsOwnMemory P.world pool.new d.new) o (command.R addr len)
        (memory_step o (command.R addr len)) result }
    ensures hand { HandDone P.world pool.new d.new (command.R addr len) d.old.hand
        (turn_of result) }
    ensures pages { d.new.own.map.pages ≡ d.old.own.map.pages }
    ensures spare { d.new.own.spare ≡ d.old.own.spare }
    ensures lacks { IsWithoutSpare (turn_of result) d.old.own.spare }
    ensures id { d.new.id ≡ d.old.id }
    ensures moves { KeepsSeats P.world pool.old d.old pool.new d.new }
    ensures counts { SameCounts P.world pool.old pool.new }
{
    let _number = addr.get();
    let answer = d.read(pool, addr, len);
    row_of_read(answer)
}

// Lets a virtual page map to a page, in place of what it mapped to.
fn map<P: FramePool>(
    pool: &mut P,
    d: &mut DomLocal<P>,
    vpn: Vpn,
    pfn: Pfn,
    mode: Mode,
) -> Result<Row, NoMemory>
    requires stands { IsStanding P.world pool.old d.old }
    requires cap { HasLeafRoom P.world pool.old d.old (command.Map vpn pfn mode) }
    ensures stands { IsStanding P.world pool.new d.new }
    ensures row { (o : Own) → IsOwnMemory P.world pool.old d.old o
        → RowDoneOrLacks (IsOwnMemory P.world pool.new d.new) o (command.Map vpn pfn mode)
        (memory_step o (command.Map vpn pfn mode)) result }
    ensures hand { IfOk result (λ row. HandDone P.world pool.new d.new (command.Map vpn pfn mode)
        d.old.hand (turn_of row)) }
    ensures spare { IfOk result (λ row. d.new.own.spare
        ≡ spare_after P.world pool.old d.old (command.Map vpn pfn mode) (turn_of row)) }
    ensures held { IfOk result (λ row. HeldSpare P.world pool.old d.old
        (command.Map vpn pfn mode) (turn_of row)) }
    ensures lacks { IfOk result (λ row. IsWithoutSpare (turn_of row) d.old.own.spare) }
    ensures err { OnErr result (IsUnchanged P.world pool.old d.old pool.new d.new) }
    ensures pages { d.new.own.map.pages ≡ d.old.own.map.pages }
    ensures id { d.new.id ≡ d.old.id }
    ensures moves { KeepsSeats P.world pool.old d.old pool.new d.new }
    ensures counts { SameCounts P.world pool.old pool.new }
{
    let _number = vpn.get();
    let answer = d.map_page(pool, vpn, pfn, mode);
    row_of_map(answer)
}

// Lets a virtual page map to nothing.
fn unmap<P: FramePool>(pool: &mut P, d: &mut DomLocal<P>, vpn: Vpn) -> Row
    requires stands { IsStanding P.world pool.old d.old }
    ensures stands { IsStanding P.world pool.new d.new }
    ensures row { (o : Own) → IsOwnMemory P.world pool.old d.old o
        → RowDone (IsOwnMemory P.world pool.new d.new) o (command.Unmap vpn)
        (memory_step o (command.Unmap vpn)) result }
    ensures hand { HandDone P.world pool.new d.new (command.Unmap vpn) d.old.hand
        (turn_of result) }
    ensures pages { d.new.own.map.pages ≡ d.old.own.map.pages }
    ensures spare { d.new.own.spare ≡ d.old.own.spare }
    ensures lacks { IsWithoutSpare (turn_of result) d.old.own.spare }
    ensures id { d.new.id ≡ d.old.id }
    ensures moves { KeepsSeats P.world pool.old d.old pool.new d.new }
    ensures counts { SameCounts P.world pool.old pool.new }
{
    let _number = vpn.get();
    let found = d.unmap_page(pool, vpn);
    row_of_unmap(found)
}

/// What a command does to the memory of its domain, by itself. The hypervisor has to be asked where
/// it is no command of the memory.
pub fn memory_row<P: FramePool>(
    pool: &mut P,
    d: &mut DomLocal<P>,
    command: &Command,
) -> Result<Row, NoMemory>
    requires stands { IsStanding P.world pool.old d.old }
    requires fits { FitsPage command.now }
    requires cap { HasLeafRoom P.world pool.old d.old command.now }
    ensures stands { IsStanding P.world pool.new d.new }
    ensures row { (o : Own) → IsOwnMemory P.world pool.old d.old o
        → RowDoneOrLacks (IsOwnMemory P.world pool.new d.new) o command.now
        (memory_step o command.now) result }
    ensures hand { IfOk result (λ row. HandDone P.world pool.new d.new command.now d.old.hand
        (turn_of row)) }
    ensures look { IfOk result (λ row. LookDone P.world pool.old d.old d.new.own command.now
        (turn_of row)) }
    ensures spare { IfOk result (λ row. d.new.own.spare
        ≡ spare_after P.world pool.old d.old command.now (turn_of row)) }
    ensures held { IfOk result (λ row. HeldSpare P.world pool.old d.old command.now
        (turn_of row)) }
    ensures lacks { IfOk result (λ row. IsWithoutSpare (turn_of row) d.old.own.spare) }
    ensures err { OnErr result (IsUnchanged P.world pool.old d.old pool.new d.new) }
    ensures map { OnErr result (IsMap command.now) }
    ensures pages { d.new.own.map.pages ≡ d.old.own.map.pages }
    ensures id { d.new.id ≡ d.old.id }
    ensures moves { KeepsSeats P.world pool.old d.old pool.new d.new }
    ensures counts { SameCounts P.world pool.old pool.new }
{
    match command {
        Command::W { addr, bytes } => Ok(write(pool, d, *addr, bytes)),
        Command::R { addr, len } => Ok(read(pool, d, *addr, *len)),
        Command::Map { vpn, pfn, mode } => map(pool, d, *vpn, *pfn, *mode),
        Command::Unmap { vpn } => Ok(unmap(pool, d, *vpn)),
        _ => Ok(Row::Asks),
    }
}
