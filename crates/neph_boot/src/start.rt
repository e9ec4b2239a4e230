// The machine at the start of its script.
ghost use Rattle.std.specs.Prelude.{◌≡◌, ◌+◌, ◌<◌, ◌≤◌, ℕ, true, IfOk, OnOk, length};
ghost use Rattle.neph_model.specs.Books.{start_state};
ghost use Rattle.neph_model.specs.WellFormed.{IsWellFormed};
ghost use Rattle.neph_pool.specs.Entries.{IsZeroAt};
ghost use Rattle.neph_pool.specs.World.{World};
ghost use Rattle.neph_memory.specs.declared.room.TheConstants.{MAX_HELD};
ghost use Rattle.neph_machine.specs.StandsFor.{StandsFor};
ghost use Rattle.neph_machine.specs.Surveyed.{IsSurveyed};
ghost use Rattle.neph_boot.specs.Opening.{IsOpening, Keeps};

use crate::blank::blank_machine;
use crate::domain::open_domain;
use neph_base::{DomId, NoMemory};
use neph_machine::Machine;
use neph_memory::MAX_HELD;
use neph_model::Script;
use neph_pool::FramePool;
use std::alloc::Global;

/// The machine of a script at its start, over a pool of the script's frames and the seat that keeps
/// all of them: each domain line has a live domain, with the pages of its line, its exposed device
/// pages and its identity page; no frame is shared. Takes memory, and an error is the want of it.
pub fn boot<P: FramePool + Drop>(
    alloc: Global,
    script: Script,
    pool: P,
    seat: P::Seat,
) -> Result<Machine<P>, NoMemory>
    requires surveyed { IsSurveyed P.world }
    requires formed { IsWellFormed script }
    requires frames { P.world.frames pool ≡ script.frames }
    requires cap { MAX_HELD ≤ P.world.cap pool }
    requires fits { P.world.fits pool seat }
    requires names { (d : ℕ) → d < 64 → P.world.names seat d ≡ true }
    requires zero { (f : ℕ) → f < script.frames → IsZeroAt (P.world.entries pool seat) f }
    ensures stands { IfOk result (λ m. StandsFor P.world m (start_state script)) }
    ensures script { IfOk result (λ m. m.script ≡ script) }
    ensures shares { IfOk result (λ m. P.world.shares m.pool ≡ P.world.shares pool) }
{
    let mut m = blank_machine(alloc, script, pool, seat)?;
    open_lines(alloc, &mut m)?;
    Ok(m)
}

// Starts the domain of each line.
fn open_lines<P: FramePool>(alloc: Global, m: &mut Machine<P>) -> Result<(), NoMemory>
    requires formed { IsWellFormed m.old.script }
    requires opening { IsOpening P.world m.old 0 }
    ensures opening { OnOk result (IsOpening P.world m.new (length m.new.script.starts)) }
    ensures kept { OnOk result (Keeps P.world m.old m.new) }
{
    for n in 0..m.script.starts.items().len() {
        open_line(alloc, m, n)?;
    }
    Ok(())
}

// Starts the domain of the line with this number, counted from 0.
fn open_line<P: FramePool>(alloc: Global, m: &mut Machine<P>, n: usize) -> Result<(), NoMemory>
    requires formed { IsWellFormed m.old.script }
    requires opening { IsOpening P.world m.old n }
    requires line { n < length m.old.script.starts }
    ensures opening { OnOk result (IsOpening P.world m.new (n + 1)) }
    ensures kept { OnOk result (Keeps P.world m.old m.new) }
{
    let pages = m.script.starts.items()[n].pages;
    let id = DomId::new(n as u32 + 1).unwrap();
    open_domain(alloc, m, id, pages)
}
