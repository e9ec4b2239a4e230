// The machine before its first domain.
ghost use Rattle.std.specs.Prelude.{◌≡◌, ◌<◌, ◌≤◌, ℕ, true, IfOk, replicate};
ghost use Rattle.neph_model.specs.Start.{start_machine};
ghost use Rattle.neph_model.specs.WellFormed.{IsWellFormed};
ghost use Rattle.neph_pool.specs.Entries.{IsZeroAt};
ghost use Rattle.neph_pool.specs.World.{World};
ghost use Rattle.neph_memory.specs.declared.room.TheConstants.{MAX_HELD};
ghost use Rattle.neph_rows.specs.Records.{records_in};
ghost use Rattle.neph_boot.specs.Opening.{IsOpening};

use neph_base::{IDS, NoMemory};
use neph_flat::start_registry;
use neph_heap::Heap;
use neph_hv::Hv;
use neph_machine::{Machine, Place};
use neph_memory::MAX_HELD;
use neph_model::Script;
use neph_pool::FramePool;
use std::alloc::Global;

/// The machine of a script before its first domain: each frame is free, and each place is empty.
pub fn blank_machine<P: FramePool + Drop>(
    alloc: Global,
    script: Script,
    pool: P,
    seat: P::Seat,
) -> Result<Machine<P>, NoMemory>
    requires formed { IsWellFormed script }
    requires frames { P.world.frames pool ≡ script.frames }
    requires cap { MAX_HELD ≤ P.world.cap pool }
    requires fits { P.world.fits pool seat }
    requires names { (d : ℕ) → d < 64 → P.world.names seat d ≡ true }
    requires zero { (f : ℕ) → f < script.frames → IsZeroAt (P.world.entries pool seat) f }
    ensures opening { IfOk result (λ m. IsOpening P.world m 0) }
    ensures script { IfOk result (λ m. m.script ≡ script) }
    ensures registry { IfOk result
        (λ m. m.hv.registry ≡ records_in (start_machine script).shared) }
    ensures shares { IfOk result (λ m. P.world.shares m.pool ≡ P.world.shares pool) }
{
    let heap = Heap::start(alloc, &pool, seat, script.frames)?;
    let registry = start_registry(alloc, &script)?;
    let places = no_places(alloc)?;
    Ok(Machine {
        script,
        pool,
        hv: Hv { registry, heap },
        places,
    })
}

// A place for each id, all empty.
fn no_places<P: FramePool>(alloc: Global) -> Result<Vec<Place<P>>, NoMemory>
    ensures { IfOk result (λ v. v.items ≡ replicate 64 Place.Empty) }
{
    let mut places = Vec::with_capacity(alloc, IDS)?;
    for _ in 0..IDS {
        places.push(Place::Empty)?;
    }
    Ok(places)
}
