// One domain that starts.
ghost use Rattle.std.specs.Prelude.{◌≡◌, ◌≢◌, ◌+◌, ◌<◌, ◌≤◌, [], true, OnOk, length};
ghost use Rattle.neph_model.specs.Start.{started_512s};
ghost use Rattle.neph_pool.specs.World.{World};
ghost use Rattle.neph_memory.specs.declared.room.TheConstants.{MAX_HELD};
ghost use Rattle.neph_heap.specs.Heap.{IsHeap};
ghost use Rattle.neph_heap.specs.Lists.{exposed_of};
ghost use Rattle.neph_boot.specs.Opening.{HasOpened, start_guest};

use neph_base::{DomId, NoMemory};
use neph_guest::{Guest, Live, Stage};
use neph_local::start;
use neph_machine::{Machine, put_live};
use neph_memory::MAX_HELD;
use neph_pool::FramePool;
use std::alloc::Global;

/// Starts a domain of so many pages in the place of an id: its device pages are exposed, and every
/// other lies in a frame of its own. Takes memory.
pub fn open_domain<P: FramePool>(
    alloc: Global,
    m: &mut Machine<P>,
    id: DomId,
    pages: u16,
) -> Result<(), NoMemory>
    requires heap { IsHeap P.world m.old.pool m.old.hv.heap.seat m.old.hv.heap.stock [] }
    requires places { length m.old.places.items ≡ 64 }
    requires name { P.world.names m.old.hv.heap.seat id ≡ true }
    requires other { id ≢ 0 }
    requires none { exposed_of id m.old.hv.heap.stock ≡ [] }
    requires free { pages + 1 + started_512s pages ≤ length m.old.hv.heap.stock.free }
    requires cap { MAX_HELD ≤ P.world.cap m.old.pool }
    requires many { 8 ≤ pages }
    requires few { pages ≤ 1024 }
    ensures { OnOk result (HasOpened P.world m.old m.new id pages) }
{
    m.hv.heap.expose_devices(&mut m.pool, id)?;
    let count = pages - 2 + (pages + 511) / 512;
    let made = m.hv.heap.fresh_seat(&mut m.pool, id, count)?;
    let (seat, frames) = made;
    let local = start(alloc, &mut m.pool, seat, id, frames, pages)?;
    let guest = start_guest(id);
    put_live(&mut m.places, id, Live { guest, local });
    Ok(())
}

// The guest of a starting domain.
fn start_guest(dom: DomId) -> Guest
    ensures { result ≡ start_guest dom }
{
    Guest {
        dom,
        line: 0,
        came: false,
        failed: false,
        stage: Stage::Ready,
    }
}
