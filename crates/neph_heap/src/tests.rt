// A life of some frames over the plain pool, each call through its bound.
ghost use Rattle.std.specs.Prelude.{◌≡◌, ◌≤◌, [], false, length};
ghost use Rattle.neph_model.specs.Trap.{is_exposed};
ghost use Rattle.neph_pool.specs.Entries.{IsSoleAt};
ghost use Rattle.neph_pool.specs.Names.{IsApart};
ghost use Rattle.neph_pool.specs.World.{World, IsSeat};
ghost use Rattle.neph_heap.specs.Heap.{IsHeap};
ghost use Rattle.neph_heap.specs.Lists.{exposed_of};
ghost use Rattle.neph_heap.specs.Pages.{pages_in};

use crate::exposed_frame::ExposedFrame;
use crate::heap::Heap;
use neph_base::{DomId, NoMemory, Pfn};
use neph_pool::{FramePool, PlainPool};
use std::test::Fail;

// The device pages of a domain: a byte that was written to one, how many pages are exposed, and how
// many frames are free after they are given up.
fn devices<P: FramePool>(
    heap: &mut Heap<P>,
    pool: &mut P,
    id: DomId,
    pfn: Pfn,
) -> Result<(u8, usize, usize), NoMemory>
    requires heap { IsHeap P.world pool.old heap.old.seat heap.old.stock [] }
    requires none { exposed_of id heap.old.stock ≡ [] }
    requires free { 3 ≤ length heap.old.stock.free }
{
    heap.expose_devices(pool, id)?;
    let mut bytes = [0u8; 1];
    if heap.has(id, pfn) {
        heap.write(pool, id, pfn, 7, &[9]);
        heap.read(pool, id, pfn, 7, &mut bytes);
    }
    let exposed = heap.exposed_len(pool);
    heap.end(pool, id);
    Ok((bytes[0], exposed, heap.free_len()))
}

// A page in the next free frame: a byte that was written to it while it was exposed, whether it is
// still exposed at the end, and how many frames are free then.
fn page<P: FramePool>(
    heap: &mut Heap<P>,
    pool: &mut P,
    id: DomId,
    pfn: Pfn,
) -> Result<(u8, bool, usize), NoMemory>
    requires heap { IsHeap P.world pool.old heap.old.seat heap.old.stock [] }
{
    let mut bytes = [0u8; 1];
    if let Some(frame) = heap.take(pool) {
        let room = heap.reserve(id)?;
        if !heap.has(id, pfn) {
            let page = ExposedFrame { pfn, frame };
            heap.expose(pool, id, page, room);
            if heap.has(id, pfn) {
                heap.write(pool, id, pfn, 7, &[9]);
                heap.read(pool, id, pfn, 7, &mut bytes);
                heap.unexpose(pool, id, pfn);
            }
        }
    }
    Ok((bytes[0], heap.has(id, pfn), heap.free_len()))
}

#[test]
fn page_is_exposed_and_taken_off(rt: HostRuntime) -> Result<(), Fail> {
    let (mut pool, seat) = PlainPool::new(rt.alloc(), 16, 8)?;
    let mut heap = Heap::start(rt.alloc(), &pool, seat, 16)?;
    let id = DomId::new(1).unwrap();
    let pfn = Pfn::new(4).unwrap();
    let met = page(&mut heap, &mut pool, id, pfn)?;
    assert_eq!(rt; met, (9, false, 15));
    Ok(())
}

// A page in a frame that another seat has to itself: how many pages are exposed once the frame has
// come from there, and how many frames are free after the page's end.
fn lent_page<P: FramePool>(
    heap: &mut Heap<P>,
    pool: &mut P,
    seat: &mut P::Seat,
    id: DomId,
    page: ExposedFrame,
) -> Result<(usize, usize), NoMemory>
    requires heap { IsHeap P.world pool.old heap.old.seat heap.old.stock [] }
    requires seat { IsSeat P.world pool.old seat.old }
    requires apart { IsApart (P.world.names seat.old) (P.world.names heap.old.seat) }
    requires sole { IsSoleAt (P.world.entries pool.old seat.old) page.frame }
    requires absent { is_exposed (pages_in (P.world.entries pool.old heap.old.seat)
        heap.old.stock.exposed) id page.pfn ≡ false }
{
    let room = heap.reserve(id)?;
    pool.hand(seat, &mut heap.seat, &[page.frame]);
    heap.expose(pool, id, page, room);
    let exposed = heap.exposed_len(pool);
    heap.end(pool, id);
    Ok((exposed, heap.free_len()))
}

#[test]
fn page_comes_from_another_seat(rt: HostRuntime) -> Result<(), Fail> {
    let (mut pool, seat) = PlainPool::new(rt.alloc(), 16, 8)?;
    let mut heap = Heap::start(rt.alloc(), &pool, seat, 16)?;
    let id = DomId::new(1).unwrap();
    let pfn = Pfn::new(4).unwrap();
    let (mut seat, frames) = heap.fresh_seat(&mut pool, id, 1)?;
    let page = ExposedFrame {
        pfn,
        frame: frames[0],
    };
    let mut met = (0, 0);
    if !heap.has(id, pfn) {
        met = lent_page(&mut heap, &mut pool, &mut seat, id, page)?;
    }
    assert_eq!(rt; met, (1, 16));
    Ok(())
}

#[test]
fn device_pages_come_and_go(rt: HostRuntime) -> Result<(), Fail> {
    let (mut pool, seat) = PlainPool::new(rt.alloc(), 16, 8)?;
    let mut heap = Heap::start(rt.alloc(), &pool, seat, 16)?;
    let id = DomId::new(1).unwrap();
    let pfn = Pfn::new(2).unwrap();
    let met = devices(&mut heap, &mut pool, id, pfn)?;
    assert_eq!(rt; met, (9, 3, 16));
    Ok(())
}
