// The start of a small script over the plain pool.
ghost use Rattle.std.specs.Prelude.{◌≡◌, IfOk};
ghost use Rattle.neph_model.specs.WellFormed.{IsWellFormed};

use crate::start::boot;
use neph_base::{List, NoMemory};
use neph_machine::{Machine, Place, plain_pool_is_surveyed};
use neph_model::{Program, Script, Start};
use neph_pool::{FramePool, PlainPool};
use std::alloc::Global;
use std::test::Fail;

// A script of two domains, with 8 and 9 pages, which do nothing.
fn two_domains(alloc: Global) -> Result<Script, NoMemory>
    ensures formed { IfOk result IsWellFormed }
    ensures frames { IfOk result (λ s. s.frames ≡ 40) }
{
    let program = Program {
        name: List::of(Vec::new(alloc)),
        commands: List::of(Vec::new(alloc)),
        labels: List::of(Vec::new(alloc)),
    };
    let mut programs = Vec::new(alloc);
    programs.push(program)?;
    let mut starts = Vec::new(alloc);
    starts.push(Start {
        program: 0,
        pages: 8,
        limit: 0,
    })?;
    starts.push(Start {
        program: 0,
        pages: 9,
        limit: 1,
    })?;
    Ok(Script {
        frames: 40,
        programs: List::of(programs),
        starts: List::of(starts),
        turns: List::of(Vec::new(alloc)),
    })
}

// How many pages the domain has that stands in the place of an id, and 0 where none does.
fn pages_at<P: FramePool>(m: &Machine<P>, id: usize) -> usize {
    match m.places.get(id) {
        Some(Place::Domain(live)) => live.local.own.map.len(),
        _ => 0,
    }
}

#[test]
fn each_line_has_its_domain(rt: HostRuntime) -> Result<(), Fail> {
    let script = two_domains(rt.alloc())?;
    let (pool, seat) = PlainPool::new(rt.alloc(), 40, 2048)?;
    plain_pool_is_surveyed();
    let m = boot(rt.alloc(), script, pool, seat)?;
    let pages = [
        pages_at(&m, 0),
        pages_at(&m, 1),
        pages_at(&m, 2),
        pages_at(&m, 3),
    ];
    assert_eq!(rt; pages, [0, 8, 9, 0]);
    assert_eq!(rt; m.hv.registry.live_count(), 2);
    assert_eq!(rt; m.hv.heap.free_len(), 19);
    Ok(())
}
