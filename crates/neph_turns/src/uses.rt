// What the frames of a machine are used for.
ghost use Rattle.std.specs.Prelude.{◌≡◌, ◌+◌, ◌-◌, ◌<◌, ◌≤◌, ◌^◌, ℕ, List, sum_by};
ghost use Rattle.neph_model.specs.Books.{counts};
ghost use Rattle.neph_model.specs.WellFormed.{IsWellFormed};
ghost use Rattle.neph_pool.specs.World.{World, Spares};
ghost use Rattle.neph_machine.specs.FrameUses.{tables_in, spares_in, aside_in};
ghost use Rattle.neph_machine.specs.Places.{place_at};
ghost use Rattle.neph_machine.specs.Reached.{state_after};
ghost use Rattle.neph_machine.specs.StandsFor.{StandsFor};
ghost use Rattle.neph_machine.specs.Surveyed.{IsSurveyed};
ghost use Rattle.neph_machine.specs.Turned.{IsRunning};
ghost use Rattle.neph_turns.specs.Seats.{StandsIn, seat_names};

use neph_base::Actor;
use neph_local::leaf_count;
use neph_machine::{Machine, Place};
use neph_model::FrameCounts;
use neph_pool::FramePool;

/// What the frames of a machine are used for. Goes over all places and all tables, and leaves a
/// machine that takes no more turns.
pub fn counts<P: FramePool>(machine: &mut Machine<P>) -> FrameCounts
    requires surveyed { IsSurveyed P.world }
    requires formed { IsWellFormed machine.old.script }
    requires running { IsRunning P.world machine.old }
    ensures value { (before : List Actor)
        → StandsFor P.world machine.old (state_after machine.old.script before)
        → result ≡ counts machine.old.script (state_after machine.old.script before) }
    ensures shares { P.world.shares machine.new.pool ≡ P.world.shares machine.old.pool }
{
    let total = machine.script.frames;
    let free = machine.hv.heap.free_len() as u32;
    let put_aside = machine.hv.heap.aside_len(&machine.pool);
    let aside = (fork_count(&machine.places) + put_aside) as u32;
    let spares = spare_count(&machine.places);
    let tables = table_count(&mut machine.pool, &mut machine.places);
    counts_of(total, tables, spares, aside, free)
}

// The counts where so many frames are used otherwise, and the others hold pages.
fn counts_of(total: u32, tables: u32, spares: u32, aside: u32, free: u32) -> FrameCounts
    requires { tables + spares + aside + free ≤ total }
    ensures { result ≡ record {
      total = total;
      colours = total - (tables + spares + aside + free);
      tables = tables;
      spares = spares;
      aside = aside;
      free = free;
    } }
{
    FrameCounts {
        total,
        colours: total - (tables + spares + aside + free),
        tables,
        spares,
        aside,
        free,
    }
}

// How many domains hold a spare.
fn spare_count<P: FramePool>(places: &[Place<P>]) -> u32
    requires { sum_by spares_in places.now < 2 ^ 32 }
    ensures { result ≡ sum_by spares_in places.now }
{
    places.iter().map(|place| spares_of(place)).sum()
}

fn spares_of<P: FramePool>(place: &Place<P>) -> u32
    ensures { result ≡ spares_in place.now }
{
    match place {
        Place::Domain(live) if live.local.own.spare.is_some() => 1,
        _ => 0,
    }
}

// How many frames the forks in hand have put aside.
fn fork_count<P: FramePool>(places: &[Place<P>]) -> usize
    requires { sum_by aside_in places.now < 2 ^ 32 }
    ensures { result ≡ sum_by aside_in places.now }
{
    places.iter().map(|place| aside_of(place)).sum()
}

fn aside_of<P: FramePool>(place: &Place<P>) -> usize
    ensures { result ≡ aside_in place.now }
{
    match place {
        Place::Flight(flight) => flight.fork.frames.len(),
        _ => 0,
    }
}

// How many tables the domains have.
fn table_count<P: FramePool>(pool: &mut P, places: &mut [Place<P>]) -> u32
    requires stand { (id : ℕ) → StandsIn P.world pool.old id (place_at id places.old) }
    requires few { sum_by (tables_in P.world pool.old) places.old < 2 ^ 32 }
    ensures count { result ≡ sum_by (tables_in P.world pool.old) places.old }
    ensures shares { P.world.shares pool.new ≡ P.world.shares pool.old }
{
    let mut count = 0;
    for place in places.iter_mut() {
        count += tables_of(pool, place);
    }
    count
}

fn tables_of<P: FramePool>(pool: &mut P, place: &mut Place<P>) -> u32
    requires { (id : ℕ) × StandsIn P.world pool.old id place.old }
    ensures count { result ≡ tables_in P.world pool.old place.old }
    ensures spares { Spares P.world (seat_names P.world place.old) pool.old pool.new }
    ensures shares { P.world.shares pool.new ≡ P.world.shares pool.old }
{
    match place {
        Place::Domain(live) => 1 + u32::from(leaf_count(pool, &mut live.local)),
        _ => 0,
    }
}
