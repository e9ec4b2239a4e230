// What stands in the place of an id.
ghost use Rattle.std.specs.Prelude.{◌≡◌, ◌<◌, vec_len, slice_set};
ghost use Rattle.std.specs.Borrow.{sem};
ghost use Rattle.std.specs.Vec.{with_item};
ghost use Rattle.neph_machine.specs.Lending.{LendsLive};
ghost use Rattle.neph_machine.specs.Places.{place_at, IsFlying, IsLive};

use neph_base::DomId;
use neph_guest::Live;
use neph_local::Fork;
use neph_pool::FramePool;
use std::mem;

/// A child in flight: the clone that makes it was begun and isn't committed.
#[derive(Drop)]
pub struct Flight<P: FramePool> {
    /// The domain that began the clone.
    pub parent: DomId,
    /// What the child has so far.
    pub fork: Fork<P>,
}

/// What stands in the place of an id. The seat that it has in the pool has the id for its only
/// name.
#[derive(Drop)]
pub enum Place<P: FramePool> {
    /// Nothing: the hypervisor's own seat has the name.
    Empty,
    /// A child in flight.
    Flight(Flight<P>),
    /// A live domain.
    Domain(Live<P>),
}

// Takes what stands in the place of an id, and leaves nothing there.
fn take_place<P: FramePool>(places: &mut Vec<Place<P>>, id: DomId) -> Place<P>
    requires { vec_len places.old ≡ 64 }
    ensures here { result ≡ place_at id places.old.items }
    ensures out { places.new.items ≡ slice_set places.old.items id Place.Empty }
    ensures left { places.new ≡ with_item places.old id Place.Empty }
    ensures range { id < 64 }
{
    mem::replace(&mut places[id.get() as usize], Place::Empty)
}

/// Takes the live domain of an id out of its place, which is empty then.
pub fn take_live<P: FramePool>(places: &mut Vec<Place<P>>, id: DomId) -> Live<P>
    requires places { vec_len places.old ≡ 64 }
    requires live { IsLive (place_at id places.old.items) }
    ensures here { place_at id places.old.items ≡ Place.Domain result }
    ensures out { places.new.items ≡ slice_set places.old.items id Place.Empty }
{
    let Place::Domain(live) = take_place(places, id) else {
        unreachable!();
    };
    live
}

/// Takes the child in flight of an id out of its place, which is empty then.
pub fn take_flight<P: FramePool>(places: &mut Vec<Place<P>>, id: DomId) -> Flight<P>
    requires places { vec_len places.old ≡ 64 }
    requires flies { IsFlying (place_at id places.old.items) }
    ensures here { place_at id places.old.items ≡ Place.Flight result }
    ensures left { places.new ≡ with_item places.old id Place.Empty }
{
    let Place::Flight(flight) = take_place(places, id) else {
        unreachable!();
    };
    flight
}

/// Puts this into the place of an id.
pub fn put_place<P: FramePool>(places: &mut Vec<Place<P>>, id: DomId, place: Place<P>)
    requires { vec_len places.old ≡ 64 }
    ensures items { places.new.items ≡ slice_set places.old.items id place }
    ensures put { places.new ≡ with_item places.old id place }
{
    places[id.get() as usize] = place;
}

/// Puts a live domain into the place of its id.
pub fn put_live<P: FramePool>(places: &mut Vec<Place<P>>, id: DomId, live: Live<P>)
    requires { vec_len places.old ≡ 64 }
    ensures { places.new.items ≡ slice_set places.old.items id (Place.Domain live) }
{
    put_place(places, id, Place::Domain(live));
}

/// The live domain of an id, where it lies.
pub fn live_mut<P: FramePool>(places: &mut Vec<Place<P>>, id: DomId) -> &mut Live<P>
    requires places { vec_len places.old ≡ 64 }
    requires live { IsLive (place_at id places.old.items) }
    ensures* writes_back { sem 𝓛 (LendsLive P.row P.Seat.row places.entry id result) }
    ensures here { place_at id places.old.items ≡ Place.Domain result.now }
{
    let Place::Domain(live) = &mut places[id.get() as usize] else {
        unreachable!();
    };
    live
}
