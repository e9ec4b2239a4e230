// Rising lists of virtual pages.
ghost use Rattle.std.specs.Prelude.{◌≡◌, ◌≢◌, ◌<◌, ◌≤◌, ℕ, true, false, OnOk, OnErr, length, slice_index};
ghost use Rattle.neph_gmap.specs.GuestPages.{IsRising, with_number, without_number};

use neph_base::{NoMemory, Vpn};

// The place of the first number that isn't below `v`.
fn place_of(list: &[Vpn], v: Vpn) -> usize
    requires { IsRising list.now }
    ensures bound { result ≤ length list.now }
    ensures below { (k : ℕ) → k < result → slice_index list.now k < v }
    ensures above { (k : ℕ) → result ≤ k → k < length list.now → v ≤ slice_index list.now k }
{
    let mut low = 0;
    let mut high = list.len();
    while low < high {
        let middle = low + (high - low) / 2;
        if list[middle].get() < v.get() {
            low = middle + 1;
        } else {
            high = middle;
        }
    }
    low
}

// Whether `v` stands at this place.
fn stands_at(list: &[Vpn], place: usize, v: Vpn) -> bool
    ensures yes { result ≡ true → (place < length list.now) × (slice_index list.now place ≡ v) }
    ensures no { result ≡ false → place < length list.now → slice_index list.now place ≢ v }
{
    if place < list.len() {
        list[place].get() == v.get()
    } else {
        false
    }
}

/// Adds a number, if it isn't there yet.
pub fn add_number(list: &mut Vec<Vpn>, v: Vpn) -> Result<(), NoMemory>
    requires { IsRising list.old.items }
    ensures ok { OnOk result (list.new.items ≡ with_number v list.old.items) }
    ensures err { OnErr result (list.new.items ≡ list.old.items) }
{
    let place = place_of(list, v);
    if stands_at(list, place, v) {
        return Ok(());
    }
    list.insert(place, v)?;
    Ok(())
}

/// Takes a number away, if it is there.
pub fn drop_number(list: &mut Vec<Vpn>, v: Vpn)
    requires { IsRising list.old.items }
    ensures { list.new.items ≡ without_number v list.old.items }
{
    let place = place_of(list, v);
    if stands_at(list, place, v) {
        list.remove(place);
    }
}
