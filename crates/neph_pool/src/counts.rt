// How many entries each row has.
ghost use Rattle.std.specs.Prelude.{◌≡◌, ◌≢◌, ◌+◌, ◌-◌, ◌<◌, ◌≤◌, ◌^◌, ℕ, true, slice_index, if◌then◌else◌};

use neph_base::{IDS, MAX_FRAMES};

/// One frame changed: the row had an entry of it before, or has one after.
pub fn recount(held: &mut [u64; IDS], row: u8, before: bool, after: bool)
    requires row { row < IDS }
    requires before { before ≡ true → 0 < slice_index held.old row }
    requires small { slice_index held.old row ≤ MAX_FRAMES }
    ensures own { slice_index held.new row
        ≡ slice_index held.old row + (if after then 1 else 0) - (if before then 1 else 0) }
    ensures others { (r : ℕ) → r ≢ row → slice_index held.new r ≡ slice_index held.old r }
{
    held[row as usize] = held[row as usize] + u64::from(after) - u64::from(before);
}

/// All that a row has goes to another.
pub fn recount_all(held: &mut [u64; IDS], from: u8, to: u8)
    requires rows { (from < IDS) × (to < IDS) × (from ≢ to) }
    requires small { (slice_index held.old from ≤ MAX_FRAMES)
        × (slice_index held.old to ≤ MAX_FRAMES) }
    ensures to { slice_index held.new to ≡ slice_index held.old to + slice_index held.old from }
    ensures from { slice_index held.new from ≡ 0 }
    ensures others { (r : ℕ) → r ≢ from → r ≢ to → slice_index held.new r ≡ slice_index held.old r }
{
    let moved = held[from as usize];
    held[to as usize] += moved;
    held[from as usize] = 0;
}
