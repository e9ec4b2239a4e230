// Two seats of the plain pool become one.
ghost use Rattle.std.specs.Prelude.{◌≡◌, ◌≢◌, ◌<◌, ◌≤◌, ◌||◌, ℕ, true, false, None, All, map, length, if◌then◌else◌, slice_index_or, slice_set};
ghost use Rattle.neph_pool.specs.Entries.{is_here, entry_count};
ghost use Rattle.neph_pool.specs.Handing.{nothing, add_entries};
ghost use Rattle.neph_pool.specs.Frames.{frame_at};
ghost use Rattle.neph_pool.specs.Owners.{held_by, either_hold};
ghost use Rattle.neph_pool.specs.Rows.{row_entries, row_of, total_at, words_in_frame, IsRenaming};

use crate::frames::Frames;
use neph_base::{IDS, MAX_FRAMES};

// The row that gives all it has, and the one that gets it, where the seats of these rows become
// one. The seat with the name 0 is in row 0.
pub fn renaming_of(row: u8, other: u8) -> (u8, u8)
    ensures { IsRenaming row other result.0 result.1 }
{
    if other == 0 {
        (row, other)
    } else {
        (other, row)
    }
}

// All that one row has of a frame goes to another, which then has nothing of it. Whether it had
// any.
fn rename_at(frames: &mut Frames, f: usize, from: u8, to: u8) -> bool
    requires frame { f < length frames.old }
    requires rows { (from < IDS) × (to < IDS) × (from ≢ to) }
    requires room { is_here (held_by from (frame_at frames.old f).owners) ≡ true
        → held_by to (frame_at frames.old f).owners ≡ None }
    ensures here { result ≡ is_here (held_by from (frame_at frames.old f).owners) }
    ensures one { frames.new ≡ slice_set frames.old f (frame_at frames.new f) }
    ensures words { (frame_at frames.new f).words ≡ (frame_at frames.old f).words }
    ensures gone { held_by from (frame_at frames.new f).owners ≡ None }
    ensures joined { held_by to (frame_at frames.new f).owners
        ≡ either_hold (held_by to (frame_at frames.old f).owners)
        (held_by from (frame_at frames.old f).owners) }
    ensures others { (r : ℕ) → r ≢ from → r ≢ to
        → held_by r (frame_at frames.new f).owners ≡ held_by r (frame_at frames.old f).owners }
    ensures total { total_at (frame_at frames.new f) ≡ total_at (frame_at frames.old f) }
{
    if frames.holds(f, from) {
        let mut owners = frames.owners(f);
        owners.rename(from, to);
        frames.put_owners(f, owners);
        return true;
    }
    false
}

// All that one row has, so many entries, goes to another, which has nothing of the same frames. No
// frame past the last of them is looked at.
pub fn rename_all(frames: &mut Frames, from: u8, to: u8, count: u64)
    requires rows { (from < IDS) × (to < IDS) × (from ≢ to) }
    requires room { All (λ x. is_here (held_by from x.owners) ≡ true → held_by to x.owners ≡ None)
        frames.old }
    requires count { count ≡ entry_count (row_entries from frames.old) }
    requires few { length frames.old ≤ MAX_FRAMES }
    ensures gone { row_entries from frames.new ≡ nothing (length frames.old) }
    ensures joined { row_entries to frames.new
        ≡ add_entries (row_entries to frames.old) (row_entries from frames.old) }
    ensures others { (r : ℕ) → r ≢ from → r ≢ to
        → row_entries r frames.new ≡ row_entries r frames.old }
    ensures told { map total_at frames.new ≡ map total_at frames.old }
    ensures words { map words_in_frame frames.new ≡ map words_in_frame frames.old }
{
    let mut left = count;
    let mut f = 0;
    while left > 0 {
        left -= u64::from(rename_at(frames, f, from, to));
        f += 1;
    }
}

// The names of two seats.
pub fn add_names(names: &mut [bool; IDS], more: &[bool; IDS])
    ensures { (d : ℕ) → slice_index_or names.new d false
        ≡ (slice_index_or names.old d false || slice_index_or more.now d false) }
{
    for d in 0..IDS {
        if more[d] {
            names[d] = true;
        }
    }
}

// These names get the row.
pub fn point_names(rows: &mut [u8; IDS], names: &[bool; IDS], to: u8)
    ensures { (d : ℕ) → row_of rows.new d
        ≡ (if slice_index_or names.now d false then to else row_of rows.old d) }
{
    for d in 0..IDS {
        if names[d] {
            rows[d] = to;
        }
    }
}
