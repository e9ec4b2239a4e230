// The references of one frame, for each row.
ghost use Rattle.std.specs.Prelude.{◌≡◌, ◌≢◌, ◌+◌, ◌-◌, ◌<◌, ◌≤◌, ℕ, Some, None, true, false, sum, length, slice_index, slice_set, replicate};

use neph_base::IDS;

/// How many references each of 64 rows holds, at most two, and their sum, which is never 0.
#[derive(Clone, Copy)]
pub struct Weights {
    by_row: [u8; IDS],
    count: u32,
    pub ghost whole: { length by_row ≡ 64 },
    pub ghost light: { (r : ℕ) → slice_index by_row r ≤ 2 },
    pub ghost counted: { count ≡ sum by_row },
    pub ghost some: { 0 < count },
}

impl Weights {
    ghost use Rattle.neph_pool.specs.Entries.{weight_of, is_here, is_whole};
    ghost use Rattle.neph_pool.specs.Handing.{left_hold, moved_hold};
    ghost use Rattle.neph_pool.specs.Owners.{held_by};
    ghost use Rattle.neph_pool.specs.declared.entry.Hold.TheVariants.{Counted};
    ghost use Rattle.neph_pool.specs.declared.owners.Owners.TheVariants.{Many};

    /// Two references of one row.
    pub fn two(row: u8) -> Weights
        requires { row < IDS }
        ensures weights { result.by_row ≡ slice_set (replicate IDS 0) row 2 }
        ensures count { result.count ≡ 2 }
    {
        let mut by_row = [0; IDS];
        by_row[row as usize] = 2;
        Weights { by_row, count: 2 }
    }

    /// How many references there are.
    pub fn total(&self) -> u32
        ensures { result ≡ self.now.count }
    {
        self.count
    }

    /// The references of a row.
    pub fn at(&self, row: u8) -> u8
        requires { row < IDS }
        ensures { result ≡ slice_index self.now.by_row row }
    {
        self.by_row[row as usize]
    }

    /// Gives a row another number of references.
    pub fn put(&mut self, row: u8, weight: u8)
        requires row { row < IDS }
        requires light { weight ≤ 2 }
        requires some { slice_index self.old.by_row row < self.old.count + weight }
        ensures weights { self.new.by_row ≡ slice_set self.old.by_row row weight }
        ensures count { self.new.count + slice_index self.old.by_row row ≡ self.old.count + weight }
    {
        self.count = self.count + u32::from(weight) - u32::from(self.by_row[row as usize]);
        self.by_row[row as usize] = weight;
    }
    /// A second reference of the row's one.
    pub fn share(&mut self, row: u8)
        requires row { row < IDS }
        requires once { weight_of (held_by row (Many self.old)) ≡ 1 }
        ensures own { held_by row (Many self.new) ≡ Some (Counted 2) }
        ensures others { (r : ℕ) → r ≢ row
            → held_by r (Many self.new) ≡ held_by r (Many self.old) }
        ensures total { self.new.count ≡ self.old.count + 1 }
    {
        self.put(row, 2);
    }

    /// The row's one reference goes, which isn't the last.
    pub fn release(&mut self, row: u8)
        requires row { row < IDS }
        requires once { weight_of (held_by row (Many self.old)) ≡ 1 }
        requires more { self.old.count ≢ 1 }
        ensures own { held_by row (Many self.new) ≡ None }
        ensures others { (r : ℕ) → r ≢ row
            → held_by r (Many self.new) ≡ held_by r (Many self.old) }
        ensures total { self.new.count ≡ self.old.count - 1 }
    {
        self.put(row, 0);
    }

    /// One reference goes from a row to another.
    pub fn hand(&mut self, from: u8, to: u8)
        requires rows { (from < IDS) × (to < IDS) × (from ≢ to) }
        requires part { is_here (held_by from (Many self.old)) ≡ true }
        requires room { is_whole (held_by from (Many self.old)) ≡ false
            → held_by to (Many self.old) ≡ None }
        ensures left { held_by from (Many self.new) ≡ left_hold (held_by from (Many self.old)) }
        ensures moved { held_by to (Many self.new) ≡ moved_hold (held_by from (Many self.old)) }
        ensures others { (r : ℕ) → r ≢ from → r ≢ to
            → held_by r (Many self.new) ≡ held_by r (Many self.old) }
        ensures total { self.new.count ≡ self.old.count }
    {
        let had = self.at(from);
        self.put(to, 1);
        self.put(from, had - 1);
    }
}
