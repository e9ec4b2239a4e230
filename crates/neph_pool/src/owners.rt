// Who holds a frame of the plain pool, by the row of the seat.
ghost use Rattle.std.specs.Prelude.{◌≡◌, ◌==◌, if◌then◌else◌, ◌≢◌, ◌<◌, ℕ, Some, None, true};

use crate::weights::Weights;
use neph_base::IDS;

/// Who holds a frame: one row keeps it with no reference, one row has it to itself, or the
/// references are counted for each row.
#[derive(Clone, Copy)]
pub enum Owners {
    Spare(u8),
    Alone(u8),
    Many(Weights),
}

impl Owners {
    ghost use Rattle.neph_pool.specs.Entries.{weight_of, is_here};
    ghost use Rattle.neph_pool.specs.Owners.{held_by, total_of, either_hold};
    ghost use Rattle.neph_pool.specs.declared.entry.Hold.TheVariants.{Zero, Sole};

    /// How many references there are.
    pub fn total(&self) -> u32
        ensures { result ≡ total_of self.now }
    {
        match self {
            Owners::Spare(_) => 0,
            Owners::Alone(_) => 1,
            Owners::Many(weights) => weights.total(),
        }
    }

    /// How many references there are. Where it is the row's own alone, the row has the frame to
    /// itself.
    pub fn look(&mut self, row: u8) -> u32
        requires row { row < IDS }
        requires once { weight_of (held_by row self.old) ≡ 1 }
        ensures count { result ≡ total_of self.old }
        ensures own { held_by row self.new
            ≡ (if result == 1 then Some Sole else held_by row self.old) }
        ensures others { (r : ℕ) → r ≢ row → held_by r self.new ≡ held_by r self.old }
        ensures total { total_of self.new ≡ total_of self.old }
    {
        let count = self.total();
        if count == 1 {
            *self = Owners::Alone(row);
        }
        count
    }

    /// The first reference.
    pub fn retake(&mut self, row: u8)
        requires zero { held_by row self.old ≡ Some Zero }
        ensures own { held_by row self.new ≡ Some Sole }
        ensures others { (r : ℕ) → r ≢ row → held_by r self.new ≡ held_by r self.old }
        ensures total { total_of self.new ≡ 1 }
    {
        *self = Owners::Alone(row);
    }

    /// All that a row has goes to another, which has nothing where the first has something.
    pub fn rename(&mut self, from: u8, to: u8)
        requires rows { (from < IDS) × (to < IDS) × (from ≢ to) }
        requires room { is_here (held_by from self.old) ≡ true → held_by to self.old ≡ None }
        ensures gone { held_by from self.new ≡ None }
        ensures joined { held_by to self.new
            ≡ either_hold (held_by to self.old) (held_by from self.old) }
        ensures others { (r : ℕ) → r ≢ from → r ≢ to → held_by r self.new ≡ held_by r self.old }
        ensures total { total_of self.new ≡ total_of self.old }
    {
        match self {
            Owners::Spare(row) => {
                if *row == from {
                    *row = to;
                }
            }
            Owners::Alone(row) => {
                if *row == from {
                    *row = to;
                }
            }
            Owners::Many(weights) => {
                let had = weights.at(from);
                if had > 0 {
                    weights.put(to, had);
                    weights.put(from, 0);
                }
            }
        }
    }
}
