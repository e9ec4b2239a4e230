// A count of page steps.
ghost use Rattle.std.specs.Prelude.{◌≡◌, ◌+◌, ◌-◌, ◌^◌, min};

use std::marker::Model;

/// How many times frames were shared in pools that were given up to this tally. Contracts see a
/// number, which stops at 2^64 - 1.
#[derive(Debug, Drop)]
pub struct Tally {
    shares: u64,
}

impl Model for Tally {
    ghost use Rattle.std.specs.Prelude.{ℕ};

    ghost Value = { ℕ };

    ghost view = { λ a. a.shares };
}

impl Tally {
    /// A tally of 0.
    pub fn new() -> Tally
        ensures { result ≡ 0 }
    {
        Tally { shares: 0 }
    }

    /// Its number.
    pub fn shares(&self) -> u64
        ensures { result ≡ self.now }
    {
        self.shares
    }

    // More shares.
    pub(crate) fn raise(&mut self, shares: u64)
        ensures { self.new ≡ min (self.old + shares) (2 ^ 64 - 1) }
    {
        self.shares = self.shares.saturating_add(shares);
    }
}
