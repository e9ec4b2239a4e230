// What the turns keep of a domain beside its plain record.
ghost use Rattle.std.specs.Prelude.{◌≡◌};

use crate::told::Told;
use neph_base::Pfn;
use std::marker::Model;

/// The colour of each page of a domain, by pfn. Pages that a clone lets share one frame have one
/// colour.
#[derive(Drop)]
pub struct Colours {
    list: Vec<u32>,
}

impl Model for Colours {
    ghost use Rattle.std.specs.Prelude.{ℕ, List};

    ghost Value = { List ℕ };

    ghost view = { λ a. a.list.items };
}

impl Colours {
    ghost use Rattle.std.specs.Prelude.{◌≡◌, ◌<◌, length, slice_set};

    /// These colours.
    pub fn of(list: Vec<u32>) -> Self
        ensures { result ≡ list.items }
    {
        Colours { list }
    }

    /// The colours.
    pub fn items(&self) -> &[u32]
        ensures { result.now ≡ self.now }
    {
        &self.list
    }

    /// Gives a page this colour.
    pub fn set(&mut self, page: usize, colour: u32)
        requires { page < length self.old }
        ensures { self.new ≡ slice_set self.old page colour }
    {
        self.list[page] = colour;
    }
}

/// How far a domain is with its line.
#[derive(Clone, Copy, Debug, PartialEq, Eq)]
pub enum Stage {
    /// It is ready for it.
    Ready,
    /// It has found that its write needs a copy.
    Copying,
    /// It has begun a clone, and so many page steps are left.
    Forking(u16),
}

/// What the turns keep of a domain: how far it is with its line, its spare frame and the colours of
/// its pages.
#[derive(Drop)]
pub struct Book {
    /// How far it is with its line.
    pub stage: Stage,
    /// Whether it holds a spare frame.
    pub spare: bool,
    /// The colours of its pages.
    pub colours: Colours,
}

/// What the spare frame of a domain becomes.
#[derive(Clone, Copy, Debug, PartialEq, Eq)]
pub enum Spends {
    /// It stays the spare.
    Nothing,
    /// A leaf table.
    Leaf,
    /// The copy of this page.
    Copy(Pfn),
}

/// What a live domain does in its turn.
#[derive(Clone, Copy, Debug, PartialEq, Eq)]
pub enum Move {
    /// Nothing.
    Rests,
    /// One of the page steps of its clone.
    StepsPage,
    /// It commits its clone.
    Commits,
    /// It finds that its write needs a copy.
    Copies,
    /// It takes a frame as its spare.
    TakesSpare,
    /// It does its line, told this of the free frames, and this becomes of its spare.
    Does { told: Told, spends: Spends },
}
