// Why a text is no script.
ghost use Rattle.std.specs.Prelude.{◌≡◌};

use neph_base::NoMemory;
use neph_command::Why;
use std::alloc::{AllocError, AllocFailed};

/// The first line that can't stand.
#[derive(Clone, Copy, Debug, PartialEq, Eq)]
pub struct BadScript {
    /// Its number, from 1; one past the last where a line is missing.
    pub line: u32,
    /// What is wrong with it.
    pub why: Why,
}

/// Why no script was read.
#[derive(Clone, Copy, Debug, PartialEq, Eq)]
pub enum ParseEnd {
    /// The text is no script.
    Bad(BadScript),
    /// Memory ran out.
    NoMemory,
}

/// Why a line wasn't taken.
#[derive(Clone, Copy, Debug, PartialEq, Eq)]
pub enum LineEnd {
    /// It can't stand.
    Bad(Why),
    /// Memory ran out.
    NoMemory,
}

impl From<Why> for LineEnd {
    ghost use Rattle.neph_script.specs.declared.why.LineEnd.TheVariants.{Bad};

    ghost from_gives = { λ w e. e ≡ Bad w };

    fn from(why: Why) -> LineEnd {
        LineEnd::Bad(why)
    }
}

impl From<NoMemory> for LineEnd {
    ghost use Rattle.neph_script.specs.declared.why.LineEnd.TheVariants.{NoMemory};

    ghost from_gives = { λ _ e. e ≡ NoMemory };

    fn from(_error: NoMemory) -> LineEnd {
        LineEnd::NoMemory
    }
}

impl From<AllocError> for LineEnd {
    ghost use Rattle.neph_script.specs.declared.why.LineEnd.TheVariants.{NoMemory};

    ghost from_gives = { λ _ e. e ≡ NoMemory };

    fn from(_error: AllocError) -> LineEnd {
        LineEnd::NoMemory
    }
}

impl<T: Drop> From<AllocFailed<T>> for LineEnd {
    ghost use Rattle.neph_script.specs.declared.why.LineEnd.TheVariants.{NoMemory};

    ghost from_gives = { λ _ e. e ≡ NoMemory };

    fn from(_error: AllocFailed<T>) -> LineEnd {
        LineEnd::NoMemory
    }
}
