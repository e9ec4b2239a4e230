// Why an entry was not done.
use neph_base::NoMemory;

/// Why an entry was not done.
#[derive(Clone, Copy, Debug, PartialEq, Eq)]
pub enum FlatEnd {
    /// It isn't due: it is not the next one of its actor, or may not stand here.
    NotNext,
    /// Memory ran out.
    NoMemory,
}

impl From<NoMemory> for FlatEnd {
    ghost use Rattle.std.specs.Prelude.{◌≡◌};
    ghost use Rattle.neph_flat.specs.declared.end.FlatEnd.TheVariants as end;

    ghost from_gives = { λ _ e. e ≡ end.NoMemory };

    fn from(_error: NoMemory) -> FlatEnd {
        FlatEnd::NoMemory
    }
}
