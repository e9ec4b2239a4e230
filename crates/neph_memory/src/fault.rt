// Why a page wasn't mapped.
use neph_base::NoMemory;

/// Why a page wasn't mapped. Nothing has changed.
#[derive(Clone, Copy, Debug, PartialEq, Eq)]
pub enum MapFault {
    /// There is no such page, or it is the identity page or a device page, which isn't mapped
    /// writable.
    BadPfn,
    /// A leaf table is needed, and no spare frame is held.
    NeedSpare,
    /// Memory ran out.
    NoMemory,
}

impl From<NoMemory> for MapFault {
    ghost use Rattle.std.specs.Prelude.{◌≡◌};
    ghost use Rattle.neph_memory.specs.declared.fault.MapFault.TheVariants as fault;

    ghost from_gives = { λ _ e. e ≡ fault.NoMemory };

    fn from(_error: NoMemory) -> MapFault {
        MapFault::NoMemory
    }
}
