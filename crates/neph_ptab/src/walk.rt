// What page tables say of a virtual page.
use neph_base::{FrameNo, Pfn};

/// Where a virtual page leads.
#[derive(Clone, Copy, Debug, PartialEq, Eq)]
pub enum Walk {
    /// Nothing is mapped there.
    None,
    /// A page of the domain's own: its frame, whether it may be written at once, and whether it is
    /// wanted writable but may be shared. Tables never say both.
    Local {
        frame: FrameNo,
        rw: bool,
        shared: bool,
    },
    /// A page that a grant exposes: its pseudo-physical number, and whether it is wanted writable.
    Exposed {
        pfn: Pfn,
        rw: bool,
    },
}

impl Walk {
    ghost use Rattle.std.specs.Prelude.{◌≡◌};
    ghost use Rattle.neph_ptab.specs.Bits.{NotBoth};
    ghost use Rattle.neph_ptab.specs.Moves.{moved_walk};

    /// The walk with its page in another frame, which is the domain's alone or may be shared.
    pub fn moved(self, to: FrameNo, alone: bool) -> Walk
        ensures walk { result ≡ moved_walk to alone self }
        ensures once { NotBoth result }
    {
        match self {
            Walk::None => Walk::None,
            Walk::Local { rw, shared, .. } => Walk::Local {
                frame: to,
                rw: (rw || shared) && alone,
                shared: (rw || shared) && !alone,
            },
            Walk::Exposed { pfn, rw } => Walk::Exposed { pfn, rw },
        }
    }
}
