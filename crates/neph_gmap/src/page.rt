// Where a guest's page lies.
use neph_base::FrameNo;

/// Where a page of a guest lies: in a frame of the domain's own, or with the hypervisor, exposed by
/// a grant.
#[derive(Clone, Copy, Debug, PartialEq, Eq)]
pub enum Page {
    Local(FrameNo),
    Exposed,
}

impl Page {
    ghost use Rattle.std.specs.Prelude.{◌≡◌};
    ghost use Rattle.neph_gmap.specs.GuestPages.{lies_in};

    /// Whether the page lies in this frame.
    pub fn lies_in(self, f: FrameNo) -> bool
        ensures { result ≡ lies_in f self }
    {
        match self {
            Page::Local(own) => own.get() == f.get(),
            Page::Exposed => false,
        }
    }
}
