// Laws of the device pages.
ghost use Rattle.neph_ring.specs.Pages.{ChildReceivesAsParent, ZeroPageIsQuiet};

/// On a page of zeros nothing waits.
pub fn zero_page()
    ensures { ZeroPageIsQuiet }
{}

/// The network page of a child has the packets that its parent had received, and has sent none.
pub fn child_network()
    ensures { ChildReceivesAsParent }
{}
