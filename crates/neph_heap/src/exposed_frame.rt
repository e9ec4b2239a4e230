// A page of a domain that lies with the hypervisor.
use neph_base::{FrameNo, Pfn};

/// An exposed page of a domain, and the frame that it lies in.
#[derive(Clone, Copy, Debug, PartialEq, Eq)]
pub struct ExposedFrame {
    /// The domain's number of the page.
    pub pfn: Pfn,
    /// The frame.
    pub frame: FrameNo,
}
