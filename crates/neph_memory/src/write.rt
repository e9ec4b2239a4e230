// A write in steps.
use neph_base::{Pfn, Piece};

/// A write that waits until its page is the domain's alone.
#[derive(Clone, Copy)]
pub struct Write {
    /// The page.
    pub pfn: Pfn,
    /// The offset in the page.
    pub at: u16,
    /// The bytes to be written.
    pub bytes: Piece,
}

/// How far a write came.
#[derive(Clone, Copy, Debug, PartialEq, Eq)]
pub enum WriteStep {
    /// The bytes are written.
    Done,
    /// Another domain had the page's frame too: the write is in hand.
    Copying,
    /// Nothing is mapped there.
    Unmapped,
    /// The page is mapped read-only.
    ReadOnly,
    /// A page that a grant exposes is mapped there.
    Exposed(Pfn),
}

/// A copy is needed, and no spare frame is held.
#[derive(Clone, Copy, Debug, PartialEq, Eq)]
pub struct NeedSpare;
