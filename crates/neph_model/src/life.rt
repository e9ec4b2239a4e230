// What the hypervisor keeps of domains.
use neph_base::{DomId, List};
use neph_grant::{GrantTable, Handles};

/// What a live domain was born as, which never changes.
#[derive(Clone, Copy, Debug, PartialEq, Eq)]
pub struct Life {
    /// The id of the domain whose clone it is, 0 where it started with the script.
    pub parent: DomId,
    /// The number of the `domain` line that it comes from, from 1.
    pub family: u8,
    /// The number of its program, from 0.
    pub program: u8,
    /// How many clones it may make.
    pub limit: u8,
    /// How many pages it has.
    pub size: u16,
}

/// What the hypervisor keeps of a domain beside that.
#[derive(Drop)]
pub struct Guest {
    /// How many clones it has begun.
    pub accepted: u8,
    /// The children of the clones that it has begun and not committed.
    pub begun: List<DomId>,
    /// The entries by which it lets others at its pages.
    pub grants: GrantTable,
    /// The entries of others that it has mapped.
    pub handles: Handles,
}

/// A committed clone that waits for its second stage, while parent and child are paused.
#[derive(Clone, Copy, Debug, PartialEq, Eq)]
pub struct Cloned {
    /// The domain that was cloned.
    pub parent: DomId,
    /// Its clone.
    pub child: DomId,
}
