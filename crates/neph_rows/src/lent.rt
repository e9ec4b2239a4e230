// What a domain's own half lends to the hypervisor's calls.
use neph_model::Mapping;

/// What a domain's own half lends to a command under the lock.
#[derive(Clone, Copy, Debug, PartialEq, Eq)]
pub struct Lent {
    /// What the command's address maps to.
    pub met: Option<Mapping>,
    /// How many leaf tables the domain has.
    pub leaves: u32,
}
