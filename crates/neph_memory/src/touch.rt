// Why memory can't be reached.
use neph_base::Pfn;

/// Why the bytes at an address can't be read by the domain itself.
#[derive(Clone, Copy, Debug, PartialEq, Eq)]
pub enum Touch {
    /// Nothing is mapped there.
    Unmapped,
    /// A page that a grant exposes is mapped there.
    Exposed(Pfn),
}
