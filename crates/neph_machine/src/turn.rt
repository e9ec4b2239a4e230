// What a turn did.
use neph_base::Noted;

/// What a turn did.
#[derive(Clone, Copy, Debug, PartialEq, Eq)]
pub enum Turn {
    /// Nothing.
    Rested,
    /// Something that makes no entry.
    Moved,
    /// An entry with its reply.
    Noted(Noted),
}
