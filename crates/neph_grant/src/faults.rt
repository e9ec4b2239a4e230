// What the calls on grants are refused with.

/// The reference has an entry already.
#[derive(Clone, Copy, Debug, PartialEq, Eq)]
pub struct InUse;

/// Why an entry isn't taken away.
#[derive(Clone, Copy, Debug, PartialEq, Eq)]
pub enum EndFault {
    /// The reference has no entry.
    NoGrant,
    /// The entry is mapped, or is a device page's.
    Busy,
}

/// Why an entry isn't mapped.
#[derive(Clone, Copy, Debug, PartialEq, Eq)]
pub enum MapRefused {
    /// The reference has no entry.
    NoEntry,
    /// The entry doesn't let this domain in.
    NotYours,
}
