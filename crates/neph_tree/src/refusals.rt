// Why a domain may not change the store.

/// The most nodes within a domain's home, `/local/domain/D` itself counted.
pub const DOMAIN_NODES: u32 = 256;

/// Why a write was refused.
#[derive(Clone, Copy, Debug, PartialEq, Eq)]
pub enum WriteRefused {
    /// The path isn't within the domain's home.
    NotYours,
    /// The home would have more than `DOMAIN_NODES` nodes.
    NodeLimit,
    /// Want of memory. The tree is as before.
    NoMemory,
}

/// Why a removal was refused.
#[derive(Clone, Copy, Debug, PartialEq, Eq)]
pub enum RemoveRefused {
    /// The path isn't within the domain's home.
    NotYours,
    /// There is no such node.
    NoPath,
}
