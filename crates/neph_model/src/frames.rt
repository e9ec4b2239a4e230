// What the frames of a machine are used for.

/// What the frames of a machine are used for, each in frames of 4096 bytes.
#[derive(Clone, Copy, Debug, PartialEq, Eq)]
pub struct FrameCounts {
    /// How many frames the machine has.
    pub total: u32,
    /// How many hold the pages of domains. Pages that share a frame count once.
    pub colours: u32,
    /// How many hold page tables.
    pub tables: u32,
    /// How many are held as spares.
    pub spares: u32,
    /// How many are put aside for clones that were begun.
    pub aside: u32,
    /// How many are free.
    pub free: u32,
}
