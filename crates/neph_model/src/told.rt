// What the machine tells a command of its frames.

/// What an entry is told of the machine's frames.
#[derive(Clone, Copy, Debug, PartialEq, Eq)]
pub enum Told {
    /// There are enough for what it needs.
    Enough,
    /// None is left for a copy or a leaf table.
    Short,
    /// This many are free.
    Free(u32),
}
