// What a seat has of one frame. These types stand in contracts alone: no value of them is made.
use std::collections::LinkedList;

/// How a seat holds a frame.
pub enum Hold {
    /// Nobody refers to the frame, and this seat keeps it.
    Zero,
    /// The only reference is this seat's, and the seat knows it: it may write.
    Sole,
    /// So many references are this seat's, and others may have some too.
    Counted(u32),
}

/// A frame in a seat: how it is held, and its 512 words.
pub struct Entry {
    pub hold: Hold,
    pub words: LinkedList<u64>,
}
