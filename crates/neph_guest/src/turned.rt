// What a turn of a guest comes to.
use neph_base::Reply;

/// What a turn of a guest comes to.
#[derive(Clone, Copy, Debug, PartialEq, Eq)]
pub enum Turned {
    /// Its domain is paused, and nothing has changed.
    Rests,
    /// It found that its write needs a copy, or took a spare frame. It is at its line still.
    Moves,
    /// Its line was done or refused, and it has gone on; or it has begun a clone, and waits there.
    Did(Reply),
    /// Its line is its exit, by which the caller ends it. Nothing has changed.
    Ends,
}
