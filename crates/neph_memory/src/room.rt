// Room for the frames of a domain's end.
ghost use Rattle.std.specs.Prelude.{◌≡◌, ◌≤◌, [], IfOk, vec_capacity};

use neph_base::{FrameNo, MAX_PAGES, NoMemory, TABLE_ENTRIES};
use std::alloc::Global;
use std::marker::Model;

/// The most frames that a domain holds at once: one for each page, the root, the leaf tables and
/// the spare.
pub const MAX_HELD: usize = MAX_PAGES + TABLE_ENTRIES + 2;

/// An empty list with room for all frames of a domain.
#[derive(Drop)]
pub struct Room {
    frames: Vec<FrameNo>,
}

impl Model for Room {
    ghost use Rattle.std.specs.Prelude.{◌≡◌, ◌≤◌, ℕ, [], List, vec_capacity};
    ghost use Rattle.neph_memory.specs.declared.room.TheConstants.{MAX_HELD};

    ghost Value = { List ℕ };

    ghost view = { λ r. r.frames.items };

    ghost invariant = { λ r. (r.frames.items ≡ []) × (MAX_HELD ≤ vec_capacity r.frames) };
}

impl Room {
    /// Makes the room.
    pub fn new(alloc: Global) -> Result<Room, NoMemory>
        ensures empty { IfOk result (λ room. room ≡ []) }
    {
        let frames = Vec::with_capacity(alloc, MAX_HELD)?;
        Ok(Room { frames })
    }

    /// The list, with its room.
    pub fn into_list(self) -> Vec<FrameNo>
        ensures items { result.items ≡ [] }
        ensures room { MAX_HELD ≤ vec_capacity result }
    {
        self.frames
    }
}
