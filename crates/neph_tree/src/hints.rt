// Where nodes may lie.
//
// A hint may be wrong, and a path may have none: who takes one looks at the node that lies there.
use std::alloc::Global;
use std::hash::{FoldHasher, Hasher};

// How many hints there are at first.
const FIRST_HINTS: usize = 64;

// A key for each hash of a path. There are at least twice as many as there are nodes, unless there
// was no memory, and their number is a power of 2.
#[derive(Drop)]
pub(crate) struct Hints {
    keys: Vec<usize>,
}

impl Hints {
    pub(crate) fn new(alloc: Global) -> Self {
        Hints {
            keys: Vec::new(alloc),
        }
    }

    // The key that was noted last for this path, or for another of its hash.
    pub(crate) fn of(&self, path: &[u8]) -> Option<usize> {
        self.keys.get(self.place_of(path)).copied()
    }

    // Notes the key of the node at the path.
    pub(crate) fn note(&mut self, path: &[u8], key: usize) {
        if key >= self.keys.len() / 2 {
            self.widen();
        }
        let place = self.place_of(path);
        if let Some(hint) = self.keys.get_mut(place) {
            *hint = key;
        }
    }

    fn place_of(&self, path: &[u8]) -> usize {
        let mut hasher = FoldHasher::default();
        hasher.write(path);
        hasher.finish() as usize & self.keys.len().wrapping_sub(1)
    }

    // Doubles the hints, where there is memory. Both places that a path may have now hold what its
    // place held.
    fn widen(&mut self) {
        let _ = if self.keys.is_empty() {
            self.keys.resize(FIRST_HINTS, 0)
        } else {
            self.keys.extend_from_within(..)
        };
    }
}
