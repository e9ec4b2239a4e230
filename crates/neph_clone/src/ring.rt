// The notification ring.
ghost use Rattle.std.specs.Prelude.{◌≡◌, ◌<◌, [], ◌∷◌, ◌++◌, IfOk, IfSome, IfNone, length};
ghost use Rattle.neph_clone.specs.Waiting.{oldest, TakesOldest};

use circular_buffer::HeapCircularBuffer;
use neph_base::{DomId, NoMemory};
use std::alloc::Global;
use std::marker::Model;

/// How many children may wait: each id from 1 to 63 once.
pub const NOTIFY_RING_SIZE: usize = 63;

/// The notification ring: the committed children that wait for their second stage. Contracts see
/// the list of their ids, oldest first.
#[derive(Drop)]
pub struct NotifyRing {
    ring: HeapCircularBuffer<DomId>,
}

impl Model for NotifyRing {
    ghost use Rattle.std.specs.Prelude.{◌≡◌, ℕ, List};
    ghost use Rattle.neph_clone.specs.declared.ring.TheConstants.{NOTIFY_RING_SIZE};

    ghost Value = { List ℕ };

    ghost view = { λ r. r.ring.items };

    ghost invariant = { λ r. r.ring.capacity ≡ NOTIFY_RING_SIZE };
}

impl NotifyRing {
    /// The empty ring.
    pub fn new(alloc: Global) -> Result<NotifyRing, NoMemory>
        ensures { IfOk result (λ r. r ≡ []) }
    {
        let ring = HeapCircularBuffer::with_capacity(alloc, NOTIFY_RING_SIZE)?;
        Ok(NotifyRing { ring })
    }

    /// Puts a child behind all that wait. Takes no memory.
    pub fn put(&mut self, d: DomId)
        requires { length self.old < NOTIFY_RING_SIZE }
        ensures { self.new ≡ self.old ++ d ∷ [] }
    {
        self.ring.push_back(d);
    }

    /// Takes the child that has waited longest, `None` exactly where none waits.
    pub fn take(&mut self) -> Option<DomId>
        ensures value { result ≡ oldest self.old }
        ensures some { IfSome result (TakesOldest self.old self.new) }
        ensures none { IfNone result (self.new ≡ self.old) }
    {
        self.ring.pop_front()
    }

    /// The child that has waited longest, `None` exactly where none waits.
    pub fn front(&self) -> Option<DomId>
        ensures { result ≡ oldest self.now }
    {
        self.ring.front().copied()
    }
}
