//! The first stage of a clone: whether it may begin. The second stage: the ring in which committed
//! children wait for it, and what the clone daemon asks of a machine.
#![tactic(auto)]

mod admission;
mod ring;
#[cfg(test)]
mod tests;
mod two_stage;

pub use admission::{CloneFacts, MAX_CLONES, admit};
pub use ring::{NOTIFY_RING_SIZE, NotifyRing};
pub use two_stage::TwoStage;
