//! Frames of the machine and who holds them: a trait for any pool, and the pool of one thread.
//!
//! A pool owns all frames. A holder reaches them through a seat, which has names (ids from 0 to 63)
//! and an entry for each frame that it holds. Contracts see both by the trait's member `world`.
#![tactic(auto)]

mod bytes;
mod counts;
mod entry;
mod frames;
mod holders;
mod kind;
mod owners;
mod page;
mod pages;
mod plain_pool;
mod pool;
mod renaming;
mod tally;
#[cfg(test)]
mod tests;
mod weights;

pub use bytes::{read_bytes, write_bytes};
pub use entry::{Entry, Hold};
pub use plain_pool::{MAX_CAP, PlainPool, PlainSeat};
pub use pool::{FRAME_WORDS, FramePool};
pub use tally::Tally;
