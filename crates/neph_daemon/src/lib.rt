//! The clone daemon: the second stage of a clone.
#![tactic(auto)]

mod daemon;
#[cfg(test)]
mod tests;

pub use daemon::{Daemon, stage_two};
