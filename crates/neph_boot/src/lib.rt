//! The machine over counted frames at the start of its script: the starting domains stand in their
//! places, each on frames of its own.
#![tactic(auto)]

mod blank;
mod domain;
mod start;
#[cfg(test)]
mod tests;

pub use start::boot;
