//! The run of a script by turns, on the machine over counted frames.
#![tactic(auto)]

mod machine;
mod rounds;

pub use machine::Machine;
pub use neph_pool::Tally;
pub use rounds::{Played, play};
