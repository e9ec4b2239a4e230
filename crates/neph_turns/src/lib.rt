//! The turns of all actors on the machine over counted frames, and what its frames are used for.
#![tactic(auto)]

mod dispatch;
mod uses;

pub use dispatch::turn;
pub use uses::counts;
