//! The commit of a clone on the machine over counted frames.
#![tactic(auto)]

mod commit;

pub use commit::commit_turn;
