//! The page steps of a clone in flight, on the machine over counted frames.
#![tactic(auto)]

mod page;

pub use page::step_page;
