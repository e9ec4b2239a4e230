//! The end of a domain, and what is known of the turns at its line, on the machine over counted
//! frames.
#![tactic(auto)]

mod exit;

pub use exit::exit_turn;
