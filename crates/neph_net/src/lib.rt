//! The network's backend: a switch between families of domains.
#![tactic(auto)]

mod delivery;
mod switch;
#[cfg(test)]
mod tests;

pub use delivery::{Moved, deliver};
pub use switch::Switch;
