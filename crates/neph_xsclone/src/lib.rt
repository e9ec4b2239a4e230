//! The store's nodes of a domain: those it starts with, those a clone has of its parent, and their
//! end.
#![tactic(auto)]

mod bytes;
mod copies;
mod domain;
mod laws;
mod start;
#[cfg(test)]
mod tests;
mod value;

pub use domain::{xs_clone, xs_end, xs_start};
pub use laws::copies_node_by_node;
