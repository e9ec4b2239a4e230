//! Page tables of a domain, in frames of its seat.
#![tactic(auto)]

mod bits;
mod empty_table;
mod tables;
#[cfg(test)]
mod tests;
mod walk;

pub use empty_table::wipe;
pub use tables::Tables;
pub use walk::Walk;
