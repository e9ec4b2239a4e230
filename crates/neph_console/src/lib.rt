//! The console's backend.
#![tactic(auto)]

#[cfg(test)]
mod tests;
mod text;

pub use text::drain;
