//! The grammar of scripts: reads them, and prints them again.
#![tactic(auto)]

mod form;
mod frames;
mod index;
mod judge;
pub mod laws;
mod printing;
mod reading;
mod settle;
mod state;
#[cfg(test)]
mod tests;
mod why;
mod word;

pub use neph_command::Why;
pub use neph_model::Script;
pub use printing::print_script;
pub use reading::parse;
pub use why::{BadScript, ParseEnd};
