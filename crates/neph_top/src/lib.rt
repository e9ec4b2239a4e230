//! The top call: reads a script, runs it, writes the transcript.
#![tactic(auto)]

mod call;
mod process;
mod run;
mod status;
#[cfg(test)]
mod tests;

pub use neph_core::Tally;
pub use process::exit_code;
pub use run::{run_call, top};
