//! The text of transcripts.
#![tactic(auto)]

mod command;
mod entry;
mod families;
mod frames;
mod texts;
mod transcript;

pub use entry::entry_line;
pub use frames::frames_line;
pub use neph_model::FrameCounts;
pub use transcript::Transcript;
