//! The commands of programs as their lines say them: one table, by which they are read and printed.
#![tactic(auto)]

mod command;
pub mod laws;
mod operand;
mod printing;
mod text;
mod verb;
mod why;
mod word;

pub use command::{Said, command_line};
pub use operand::Operand;
pub use printing::put_command;
pub use text::{put_hex, put_labelled, put_number, put_word};
pub use verb::{Verb, begun_by};
pub use why::Why;
pub use word::{is_digit, is_name, number};
