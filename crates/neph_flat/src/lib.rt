//! The plain machine as a program.
#![tactic(auto)]

mod call;
mod child;
mod counts;
mod end;
mod flat_pages;
mod halves;
mod jump;
mod local;
mod memory;
mod page_map;
mod plain;
mod start;

pub use end::FlatEnd;
pub use neph_model::{Own, Script, Told};
pub use plain::Plain;
pub use start::start_registry;
