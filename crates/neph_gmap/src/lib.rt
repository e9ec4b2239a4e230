//! A guest's pages: where each lies, and the virtual pages that map it.
#![tactic(auto)]

mod homes;
mod map;
mod numbers;
mod page;
#[cfg(test)]
mod tests;
mod vpns;

pub use map::GuestMap;
pub use page::Page;
