//! A 9P2000 server of one tree of files: its nodes, and the fids of each domain.
#![tactic(auto)]

mod error;
mod fid_map;
mod laws;
mod requests;
mod served;
mod tree;

pub use error::P9Error;
pub use laws::others_stay;
pub use served::{FileItem, Served, bad_message};

#[cfg(test)]
mod tests;
