//! The store's tree: a finite map from path to value, closed under parents.
#![tactic(auto)]

mod by_path;
mod growth;
mod hints;
mod homes;
mod limit;
mod node;
mod node_map;
mod node_slab;
mod place;
mod places;
mod refusals;
#[cfg(test)]
mod tests;
mod tree;

pub use place::{PLACE_FRONT_BYTES, Place};
pub use refusals::{DOMAIN_NODES, RemoveRefused, WriteRefused};
pub use tree::{TREE_PATH_BYTES, Tree};
