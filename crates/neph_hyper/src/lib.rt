//! How a guest enters the hypervisor: a trait for any.
//!
//! A guest hands in the pool and its own memory at each call, and no other guest's. Contracts see
//! what a call leaves by the trait's member `calls`, so the hypervisor may stand behind a lock, and
//! other guests may have entered it in between.
#![tactic(auto)]

mod hyper;

pub use hyper::Hyper;
