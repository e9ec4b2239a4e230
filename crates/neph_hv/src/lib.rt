//! The hypervisor over any pool of counted frames: its tables, its frames, and what it does under
//! its lock for the domains, whose memories are handed in.
#![tactic(auto)]

mod ask;
mod begin;
mod commit;
mod end;
mod grants;
mod hv;
mod hyper;

pub use begin::Begin;
pub use hv::Hv;
