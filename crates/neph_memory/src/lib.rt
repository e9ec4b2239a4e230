//! The memory of one domain over any pool of counted frames: its pages, its page tables, its spare
//! and the write that it has in hand.
//!
//! A page is in no other domain while it is marked. A write into a page that isn't marked looks at
//! the count of its frame, and waits for a copy in the spare where another domain has the frame
//! too.
//!
//! A page that is granted goes over to another seat, where the domain alone has it: it is exposed
//! then, until it is taken back.
#![tactic(auto)]

mod build;
mod dom_local;
mod exposing;
mod fault;
mod loans;
mod looks;
mod mapped;
mod mapping;
mod own;
mod room;
mod touch;
mod write;

pub use build::{add_leaf, place, put};
pub use dom_local::DomLocal;
pub use exposing::{NotSole, comes_back};
pub use fault::MapFault;
pub use mapped::{drop_map, map_there, spend_spare};
pub use own::{Own, frame_for};
pub use room::{MAX_HELD, Room};
pub use touch::Touch;
pub use write::{NeedSpare, Write, WriteStep};
