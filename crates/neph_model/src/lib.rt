//! The plain machine, the scripts that it runs and the texts about it, as definitions.
#![tactic(auto)]

mod book;
mod frames;
mod life;
mod memory;
mod own;
mod script;
mod told;

pub use book::{Book, Colours, Move, Spends, Stage};
pub use frames::FrameCounts;
pub use life::{Cloned, Guest, Life};
pub use memory::{Mapping, Page};
pub use own::{Leaves, Own, Pages, VMap};
pub use script::{Actors, Commands, Label, Labels, Program, Programs, Script, Start, Starts};
pub use told::Told;
