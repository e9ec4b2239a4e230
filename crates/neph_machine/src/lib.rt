//! The machine over counted frames: the hypervisor and the guests, in the places of their ids; the
//! states of the definitions that it stands for, and the laws of the frames that follow.
#![tactic(auto)]

mod daemon;
mod laws;
mod machine;
mod place;
mod turn;

pub use laws::{
    count_tells_shared, free_is_listed, plain_pool_is_surveyed, sole_is_alone, uses_are_counts,
};
pub use machine::Machine;
pub use place::{Flight, Place, live_mut, put_live, put_place, take_flight, take_live};
pub use turn::Turn;
