//! Laws of the plain machine and its histories.
#![tactic(auto)]

mod laws;

pub use laws::{
    copies_its_parent, grants_stay, local_alone, local_moves, moves_on, reads_flatly,
    refuses_plainly, shared_replays, stays_apart, tracks_by_cut, weaves_legally, writes_alone,
    writes_flatly,
};
