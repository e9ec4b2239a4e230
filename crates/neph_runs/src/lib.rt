//! Laws of runs.
#![tactic(auto)]

mod laws;

pub use laws::{
    counts_add_up, ends_over, ends_over_or_stalled, one_run, runs_bear_copies, runs_legally,
    some_run,
};
