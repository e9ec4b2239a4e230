//! Laws of frames, of their counts and of the pages' colours, for a machine of many seats.
#![tactic(auto)]

mod laws;

pub use laws::{
    colours_are_frames, commit_follows, copy_follows, count_tells_shared, counts_pages,
    end_follows, free_is_kept, ids_name_seats, line_keeps, move_follows, new_pool_is_free, one_use,
    quiet_keeps, seats_are_all, sole_is_one, starts_apart, uses_all_frames, uses_are_counts,
    uses_exclude,
};
