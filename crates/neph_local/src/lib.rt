//! What a domain does with its memory as a whole: its start, a fork and its end.
#![tactic(auto)]

mod adopted;
mod born;
mod copying;
mod ending;
mod forking;
mod freed;
mod identity;
mod leaves;
mod many;
mod sprout;
mod started;

pub use born::{fork_back, fork_end};
pub use ending::end;
pub use forking::{Fork, fork_begin, fork_page};
pub use freed::{release_into, release_some};
pub use leaves::leaf_count;
pub use many::unshare_one;
pub use started::start;
