//! What a guest does by itself, over counted frames, and its turns over any hypervisor.
//!
//! A guest's line, its marks and its memory in the pool stand for the own half of the plain
//! machine. A line that enters no hypervisor does to it what the plain machine's row says, or says
//! why it can't be done yet. A turn goes on from there: it asks the hypervisor for what is left.
#![tactic(auto)]

mod copying;
mod forking;
mod going;
mod jump;
mod live;
mod local;
mod memory;
mod row;
mod turn;
mod turned;

pub use copying::copy_turn;
pub use forking::{commit_turn, page_turn};
pub use going::{go_on, refuse};
pub use live::{Guest, Live, Stage};
pub use local::local_turn;
pub use row::{CopyTurn, LocalTurn};
pub use turn::{end_turn, guest_turn};
pub use turned::Turned;
