//! The hypervisor's tables, and the rows of the entries under the lock on them, over exposed pages
//! that are kept anyhow.
#![tactic(auto)]

mod births;
mod clone;
mod exposed_pages;
mod grants;
mod handles;
mod lent;
mod live_ids;
mod memory;
mod registry;
mod sharing;
mod slots;
mod trap;

pub use births::{commit, end, join};
pub use clone::{begin, clone_refusal, need, next_child};
pub use exposed_pages::ExposedPages;
pub use grants::ungrant;
pub use lent::Lent;
pub use registry::Registry;
pub use trap::line;
