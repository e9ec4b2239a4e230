//! The frames that the hypervisor itself holds, over any pool of counted frames (Xen's name for its
//! allocator of pages is the heap): the free frames, the frames of exposed pages, and those that
//! are put aside for children.
#![tactic(auto)]

mod exposed_frame;
mod exposing;
mod heap;
mod moves;
mod page_list;
mod pages;
mod seats;
mod stock;
#[cfg(test)]
mod tests;
mod words;

pub use exposed_frame::ExposedFrame;
pub use exposing::{frame_comes, frame_goes};
pub use heap::Heap;
pub use pages::HeapPages;
pub use stock::Stock;
