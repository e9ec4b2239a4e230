//! The numbers, commands, entries and replies of the machine.
#![tactic(auto)]

mod command;
mod list;
mod memory;
mod number_map;
mod numbers;
mod packet;
mod path;
mod piece;
mod reply;
mod sizes;

pub use command::{Command, Mode, Who};
pub use list::{Bytes, List, Message, Name, Names, Text, TryClone};
pub use memory::NoMemory;
pub use number_map::NumberMap;
pub use numbers::{DomId, FrameNo, GrantRef, Handle, PageOffset, Pfn, Port, VAddr, Vpn};
pub use packet::Packet;
pub use path::{Path, SLASH, XENSTORE_ABS_PATH_MAX};
pub use piece::Piece;
pub use reply::{Actor, Entry, Noted, Refusal, Reply};
pub use sizes::{IDS, MAX_FRAMES, MAX_PAGES, PAGE_BYTES, TABLE_ENTRIES};
