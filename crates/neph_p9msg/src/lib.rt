//! Messages of 9P2000, both ways: what a message is, its one spelling, and a decoder and an encoder
//! of it.
#![tactic(auto)]

mod decoding;
mod draft;
mod encoding;
mod fields;
mod kind;
mod laws;
mod msg;

pub use decoding::decode;
pub use encoding::encode;
pub use laws::{none_begins_another, one_message_for_bytes, read_again};
pub use msg::{MAXWELEM, MSIZE, Msg, MsgBody, NOFID, NOTAG, QTDIR, QTFILE, Qid, Qids};

#[cfg(test)]
mod tests;
