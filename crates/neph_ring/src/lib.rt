//! The device pages that a guest shares with its backends: the console's ring, the packets of the
//! network and one 9P message, over any page that reads and writes words.
#![tactic(auto)]

mod bytes;
mod console;
mod frame_words;
mod laws;
mod layout;
mod network;
mod numbers;
mod p9;
#[cfg(test)]
mod tests;
mod word_page;
mod words;

pub use console::{drain_out, put_out};
pub use frame_words::FrameWords;
pub use laws::{child_network, zero_page};
pub use layout::{
    NET_RX, NET_RX_CONS, NET_RX_PROD, NET_SLOT_BYTES, NET_SLOTS, NET_TX, NET_TX_CONS, NET_TX_PROD,
    P9_LENGTH, P9_MESSAGE, P9_MOST, P9_STATE, SLOT_BODY, SLOT_BODY_BYTES, SLOT_FAMILY, SLOT_LENGTH,
    SLOT_PORT, XENCONS_IN, XENCONS_IN_CONS, XENCONS_IN_PROD, XENCONS_IN_SIZE, XENCONS_OUT,
    XENCONS_OUT_CONS, XENCONS_OUT_PROD, XENCONS_OUT_SIZE,
};
pub use network::{NetPart, rx_put, rx_take, tx_put, tx_take};
pub use p9::{P9State, p9_ask, p9_put, p9_reply, p9_state, p9_take};
pub use word_page::WordPage;
pub use words::Words;
