// What guests send each other over the switch.
use crate::piece::Piece;

/// A packet. Of one that is sent the family is the destination's, of one that is received the
/// sender's.
#[derive(Clone, Copy, Debug, PartialEq, Eq)]
pub struct Packet {
    /// The number of a family of domains, from 1.
    pub family: u8,
    /// The port, by which the switch chooses a member of the family.
    pub port: u16,
    /// What is carried.
    pub body: Piece,
}
