// The network page: packets that are sent, and packets that are received.
ghost use Rattle.std.specs.Prelude.{◌≡◌, ◌↔◌, ◌+◌, ◌<◌, ◌≤◌, length, IsTrue, IsSome, IsNone, IfSome, IfNone};
ghost use Rattle.std.specs.Bool.{OnTrue, OnFalse};
ghost use Rattle.neph_ring.specs.Bytes.{bytes_of_words, u16_at, with_bytes};
ghost use Rattle.neph_ring.specs.Network.{IsNetwork, IsPacket, IsSlot, PutsPacket, TakesPacket, cons_at, head_of, net_count, packet_in, prod_at, slot_of, slot_place};

use crate::bytes::{read_bytes, write_bytes};
use crate::layout::{
    NET_RX, NET_RX_CONS, NET_RX_PROD, NET_SLOT_BYTES, NET_SLOTS, NET_TX, NET_TX_CONS, NET_TX_PROD,
    SLOT_BODY, SLOT_BODY_BYTES, SLOT_FAMILY, SLOT_LENGTH, SLOT_PORT,
};
use crate::numbers::{read_u32, write_u32};
use crate::words::Words;
use byteorder::{ByteOrder, LittleEndian};
use neph_base::{Packet, Piece};

/// A part of the network page, as the guest sees it.
#[derive(Clone, Copy, Debug, PartialEq, Eq)]
pub enum NetPart {
    /// The packets that the guest sends.
    Transmit,
    /// The packets that it receives.
    Receive,
}

impl NetPart {
    // Where the consumer's index stands.
    fn cons(self) -> usize
        ensures is { result ≡ cons_at self }
        ensures fits { result + 4 ≤ 4096 }
    {
        match self {
            NetPart::Transmit => NET_TX_CONS,
            NetPart::Receive => NET_RX_CONS,
        }
    }

    // Where the producer's index stands.
    fn prod(self) -> usize
        ensures is { result ≡ prod_at self }
        ensures fits { result + 4 ≤ 4096 }
    {
        match self {
            NetPart::Transmit => NET_TX_PROD,
            NetPart::Receive => NET_RX_PROD,
        }
    }

    // Where the slot of an index stands.
    fn slot(self, index: u32) -> usize
        ensures is { result ≡ slot_place self index }
        ensures fits { result + NET_SLOT_BYTES ≤ NET_TX_PROD }
    {
        let slots = match self {
            NetPart::Transmit => NET_TX,
            NetPart::Receive => NET_RX,
        };
        slots + NET_SLOT_BYTES * (index as usize % NET_SLOTS)
    }
}

// The first bytes of a slot: family, port, length and zero.
fn slot_head(family: u8, port: u16, len: u16) -> [u8; SLOT_BODY]
    ensures { result ≡ head_of family port len }
{
    let f = u16::from(family).to_le_bytes();
    let p = port.to_le_bytes();
    let n = len.to_le_bytes();
    [f[0], f[1], p[0], p[1], n[0], n[1], 0, 0]
}

// Writes a packet into the slot that stands at a place.
fn put_slot<W: Words>(page: &mut W, at: usize, p: &Packet)
    requires { at + NET_SLOT_BYTES ≤ NET_TX_PROD }
    ensures slot { bytes_of_words (W.words page.new)
        ≡ with_bytes (bytes_of_words (W.words page.old)) at (slot_of p.now) }
    ensures packet { IsPacket p.now }
    ensures rest { W.keeps_rest page.old page.new }
{
    let body = p.body.bytes();
    let head = slot_head(p.family, p.port, body.len() as u16);
    let zeros = [0u8; SLOT_BODY_BYTES];
    write_bytes(page, at, &head);
    write_bytes(page, at + SLOT_BODY, body);
    write_bytes(page, at + SLOT_BODY + body.len(), &zeros[body.len()..]);
}

// The 16-bit number at a place of a slot.
fn slot_number(slot: &[u8], at: usize) -> u16
    requires { at + 2 ≤ length slot.now }
    ensures { result ≡ u16_at slot.now at }
{
    LittleEndian::read_u16(&slot[at..at + 2])
}

// The packet in a slot, none exactly where there is none.
fn packet(slot: &[u8]) -> Option<Packet>
    requires { length slot.now ≡ NET_SLOT_BYTES }
    ensures exactly { IsSome result ↔ IsSlot slot.now }
    ensures packet { IfSome result (λ p. p ≡ packet_in slot.now) }
{
    let family = slot_number(slot, SLOT_FAMILY);
    let port = slot_number(slot, SLOT_PORT);
    let len = slot_number(slot, SLOT_LENGTH) as usize;
    if family > 255 || len > SLOT_BODY_BYTES {
        return None;
    }
    let body = Piece::new(&slot[SLOT_BODY..SLOT_BODY + len])?;
    Some(Packet {
        family: family as u8,
        port,
        body,
    })
}

// Puts a packet behind those that wait in a part.
fn put<W: Words>(page: &mut W, part: NetPart, p: &Packet) -> bool
    requires { IsNetwork (bytes_of_words (W.words page.old)) }
    ensures exactly { IsTrue result ↔ (net_count part (bytes_of_words (W.words page.old))
        < NET_SLOTS) }
    ensures put { OnTrue result (PutsPacket part (bytes_of_words (W.words page.old)) p.now
        (bytes_of_words (W.words page.new))) }
    ensures full { OnFalse result (W.words page.new ≡ W.words page.old) }
    ensures kept { IsNetwork (bytes_of_words (W.words page.new)) }
    ensures rest { W.keeps_rest page.old page.new }
{
    let cons = read_u32(page, part.cons());
    let prod = read_u32(page, part.prod());
    if prod.wrapping_sub(cons) as usize >= NET_SLOTS {
        return false;
    }
    put_slot(page, part.slot(prod), p);
    write_u32(page, part.prod(), prod.wrapping_add(1));
    true
}

// Takes the oldest packet of a part.
fn take<W: Words>(page: &mut W, part: NetPart) -> Option<Packet>
    requires { IsNetwork (bytes_of_words (W.words page.old)) }
    ensures exactly { IsNone result ↔ (net_count part (bytes_of_words (W.words page.old)) ≡ 0) }
    ensures took { IfSome result (λ p. TakesPacket part (bytes_of_words (W.words page.old)) p
        (bytes_of_words (W.words page.new))) }
    ensures none { IfNone result (W.words page.new ≡ W.words page.old) }
    ensures kept { IsNetwork (bytes_of_words (W.words page.new)) }
    ensures rest { W.keeps_rest page.old page.new }
{
    let cons = read_u32(page, part.cons());
    let prod = read_u32(page, part.prod());
    if prod == cons {
        return None;
    }
    let mut slot = [0u8; NET_SLOT_BYTES];
    read_bytes(page, part.slot(cons), &mut slot);
    let p = packet(&slot)?;
    write_u32(page, part.cons(), cons.wrapping_add(1));
    Some(p)
}

/// Sends a packet, whose family is the destination's. False exactly where 16 packets wait.
pub fn tx_put<W: Words>(page: &mut W, p: &Packet) -> bool
    requires { IsNetwork (bytes_of_words (W.words page.old)) }
    ensures exactly { IsTrue result
        ↔ (net_count NetPart.Transmit (bytes_of_words (W.words page.old)) < NET_SLOTS) }
    ensures put { OnTrue result (PutsPacket NetPart.Transmit
        (bytes_of_words (W.words page.old)) p.now (bytes_of_words (W.words page.new))) }
    ensures full { OnFalse result (W.words page.new ≡ W.words page.old) }
    ensures kept { IsNetwork (bytes_of_words (W.words page.new)) }
    ensures rest { W.keeps_rest page.old page.new }
{
    put(page, NetPart::Transmit, p)
}

/// Hands a packet to the guest, with the sender's family. False exactly where 16 packets wait.
pub fn rx_put<W: Words>(page: &mut W, p: &Packet) -> bool
    requires { IsNetwork (bytes_of_words (W.words page.old)) }
    ensures exactly { IsTrue result
        ↔ (net_count NetPart.Receive (bytes_of_words (W.words page.old)) < NET_SLOTS) }
    ensures put { OnTrue result (PutsPacket NetPart.Receive
        (bytes_of_words (W.words page.old)) p.now (bytes_of_words (W.words page.new))) }
    ensures full { OnFalse result (W.words page.new ≡ W.words page.old) }
    ensures kept { IsNetwork (bytes_of_words (W.words page.new)) }
    ensures rest { W.keeps_rest page.old page.new }
{
    put(page, NetPart::Receive, p)
}

/// Takes the oldest packet that the guest sent, none exactly where none waits. Its slot stays as it
/// is.
pub fn tx_take<W: Words>(page: &mut W) -> Option<Packet>
    requires { IsNetwork (bytes_of_words (W.words page.old)) }
    ensures exactly { IsNone result
        ↔ (net_count NetPart.Transmit (bytes_of_words (W.words page.old)) ≡ 0) }
    ensures took { IfSome result (λ p. TakesPacket NetPart.Transmit
        (bytes_of_words (W.words page.old)) p (bytes_of_words (W.words page.new))) }
    ensures none { IfNone result (W.words page.new ≡ W.words page.old) }
    ensures kept { IsNetwork (bytes_of_words (W.words page.new)) }
    ensures rest { W.keeps_rest page.old page.new }
{
    take(page, NetPart::Transmit)
}

/// Takes the oldest packet that the guest has received, none exactly where none waits. Its slot
/// stays as it is.
pub fn rx_take<W: Words>(page: &mut W) -> Option<Packet>
    requires { IsNetwork (bytes_of_words (W.words page.old)) }
    ensures exactly { IsNone result
        ↔ (net_count NetPart.Receive (bytes_of_words (W.words page.old)) ≡ 0) }
    ensures took { IfSome result (λ p. TakesPacket NetPart.Receive
        (bytes_of_words (W.words page.old)) p (bytes_of_words (W.words page.new))) }
    ensures none { IfNone result (W.words page.new ≡ W.words page.old) }
    ensures kept { IsNetwork (bytes_of_words (W.words page.new)) }
    ensures rest { W.keeps_rest page.old page.new }
{
    take(page, NetPart::Receive)
}
