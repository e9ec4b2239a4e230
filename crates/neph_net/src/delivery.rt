// A packet's way to its receiver.
ghost use Rattle.std.specs.Option.{ForSome, option_copied_mut};
ghost use Rattle.neph_ring.specs.Bytes.{bytes_of_words};
ghost use Rattle.neph_ring.specs.Network.{IsNetwork};
ghost use Rattle.neph_net.specs.Delivery.{GoesTo, IsDelivery, left_behind};

use crate::switch::Switch;
use neph_base::Packet;
use neph_ring::{Words, rx_put};

/// Where a packet went.
#[derive(Clone, Copy, Debug, PartialEq, Eq)]
pub enum Moved {
    /// It waits in the receiver's page.
    Delivered,
    /// It went nowhere, and was counted as dropped.
    Dropped,
}

// Hands a packet to a receiver.
fn deliver_to<W: Words>(sw: &mut Switch, sender: u8, p: &Packet, page: &mut W) -> Moved
    requires { IsNetwork (bytes_of_words (W.words page.old)) }
    ensures goes { GoesTo result sender p.now sw.old sw.new
        (bytes_of_words (W.words page.old)) (bytes_of_words (W.words page.new)) }
    ensures kept { IsNetwork (bytes_of_words (W.words page.new)) }
    ensures rest { W.keeps_rest page.old page.new }
{
    let handed = Packet {
        family: sender,
        port: p.port,
        body: p.body,
    };
    if rx_put(page, &handed) {
        Moved::Delivered
    } else {
        sw.count_drop(p.family);
        Moved::Dropped
    }
}

/// Hands a packet that was taken from a sender's page to its receiver's page, with the sender's
/// family in place of the destination's.
///
/// It is dropped exactly where there is no receiver or 16 packets wait in the receiver's page; the
/// destination family's count of drops then rises by one.
pub fn deliver<W: Words>(sw: &mut Switch, sender: u8, p: &Packet, to: Option<&mut W>) -> Moved
    requires { ForSome to (λ page. IsNetwork (bytes_of_words (W.words page.now))) }
    ensures { IsDelivery W.words W.keeps_rest result sender p.now sw.old sw.new
        (option_copied_mut to.entry) (left_behind (λ f. f.0.now) to.exit) }
{
    match to {
        Some(page) => deliver_to(sw, sender, p, page),
        None => {
            sw.count_drop(p.family);
            Moved::Dropped
        }
    }
}
