// Members are chosen, packets delivered and drops counted.
ghost use Rattle.neph_ring.specs.Bytes.{bytes_of_words};
ghost use Rattle.neph_ring.specs.Network.{IsNetwork};

use crate::delivery::{Moved, deliver};
use crate::switch::Switch;
use neph_base::{DomId, Packet, Piece};
use neph_ring::{WordPage, Words, rx_put, rx_take, tx_put, tx_take};
use std::test::Fail;

#[test]
fn members_are_chosen_by_port(rt: HostRuntime) -> Result<(), Fail> {
    let one = DomId::new(1).ok_or("one")?;
    let two = DomId::new(2).ok_or("two")?;
    let three = DomId::new(3).ok_or("three")?;
    let mut sw = Switch::new();
    sw.join(1, three);
    sw.join(2, two);
    sw.join(1, one);
    assert!(rt; sw.choose(1, 0) == Some(one));
    assert!(rt; sw.choose(1, 65535) == Some(three));
    assert!(rt; sw.choose(2, 7) == Some(two));
    assert!(rt; sw.choose(3, 0).is_none());
    sw.leave(one);
    assert!(rt; sw.choose(1, 0) == Some(three));
    Ok(())
}

// A packet goes back to its sender's own page, and what the page has then.
fn send_home<W: Words>(sw: &mut Switch, page: &mut W, p: &Packet) -> Option<Packet>
    requires { IsNetwork (bytes_of_words (W.words page.old)) }
{
    if !tx_put(page, p) {
        return None;
    }
    let sent = tx_take(page)?;
    if deliver(sw, 2, &sent, Some(page)) == Moved::Dropped {
        return None;
    }
    Some(sent)
}

// Fills a receive part.
fn fill<W: Words>(page: &mut W, p: &Packet)
    requires { IsNetwork (bytes_of_words (W.words page.old)) }
    ensures { IsNetwork (bytes_of_words (W.words page.new)) }
{
    for _n in 0..16 {
        rx_put(page, p);
    }
}

#[test]
fn packets_are_delivered_or_dropped(rt: HostRuntime) -> Result<(), Fail> {
    let mut sw = Switch::new();
    let mut page = WordPage::new(rt.alloc())?;
    let p = Packet {
        family: 1,
        port: 0,
        body: Piece::new(b"a0").ok_or("piece")?,
    };
    assert!(rt; send_home(&mut sw, &mut page, &p) == Some(p));
    assert_eq!(rt; page.get(144), 0x0000_0002_0000_0002);
    let mut full = WordPage::new(rt.alloc())?;
    fill(&mut full, &p);
    assert!(rt; rx_take(&mut full) == Some(p));
    assert!(rt; rx_put(&mut full, &p));
    assert!(rt; deliver(&mut sw, 2, &p, Some(&mut full)) == Moved::Dropped);
    let nowhere: Option<&mut WordPage> = None;
    assert!(rt; deliver(&mut sw, 2, &p, nowhere) == Moved::Dropped);
    assert_eq!(rt; sw.drops(1), 2);
    assert_eq!(rt; sw.drops(2), 0);
    Ok(())
}
