// Each call over a page of its own and over a page in a frame.
ghost use Rattle.std.specs.Prelude.{IsTrue};
ghost use Rattle.neph_pool.specs.Entries.{IsZeroAt};
ghost use Rattle.neph_pool.specs.Names.{IsNamed};
ghost use Rattle.neph_ring.specs.Bytes.{bytes_of_words};
ghost use Rattle.neph_ring.specs.Console.{IsConsole};
ghost use Rattle.neph_ring.specs.Network.{IsNetwork};
ghost use Rattle.neph_ring.specs.P9Page.{IsP9Page};

use crate::console::{drain_out, put_out};
use crate::frame_words::FrameWords;
use crate::layout::{
    NET_RX_CONS, NET_RX_PROD, NET_TX_CONS, NET_TX_PROD, P9_LENGTH, P9_STATE, XENCONS_OUT_CONS,
    XENCONS_OUT_PROD,
};
use crate::network::{rx_put, rx_take, tx_put, tx_take};
use crate::numbers::read_u32;
use crate::p9::{P9State, p9_ask, p9_put, p9_reply, p9_state, p9_take};
use crate::word_page::WordPage;
use crate::words::Words;
use neph_base::{FrameNo, NoMemory, Packet, Piece};
use neph_pool::{FramePool, PlainPool};
use std::alloc::Global;
use std::test::Fail;

// Whether a page can be a console page.
fn has_console<W: Words>(page: &mut W) -> bool
    ensures { IsTrue result → IsConsole (bytes_of_words (W.words page.new)) }
{
    let cons = read_u32(page, XENCONS_OUT_CONS);
    let prod = read_u32(page, XENCONS_OUT_PROD);
    prod.wrapping_sub(cons) <= 2048
}

// Whether a page can be a network page on which nothing waits.
fn has_network<W: Words>(page: &mut W) -> bool
    ensures { IsTrue result → IsNetwork (bytes_of_words (W.words page.new)) }
{
    let tx_cons = read_u32(page, NET_TX_CONS);
    let tx_prod = read_u32(page, NET_TX_PROD);
    let rx_cons = read_u32(page, NET_RX_CONS);
    let rx_prod = read_u32(page, NET_RX_PROD);
    tx_cons == tx_prod && rx_cons == rx_prod
}

// Whether a page can be a 9P page.
fn has_p9<W: Words>(page: &mut W) -> bool
    ensures { IsTrue result → IsP9Page (bytes_of_words (W.words page.new)) }
{
    let state = read_u32(page, P9_STATE);
    let len = read_u32(page, P9_LENGTH);
    state <= 2 && len <= 1024
}

// Puts a piece so many times, and tells how often there was room.
fn fill<W: Words>(page: &mut W, piece: &Piece, times: u32) -> u32
    requires { IsConsole (bytes_of_words (W.words page.old)) }
    ensures { IsConsole (bytes_of_words (W.words page.new)) }
{
    let mut had = 0u32;
    for _n in 0..times {
        if put_out(page, piece) {
            had = had.wrapping_add(1);
        }
    }
    had
}

// Puts and drains a piece round the end of the ring and of the indexes.
fn wrap_console<W: Words>(page: &mut W, text: &mut Vec<u8>) -> Result<bool, NoMemory> {
    page.set(385, 0xFFFF_FFFD_FFFF_FFFD);
    let Some(piece) = Piece::new(b"Nephele") else {
        return Ok(false);
    };
    if !has_console(page) || !put_out(page, &piece) {
        return Ok(false);
    }
    let ring = page.get(383) == 0x7065_4E00_0000_0000 && page.get(128) == 0x656C_6568;
    let indexes = page.get(385) == 0x0000_0004_FFFF_FFFD;
    let count = drain_out(page, text)?;
    Ok(ring && indexes && count == 7 && page.get(385) == 0x0000_0004_0000_0004)
}

// Sends packets until there is no room, and takes them all.
fn send_all<W: Words>(page: &mut W, p: &Packet) -> (u32, u32) {
    page.set(288, 0xFFFF_FFF9_FFFF_FFF9);
    page.set(289, 0xFFFF_FFFF_FFFF_FFFF);
    let mut sent = 0u32;
    let mut taken = 0u32;
    if has_network(page) {
        for _n in 0..17 {
            if tx_put(page, p) {
                sent = sent.wrapping_add(1);
            }
            if rx_put(page, p) {
                sent = sent.wrapping_add(1);
            }
        }
        for _n in 0..17 {
            if tx_take(page) == Some(*p) {
                taken = taken.wrapping_add(1);
            }
            if rx_take(page) == Some(*p) {
                taken = taken.wrapping_add(1);
            }
        }
    }
    (sent, taken)
}

// A request and its answer.
fn exchange<W: Words>(
    alloc: Global,
    page: &mut W,
    ask: &[u8],
    answer: &[u8],
) -> Result<bool, NoMemory> {
    if ask.len() > 1024 || answer.len() > 1024 || !has_p9(page) || !p9_put(page, ask) {
        return Ok(false);
    }
    let asked = p9_ask(alloc, page)?;
    p9_reply(page, answer);
    if p9_put(page, ask) || p9_state(page) != P9State::Answered {
        return Ok(false);
    }
    let answered = p9_take(alloc, page)?;
    let idle = p9_state(page) == P9State::Idle;
    Ok(idle && asked.items() == ask && answered.items() == answer)
}

// The calls over a page in a frame that the seat keeps.
#[tactic(auto, using(neph_pool::proofs::Entries::entry_laws, neph_pool::proofs::Calls::call_laws))]
fn in_frame<P: FramePool>(
    alloc: Global,
    pool: &mut P,
    seat: &mut P::Seat,
    f: FrameNo,
    p: &Packet,
) -> Result<(u32, u32), NoMemory>
    requires seat { P.world.fits pool.old seat.old × IsNamed (P.world.names seat.old) }
    requires frame { IsZeroAt (P.world.entries pool.old seat.old) f }
{
    pool.retake(seat, f);
    let mut text = Vec::new(alloc);
    let mut page = FrameWords::new(pool, seat, f);
    let held = exchange(alloc, &mut page, b"Tversion", b"Rversion");
    let wrapped = wrap_console(&mut page, &mut text);
    let counts = send_all(&mut page, p);
    let (_pool, _seat) = page.into_parts();
    if held? && wrapped? && text.as_slice() == b"Nephele".as_slice() {
        Ok(counts)
    } else {
        Ok((0, 0))
    }
}

#[test]
fn calls_over_a_frame(rt: HostRuntime) -> Result<(), Fail> {
    let (mut pool, mut seat) = PlainPool::new(rt.alloc(), 2, 16)?;
    let f = FrameNo::new(1).ok_or("frame")?;
    assert!(rt; f.get() < 2);
    let p = Packet {
        family: 1,
        port: 0,
        body: Piece::new(b"a0").ok_or("piece")?,
    };
    assert!(rt; in_frame(rt.alloc(), &mut pool, &mut seat, f, &p)? == (32, 32));
    Ok(())
}

#[test]
fn a_console_is_filled_and_drained(rt: HostRuntime) -> Result<(), Fail> {
    let mut page = WordPage::new(rt.alloc())?;
    let sevens = vec![in rt.alloc(); 7u8; 64]?;
    let piece = Piece::new(&sevens).ok_or("piece")?;
    let mut text = Vec::new(rt.alloc());
    assert_eq!(rt; fill(&mut page, &piece, 33), 32);
    assert_eq!(rt; drain_out(&mut page, &mut text)?, 2048);
    assert_eq!(rt; drain_out(&mut page, &mut text)?, 0);
    assert_eq!(rt; text.len(), 2048);
    Ok(())
}

#[test]
fn packets_stand_in_slots(rt: HostRuntime) -> Result<(), Fail> {
    let mut page = WordPage::new(rt.alloc())?;
    let p = Packet {
        family: 2,
        port: 1,
        body: Piece::new(b"a1").ok_or("piece")?,
    };
    assert!(rt; send_all(&mut page, &p) == (32, 32));
    assert_eq!(rt; page.get(288), 0x0000_0009_0000_0009);
    assert_eq!(rt; page.get(0), 0x0000_0002_0001_0002);
    assert_eq!(rt; page.get(1), 0x3161);
    assert_eq!(rt; page.get(144), 0x0000_0002_0001_0002);
    Ok(())
}

#[test]
fn messages_of_all_sizes(rt: HostRuntime) -> Result<(), Fail> {
    let mut page = WordPage::new(rt.alloc())?;
    let long = vec![in rt.alloc(); 5u8; 1024]?;
    assert!(rt; exchange(rt.alloc(), &mut page, &long, b"")?);
    assert!(rt; exchange(rt.alloc(), &mut page, b"", &long)?);
    assert!(rt; exchange(rt.alloc(), &mut page, b"Tversion", b"Rversion")?);
    assert_eq!(rt; page.get(0), 0);
    assert_eq!(rt; page.get(1), 0x6E6F_6973_7265_7652);
    assert_eq!(rt; page.get(2), 0x0505_0505_0505_0505);
    Ok(())
}
