// Each call over the plain pool, through its bound.
ghost use Rattle.std.specs.Prelude.{◌≡◌, ◌≢◌, ◌<◌, ◌≤◌, true, Some};
ghost use Rattle.neph_pool.specs.Entries.{hold_at, IsZeroAt, IsOnceAt};
ghost use Rattle.neph_pool.specs.Handing.{nothing};
ghost use Rattle.neph_pool.specs.Names.{IsApart};
ghost use Rattle.neph_pool.specs.World.{World, IsSeat, Moves};
ghost use Rattle.neph_pool.specs.declared.entry.Hold.TheVariants.{Counted};

use crate::bytes::{read_bytes, write_bytes};
use crate::plain_pool::PlainPool;
use crate::pool::FramePool;
use crate::tally::Tally;
use neph_base::{DomId, FrameNo, NoMemory, Piece};
use std::alloc::Global;
use std::test::Fail;

// A kept frame is taken, written and shared.
#[tactic(auto, using(crate::proofs::Entries::entry_laws, crate::proofs::Calls::call_laws))]
fn share_out<P: FramePool>(pool: &mut P, s: &mut P::Seat, f: FrameNo)
    requires seat { IsSeat P.world pool.old s.old }
    requires frame { IsZeroAt (P.world.entries pool.old s.old) f }
    ensures hold { hold_at (P.world.entries pool.new s.new) f ≡ Some (Counted 2) }
    ensures moves { Moves P.world pool.old s.old pool.new s.new }
{
    pool.retake(s, f);
    pool.write(s, f, 7, 77);
    pool.share(s, f);
}

// One reference of a frame goes to a seat that has nothing.
fn lend<P: FramePool>(pool: &mut P, s: &mut P::Seat, t: &mut P::Seat, d: DomId, f: FrameNo)
    requires s { IsSeat P.world pool.old s.old }
    requires t { P.world.fits pool.old t.old × (P.world.names t.old d ≡ true) }
    requires apart { IsApart (P.world.names s.old) (P.world.names t.old) }
    requires frame { hold_at (P.world.entries pool.old s.old) f ≡ Some (Counted 2) }
    requires nothing { P.world.entries pool.old t.old ≡ nothing (P.world.frames pool.old) }
    requires cap { 1 ≤ P.world.cap pool.old }
    ensures s { IsSeat P.world pool.new s.new }
    ensures t { IsSeat P.world pool.new t.new }
    ensures given { IsOnceAt (P.world.entries pool.new s.new) f }
    ensures taken { IsOnceAt (P.world.entries pool.new t.new) f }
    ensures apart { IsApart (P.world.names t.new) (P.world.names s.new) }
{
    let _d = d.get();
    pool.hand(s, t, &[f]);
}

// A reference is looked at, read and given up: whether it was the only one, the word, whether it
// was the last.
#[tactic(auto, using(crate::proofs::Entries::entry_laws, crate::proofs::Calls::call_laws))]
fn give_up<P: FramePool>(pool: &mut P, s: &mut P::Seat, f: FrameNo) -> (bool, u64, bool)
    requires seat { IsSeat P.world pool.old s.old }
    requires frame { IsOnceAt (P.world.entries pool.old s.old) f }
    ensures moves { Moves P.world pool.old s.old pool.new s.new }
{
    let sole = pool.look(s, f);
    let word = pool.read(s, f, 7);
    let last = pool.release(s, f);
    (sole, word, last)
}

// A kept frame is written, and its page copied into another: words of both.
#[tactic(auto, using(crate::proofs::Entries::entry_laws, crate::proofs::Calls::call_laws))]
fn copied<P: FramePool>(pool: &mut P, s: &mut P::Seat, f: FrameNo, to: FrameNo) -> (u64, u64, u64)
    requires seat { IsSeat P.world pool.old s.old }
    requires from { IsZeroAt (P.world.entries pool.old s.old) f }
    requires to { IsZeroAt (P.world.entries pool.old s.old) to }
    requires apart { to ≢ f }
    ensures moves { Moves P.world pool.old s.old pool.new s.new }
{
    pool.retake(s, f);
    pool.retake(s, to);
    let blank = pool.read(s, to, 511);
    pool.write(s, f, 511, 77);
    pool.copy(s, f, to);
    pool.write(s, f, 511, 78);
    (blank, pool.read(s, to, 511), pool.read(s, f, 511))
}

// Bytes are written across two words: some of them again, and the first word.
#[tactic(auto, using(crate::proofs::Entries::entry_laws, crate::proofs::Calls::call_laws))]
fn spelled<P: FramePool>(pool: &mut P, s: &mut P::Seat, f: FrameNo) -> (Piece, u64)
    requires seat { IsSeat P.world pool.old s.old }
    requires frame { IsZeroAt (P.world.entries pool.old s.old) f }
    ensures moves { Moves P.world pool.old s.old pool.new s.new }
{
    pool.retake(s, f);
    write_bytes(pool, s, f, 5, b"abcdef");
    let piece = read_bytes(pool, s, f, 6, 4);
    let word = pool.read(s, f, 0);
    (piece, word)
}

#[test]
fn bytes_lie_low_end_first(rt: HostRuntime) -> Result<(), Fail> {
    let (mut pool, mut s) = PlainPool::new(rt.alloc(), 16, 16)?;
    let f = FrameNo::new(3).ok_or("frame")?;
    assert!(rt; f.get() < 16);
    let (piece, word) = spelled(&mut pool, &mut s, f);
    assert!(rt; piece.bytes() == b"bcde".as_slice());
    assert_eq!(rt; word, 0x6362_6100_0000_0000);
    Ok(())
}

#[test]
fn frames_are_lent(rt: HostRuntime) -> Result<(), Fail> {
    let (mut pool, mut s) = PlainPool::new(rt.alloc(), 16, 16)?;
    let f = FrameNo::new(3).ok_or("frame")?;
    let d = DomId::new(1).ok_or("id")?;
    assert!(rt; f.get() < 16);
    assert!(rt; d.get() != 0);
    share_out(&mut pool, &mut s, f);
    let mut t = pool.fresh(&mut s, d)?;
    lend(&mut pool, &mut s, &mut t, d, f);
    assert_eq!(rt; give_up(&mut pool, &mut t, f), (false, 77, false));
    assert_eq!(rt; give_up(&mut pool, &mut s, f), (true, 77, true));
    Ok(())
}

#[test]
fn seats_are_joined(rt: HostRuntime) -> Result<(), Fail> {
    let (mut pool, mut s) = PlainPool::new(rt.alloc(), 16, 16)?;
    let d = DomId::new(1).ok_or("id")?;
    assert!(rt; d.get() != 0);
    let t = pool.fresh(&mut s, d)?;
    pool.join(&mut s, t);
    Ok(())
}

// A frame of a new pool is copied into another.
fn copied_over(
    alloc: Global,
    frames: u32,
    f: FrameNo,
    to: FrameNo,
) -> Result<(u64, u64, u64), NoMemory>
    requires frames { (1 ≤ frames) × (frames ≤ 16384) }
    requires from { f < frames }
    requires to { to < frames }
    requires apart { to ≢ f }
{
    let (mut pool, mut s) = PlainPool::new(alloc, frames, 2048)?;
    Ok(copied(&mut pool, &mut s, f, to))
}

#[test]
fn the_largest_pool(rt: HostRuntime) -> Result<(), Fail> {
    let first = FrameNo::new(0).ok_or("frame")?;
    let last = FrameNo::new(16383).ok_or("frame")?;
    assert!(rt; first.get() < 16384);
    assert!(rt; last.get() < 16384);
    assert!(rt; first.get() != last.get());
    assert_eq!(rt; copied_over(rt.alloc(), 16384, last, first)?, (0, 77, 78));
    Ok(())
}

#[test]
fn shares_are_tallied(rt: HostRuntime) -> Result<(), Fail> {
    let mut tally = Tally::new();
    for _run in 0..2u32 {
        let (mut pool, mut s) = PlainPool::new(rt.alloc(), 1, 1)?;
        let f = FrameNo::new(0).ok_or("frame")?;
        assert!(rt; f.get() < 1);
        share_out(&mut pool, &mut s, f);
        assert_eq!(rt; pool.count(f), 2);
        pool.end(&mut tally);
    }
    assert_eq!(rt; tally.shares(), 2);
    Ok(())
}
