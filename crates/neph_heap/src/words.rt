// The bytes of frames: read, and written for a child.
ghost use Rattle.std.specs.Prelude.{◌≡◌, ◌≢◌, ◌+◌, ◌<◌, ◌≤◌, ◌++◌, ℕ, [], map, length, take, drop, vec_capacity};
ghost use Rattle.neph_pool.specs.Bytes.{bytes_at};
ghost use Rattle.neph_pool.specs.Entries.{IsHeldAt, IsSoleAt, hold_at, with_words, words_at};
ghost use Rattle.neph_pool.specs.World.{World, IsSeat, Moves, SameCounts};
ghost use Rattle.neph_heap.specs.Pages.{child_page, child_page_in, page_in, zero_page_at};
ghost use Rattle.std.specs.List.{range_with_len};
ghost use Rattle.neph_heap.specs.Holds.{times};
ghost use Rattle.neph_heap.specs.Lists.{frames_of};
ghost use Rattle.neph_model.specs.Memory.{child_network_page};

use crate::exposed_frame::ExposedFrame;
use neph_base::{FrameNo, Pfn};
use neph_pool::{FramePool, read_bytes, write_bytes};
use neph_ptab::wipe;

// Reads bytes of a frame, from this offset on.
pub fn read_into<P: FramePool>(
    pool: &mut P,
    seat: &mut P::Seat,
    f: FrameNo,
    at: usize,
    into: &mut [u8],
)
    requires seat { IsSeat P.world pool.old seat.old }
    requires frame { IsHeldAt (P.world.entries pool.old seat.old) f }
    requires fits { at + length into.old ≤ 4096 }
    ensures bytes { into.new
        ≡ take (length into.old) (drop at (bytes_at (P.world.entries pool.old seat.old) f)) }
    ensures entries { P.world.entries pool.new seat.new ≡ P.world.entries pool.old seat.old }
    ensures moves { Moves P.world pool.old seat.old pool.new seat.new }
    ensures counts { SameCounts P.world pool.old pool.new }
{
    let mut done = 0;
    while done < into.len() {
        let len = (into.len() - done).min(64);
        let piece = read_bytes(pool, seat, f, (at + done) as u16, len as u8);
        place(into, done, piece.bytes());
        done += len;
    }
}

// Writes bytes over others, from this offset on.
fn place(into: &mut [u8], at: usize, bytes: &[u8])
    requires { at + length bytes.now ≤ length into.old }
    ensures { into.new ≡ take at into.old ++ bytes.now ++ drop (at + length bytes.now) into.old }
{
    into[at..at + bytes.len()].copy_from_slice(bytes);
}

// Fills these frames with what a child gets of its parent's exposed pages, and lists the child's.
pub fn fill_pages<P: FramePool>(
    pool: &mut P,
    seat: &mut P::Seat,
    parent: &[ExposedFrame],
    frames: &[FrameNo],
    born: &mut Vec<ExposedFrame>,
)
    requires seat { IsSeat P.world pool.old seat.old }
    requires count { length frames.now ≡ length parent.now }
    requires none { born.old.items ≡ [] }
    requires room { length parent.now ≤ vec_capacity born.old }
    requires from { (f : ℕ) → 0 < times f (frames_of parent.now)
        → IsSoleAt (P.world.entries pool.old seat.old) f }
    requires to { (f : ℕ) → 0 < times f frames.now
        → IsSoleAt (P.world.entries pool.old seat.old) f }
    requires once { (f : ℕ) → times f (frames_of parent.now) + times f frames.now ≤ 1 }
    ensures pages { map (page_in (P.world.entries pool.new seat.new)) born.new.items
        ≡ map (child_page_in (P.world.entries pool.old seat.old)) parent.now }
    ensures frames { frames_of born.new.items ≡ frames.now }
    ensures holds { (f : ℕ) → hold_at (P.world.entries pool.new seat.new) f
        ≡ hold_at (P.world.entries pool.old seat.old) f }
    ensures words { (f : ℕ) → times f frames.now ≡ 0
        → words_at (P.world.entries pool.new seat.new) f
        ≡ words_at (P.world.entries pool.old seat.old) f }
    ensures moves { Moves P.world pool.old seat.old pool.new seat.new }
    ensures shares { P.world.shares pool.new ≡ P.world.shares pool.old }
{
    for i in 0..parent.len() {
        let page = &parent[i];
        let frame = frames[i];
        fill_page(pool, seat, page.pfn, page.frame, frame);
        born.push_reserved(ExposedFrame {
            pfn: page.pfn,
            frame,
        });
    }
}

// Fills three frames with zeros, and lists them as the pages 1, 2 and 3.
pub fn zero_pages<P: FramePool>(
    pool: &mut P,
    seat: &mut P::Seat,
    frames: &[FrameNo],
    born: &mut Vec<ExposedFrame>,
)
    requires seat { IsSeat P.world pool.old seat.old }
    requires count { length frames.now ≡ 3 }
    requires none { born.old.items ≡ [] }
    requires room { 3 ≤ vec_capacity born.old }
    requires sole { (f : ℕ) → 0 < times f frames.now
        → IsSoleAt (P.world.entries pool.old seat.old) f }
    requires once { (f : ℕ) → times f frames.now ≤ 1 }
    ensures pages { map (page_in (P.world.entries pool.new seat.new)) born.new.items
        ≡ map zero_page_at (range_with_len 1 3) }
    ensures frames { frames_of born.new.items ≡ frames.now }
    ensures holds { (f : ℕ) → hold_at (P.world.entries pool.new seat.new) f
        ≡ hold_at (P.world.entries pool.old seat.old) f }
    ensures words { (f : ℕ) → times f frames.now ≡ 0
        → words_at (P.world.entries pool.new seat.new) f
        ≡ words_at (P.world.entries pool.old seat.old) f }
    ensures moves { Moves P.world pool.old seat.old pool.new seat.new }
    ensures shares { P.world.shares pool.new ≡ P.world.shares pool.old }
{
    for i in 0..3u32 {
        let frame = frames[i as usize];
        wipe(pool, seat, frame);
        born.push_reserved(ExposedFrame {
            pfn: Pfn::new(i + 1).unwrap(),
            frame,
        });
    }
}

// Fills a frame with what a child gets of an exposed page.
pub fn fill_page<P: FramePool>(
    pool: &mut P,
    seat: &mut P::Seat,
    pfn: Pfn,
    from: FrameNo,
    to: FrameNo,
)
    requires seat { IsSeat P.world pool.old seat.old }
    requires from { IsHeldAt (P.world.entries pool.old seat.old) from }
    requires to { IsSoleAt (P.world.entries pool.old seat.old) to }
    ensures entries { P.world.entries pool.new seat.new
        ≡ with_words (P.world.entries pool.old seat.old) to
        (words_at (P.world.entries pool.new seat.new) to) }
    ensures bytes { bytes_at (P.world.entries pool.new seat.new) to
        ≡ child_page pfn (bytes_at (P.world.entries pool.old seat.old) from) }
    ensures moves { Moves P.world pool.old seat.old pool.new seat.new }
    ensures counts { SameCounts P.world pool.old pool.new }
{
    let number = pfn.get();
    if number == 1 {
        wipe(pool, seat, to);
    } else if number == 2 {
        copy_silent(pool, seat, from, to);
    } else if number == 3 {
        wipe(pool, seat, to);
    } else {
        pool.copy(seat, from, to);
    }
}

// Copies a network page but for what it sends.
fn copy_silent<P: FramePool>(pool: &mut P, seat: &mut P::Seat, from: FrameNo, to: FrameNo)
    requires seat { IsSeat P.world pool.old seat.old }
    requires from { IsHeldAt (P.world.entries pool.old seat.old) from }
    requires to { IsSoleAt (P.world.entries pool.old seat.old) to }
    ensures entries { P.world.entries pool.new seat.new
        ≡ with_words (P.world.entries pool.old seat.old) to
        (words_at (P.world.entries pool.new seat.new) to) }
    ensures bytes { bytes_at (P.world.entries pool.new seat.new) to
        ≡ child_network_page (bytes_at (P.world.entries pool.old seat.old) from) }
    ensures moves { Moves P.world pool.old seat.old pool.new seat.new }
    ensures counts { SameCounts P.world pool.old pool.new }
{
    pool.copy(seat, from, to);
    write_bytes(pool, seat, to, 0, &[0; 1152]);
    write_bytes(pool, seat, to, 2304, &[0; 8]);
}
