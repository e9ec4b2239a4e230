// The bytes of a frame, little-endian in its words.
ghost use Rattle.std.specs.Prelude.{◌≡◌, ◌+◌, ◌%◌, ◌<◌, ◌≤◌, length, take, drop};
ghost use Rattle.std.specs.Int.{w64, to_le_bytes};
ghost use Rattle.neph_pool.specs.Bytes.{bytes_at, with_bytes};
ghost use Rattle.neph_pool.specs.Entries.{with_words, words_at, IsHeldAt, IsSoleAt};
ghost use Rattle.neph_pool.specs.World.{World, IsSeat, Moves, SameCounts};

use crate::pool::FramePool;
use neph_base::{FrameNo, PAGE_BYTES, Piece};

// A word with these bytes from a lane on.
fn with_lanes(old: u64, lane: usize, bytes: &[u8]) -> u64
    requires { lane + length bytes.now ≤ 8 }
    ensures { to_le_bytes w64 result ≡ with_bytes (to_le_bytes w64 old) lane bytes.now }
{
    let mut word = old.to_le_bytes();
    for i in 0..bytes.len() {
        word[lane + i] = bytes[i];
    }
    u64::from_le_bytes(word)
}

// Writes bytes that lie within one word of a frame, and leaves the word's others.
fn write_in_word<P: FramePool>(
    pool: &mut P,
    seat: &mut P::Seat,
    f: FrameNo,
    at: usize,
    bytes: &[u8],
)
    requires seat { IsSeat P.world pool.old seat.old }
    requires frame { IsSoleAt (P.world.entries pool.old seat.old) f }
    requires at { at < PAGE_BYTES }
    requires within { at % 8 + length bytes.now ≤ 8 }
    ensures entries { P.world.entries pool.new seat.new
        ≡ with_words (P.world.entries pool.old seat.old) f
        (words_at (P.world.entries pool.new seat.new) f) }
    ensures bytes { bytes_at (P.world.entries pool.new seat.new) f
        ≡ with_bytes (bytes_at (P.world.entries pool.old seat.old) f) at bytes.now }
    ensures met { P.world.met seat.new ≡ P.world.met seat.old }
    ensures moves { Moves P.world pool.old seat.old pool.new seat.new }
    ensures counts { SameCounts P.world pool.old pool.new }
{
    let w = (at / 8) as u16;
    if let Some(whole) = bytes.as_array::<8>() {
        pool.write(seat, f, w, u64::from_le_bytes(*whole));
        return;
    }
    let old = pool.read(seat, f, w);
    pool.write(seat, f, w, with_lanes(old, at % 8, bytes));
}

/// The bytes of a frame from this offset on, 1 to 64 of them, none past the frame's end.
pub fn read_bytes<P: FramePool>(
    pool: &mut P,
    seat: &mut P::Seat,
    f: FrameNo,
    at: u16,
    len: u8,
) -> Piece
    requires seat { IsSeat P.world pool.old seat.old }
    requires frame { IsHeldAt (P.world.entries pool.old seat.old) f }
    requires len { (0 < len) × (len ≤ 64) }
    requires fits { at + len ≤ PAGE_BYTES }
    ensures bytes { result
        ≡ take len (drop at (bytes_at (P.world.entries pool.old seat.old) f)) }
    ensures entries { P.world.entries pool.new seat.new ≡ P.world.entries pool.old seat.old }
    ensures met { P.world.met seat.new ≡ P.world.met seat.old }
    ensures moves { Moves P.world pool.old seat.old pool.new seat.new }
    ensures counts { SameCounts P.world pool.old pool.new }
{
    let first = at / 8;
    let lane = (at % 8) as usize;
    let end = lane + len as usize;
    let mut bytes = [0u8; 72];
    for i in 0..end.div_ceil(8) {
        let word = pool.read(seat, f, first + i as u16).to_le_bytes();
        bytes[8 * i..8 * i + 8].copy_from_slice(&word);
    }
    Piece::new(&bytes[lane..end]).unwrap()
}

/// Writes bytes into a frame from this offset on, none past its end. The seat has the frame to
/// itself.
pub fn write_bytes<P: FramePool>(
    pool: &mut P,
    seat: &mut P::Seat,
    f: FrameNo,
    at: u16,
    bytes: &[u8],
)
    requires seat { IsSeat P.world pool.old seat.old }
    requires frame { IsSoleAt (P.world.entries pool.old seat.old) f }
    requires fits { at + length bytes.now ≤ PAGE_BYTES }
    ensures entries { P.world.entries pool.new seat.new
        ≡ with_words (P.world.entries pool.old seat.old) f
        (words_at (P.world.entries pool.new seat.new) f) }
    ensures bytes { bytes_at (P.world.entries pool.new seat.new) f
        ≡ with_bytes (bytes_at (P.world.entries pool.old seat.old) f) at bytes.now }
    ensures met { P.world.met seat.new ≡ P.world.met seat.old }
    ensures moves { Moves P.world pool.old seat.old pool.new seat.new }
    ensures counts { SameCounts P.world pool.old pool.new }
{
    let mut done = 0;
    while done < bytes.len() {
        let place = at as usize + done;
        let n = (8 - place % 8).min(bytes.len() - done);
        write_in_word(pool, seat, f, place, &bytes[done..done + n]);
        done += n;
    }
}
