// The pool of one thread.
use crate::counts::{recount, recount_all};
use crate::frames::Frames;
use crate::pool::FramePool;
use crate::renaming::{add_names, point_names, rename_all, renaming_of};
use crate::tally::Tally;
use neph_base::{DomId, FrameNo, IDS, MAX_FRAMES, NoMemory};
use std::alloc::Global;

/// The most entries that a pool may let a seat without the name 0 have for each name.
pub const MAX_CAP: u16 = 2048;

/// A seat of the plain pool. Its entries lie in the pool, under the number `row`.
#[derive(Drop)]
pub struct PlainSeat {
    row: u8,
    met: u32,
    names: [bool; IDS],
}

/// The pool of one thread: all frames, with who holds each, and the row of each name.
#[derive(Drop)]
pub struct PlainPool {
    frames: Frames,
    rows: [u8; IDS],
    held: [u64; IDS],
    cap: u16,
    shares: u64,
}

impl PlainPool {
    ghost use Rattle.std.specs.Prelude.{◌≡◌, ◌<◌, ◌≤◌, ◌+◌, ◌-◌, ◌^◌, List, Option, min, IfOk, slice_index};
    ghost use Rattle.neph_pool.specs.Plain.{plain_world, IsStart, counts_of};
    ghost use Rattle.neph_pool.specs.Seats.{AreAllSeats, AreCounted};
    ghost use Rattle.neph_pool.specs.declared.plain_pool.PlainSeat.{PlainSeat};

    /// A pool of frames of zeros, with a seat that keeps all of them and has all 64 names. `frames`
    /// is 1 to 16384, and `cap`, the number of entries that a seat without the name 0 may have for
    /// each name, 1 to 2048. The words of a frame take memory from when one of them is first not 0.
    pub fn new(alloc: Global, frames: u32, cap: u16) -> Result<(PlainPool, PlainSeat), NoMemory>
        requires frames { (1 ≤ frames) × (frames ≤ MAX_FRAMES) }
        requires cap { (1 ≤ cap) × (cap ≤ MAX_CAP) }
        ensures { IfOk result (λ r. IsStart frames cap r.0 r.1) }
    {
        let mut held = [0; IDS];
        held[0] = u64::from(frames);
        let pool = PlainPool {
            frames: Frames::new(alloc, frames)?,
            rows: [0; IDS],
            held,
            cap,
            shares: 0,
        };
        let seat = PlainSeat {
            row: 0,
            met: 0,
            names: [true; IDS],
        };
        Ok((pool, seat))
    }

    /// How many references of the frame there are: so many as all seats together hold.
    pub fn count(&self, f: FrameNo) -> u32
        requires { f < plain_world.frames self.now }
        ensures count { result ≡ slice_index (counts_of self.now) f }
        ensures sums { (seats : List (Option PlainSeat)) → AreAllSeats plain_world self.now seats
            → AreCounted plain_world self.now seats }
    {
        self.frames.total(f.get() as usize)
    }

    /// Gives the pool up. Its number of shares goes to the tally.
    pub fn end(self, t: &mut Tally)
        ensures { t.new ≡ min (t.old + plain_world.shares self) (2 ^ 64 - 1) }
    {
        t.raise(self.shares);
    }
}

impl FramePool for PlainPool {
    ghost use Rattle.std.specs.Prelude.{◌≡◌, ◌≢◌, true, IsOk, IfOk, is_ok, if◌then◌else◌};
    ghost use Rattle.neph_pool.specs.Names.{without_name};
    ghost use Rattle.neph_pool.specs.Plain.{plain_world};
    ghost use Rattle.neph_pool.specs.PlainLaws.{plain_shaped, plain_capped};
    ghost use Rattle.neph_pool.specs.World.{Spares, SameCounts, IsFresh};

    type Seat = PlainSeat;

    ghost world = { plain_world };

    ghost shaped = { plain_shaped };

    ghost capped = { plain_capped };

    fn read(&mut self, s: &mut PlainSeat, f: FrameNo, w: u16) -> u64 {
        self.frames.word(f.get() as usize, w as usize)
    }

    fn write(&mut self, s: &mut PlainSeat, f: FrameNo, w: u16, v: u64) {
        self.frames.put_word(f.get() as usize, w as usize, v);
    }

    fn blank(&mut self, s: &mut PlainSeat, f: FrameNo) {
        self.frames.blank(f.get() as usize);
    }

    fn copy(&mut self, s: &mut PlainSeat, from: FrameNo, to: FrameNo) {
        let source = from.get() as usize;
        let target = to.get() as usize;
        self.frames.copy(source, target);
    }

    fn copy_across(&mut self, from: &mut PlainSeat, to: &mut PlainSeat, f: FrameNo, t: FrameNo) {
        let place = f.get() as usize;
        let other = t.get() as usize;
        self.frames.copy(place, other);
    }

    fn look(&mut self, s: &mut PlainSeat, f: FrameNo) -> bool {
        let place = f.get() as usize;
        let mut owners = self.frames.owners(place);
        s.met = owners.look(s.row);
        self.frames.put_owners(place, owners);
        s.met == 1
    }

    fn share(&mut self, s: &mut PlainSeat, f: FrameNo) {
        let place = f.get() as usize;
        self.frames.share(place, s.row);
        self.shares = self.shares.saturating_add(1);
    }

    fn release(&mut self, s: &mut PlainSeat, f: FrameNo) -> bool {
        let place = f.get() as usize;
        s.met = self.frames.total(place);
        let last = self.frames.release(place, s.row);
        recount(&mut self.held, s.row, true, last);
        last
    }

    fn retake(&mut self, s: &mut PlainSeat, f: FrameNo) {
        let place = f.get() as usize;
        let mut owners = self.frames.owners(place);
        owners.retake(s.row);
        self.frames.put_owners(place, owners);
    }

    fn hand(&mut self, from: &mut PlainSeat, to: &mut PlainSeat, part: &[FrameNo]) {
        for f in part {
            let place = f.get() as usize;
            let had = self.frames.holds(place, to.row);
            self.frames.hand(place, from.row, to.row);
            let has = self.frames.holds(place, from.row);
            recount(&mut self.held, from.row, true, has);
            recount(&mut self.held, to.row, had, true);
        }
    }

    /// It takes no memory.
    fn fresh(&mut self, s: &mut PlainSeat, d: DomId) -> Result<PlainSeat, NoMemory>
        requires seat { plain_world.fits self.old s.old }
        requires names { (plain_world.names s.old 0 ≡ true) × (plain_world.names s.old d ≡ true) }
        requires other { d ≢ 0 }
        ensures always { IsOk result }
        ensures new { IfOk result (λ t. IsFresh plain_world self.new t d) }
        ensures names { plain_world.names s.new
            ≡ (if is_ok result then without_name (plain_world.names s.old) d
            else plain_world.names s.old) }
        ensures seat { plain_world.fits self.new s.new }
        ensures entries { plain_world.entries self.new s.new ≡ plain_world.entries self.old s.old }
        ensures met { plain_world.met s.new ≡ plain_world.met s.old }
        ensures others { Spares plain_world (plain_world.names s.old) self.old self.new }
        ensures counts { SameCounts plain_world self.old self.new }
    {
        let name = d.get() as u8;
        s.names[name as usize] = false;
        self.rows[name as usize] = name;
        let mut names = [false; IDS];
        names[name as usize] = true;
        Ok(PlainSeat {
            row: name,
            met: 0,
            names,
        })
    }

    fn join(&mut self, s: &mut PlainSeat, other: PlainSeat) {
        let (from, to) = renaming_of(s.row, other.row);
        rename_all(&mut self.frames, from, to, self.held[from as usize]);
        recount_all(&mut self.held, from, to);
        add_names(&mut s.names, &other.names);
        point_names(&mut self.rows, &s.names, to);
        s.row = to;
    }

    fn tell(&mut self, s: &mut PlainSeat) {
        let _ = s;
    }
}
