// A page that lies in a frame of a pool.
ghost use Rattle.std.specs.Prelude.{◌≡◌};
ghost use Rattle.neph_pool.specs.Entries.{IsSoleAt};
ghost use Rattle.neph_pool.specs.Names.{IsNamed};

use crate::words::Words;
use neph_base::FrameNo;
use neph_pool::FramePool;
use std::marker::Model;

/// A page in a frame that a seat has to itself.
///
/// It borrows pool and seat. It is to be taken apart by `into_parts`, which gives them back.
pub struct FrameWords<'a, P: FramePool> {
    pool: &'a mut P,
    seat: &'a mut P::Seat,
    frame: FrameNo,
}

impl<'a, P: FramePool> Model for FrameWords<'a, P> {
    ghost use Rattle.neph_ring.specs.Frames.{Place, IsPlace};

    ghost Value = { Place P P.Seat };

    ghost view = { λ a. record { pool = a.pool; seat = a.seat; frame = a.frame } };

    ghost invariant = { λ a. IsPlace P.world a.pool.now a.seat.now a.frame };
}

impl<'a, P: FramePool> FrameWords<'a, P> {
    /// The page in this frame.
    pub fn new(pool: &'a mut P, seat: &'a mut P::Seat, frame: FrameNo) -> FrameWords<'a, P>
        requires seat { P.world.fits pool.old seat.old × IsNamed (P.world.names seat.old) }
        requires frame { IsSoleAt (P.world.entries pool.old seat.old) frame }
        ensures pool { (result.pool.ghost_name ≡ pool.entry.ghost_name)
            × (result.pool.now ≡ pool.old) }
        ensures seat { (result.seat.ghost_name ≡ seat.entry.ghost_name)
            × (result.seat.now ≡ seat.old) }
        ensures frame { result.frame ≡ frame }
    {
        FrameWords { pool, seat, frame }
    }

    /// The pool and the seat, given back.
    pub fn into_parts(self) -> (&'a mut P, &'a mut P::Seat)
        ensures pool { (result.0.ghost_name ≡ self.entry.pool.ghost_name)
            × (result.0.now ≡ self.entry.pool.now) }
        ensures seat { (result.1.ghost_name ≡ self.entry.seat.ghost_name)
            × (result.1.now ≡ self.entry.seat.now) }
    {
        let FrameWords {
            pool,
            seat,
            frame: _,
        } = self;
        (pool, seat)
    }
}

impl<'a, P: FramePool> Words for FrameWords<'a, P> {
    ghost use Rattle.neph_ring.specs.Frames.{KeepsPlace, place_words};
    ghost use Rattle.neph_ring.specs.FrameLaws.{length-page_words, place_same, place_trans};

    ghost words = { λ a. place_words P.world a };

    ghost keeps_rest = { λ a b. KeepsPlace P.world a b };

    ghost full = { λ a. length-page_words _ };

    ghost rest_same = { λ a. place_same P.world a };

    ghost rest_trans = { λ a b c h k. place_trans P.world a b c h k };

    fn get(&mut self, w: u16) -> u64 {
        self.pool.read(self.seat, self.frame, w)
    }

    fn set(&mut self, w: u16, v: u64) {
        self.pool.write(self.seat, self.frame, w, v);
    }
}
