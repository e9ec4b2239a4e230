// Frames that go to new seats and come back from old ones.
ghost use Rattle.std.specs.Prelude.{◌≡◌, ◌≢◌, ◌<◌, ◌≤◌, ◌+◌, ◌++◌, ℕ, [], true, IfOk, OnOk, OnErr, is_ok, if◌then◌else◌, length, slice_set};
ghost use Rattle.neph_pool.specs.Handing.{AreWhole};
ghost use Rattle.neph_pool.specs.Names.{IsApart, both_names, without_name};
ghost use Rattle.neph_pool.specs.World.{World, IsSeat, Spares};
ghost use Rattle.neph_heap.specs.Heap.{IsHeap, IsFilled};
ghost use Rattle.neph_heap.specs.Holds.{Has};
ghost use Rattle.neph_heap.specs.Lists.{aside_of};
ghost use Rattle.neph_heap.specs.Pages.{pages_in};

use crate::heap::Heap;
use crate::moves::{join_kept, retake_all};
use neph_base::{DomId, FrameNo, List, NoMemory};
use neph_pool::FramePool;

impl<P: FramePool> Heap<P> {
    /// Makes a seat with the name of an id, and moves so many of the free frames into it, each
    /// `sole`; lists them too. Want of memory changes nothing.
    pub fn fresh_seat(
        &mut self,
        pool: &mut P,
        id: DomId,
        count: u16,
    ) -> Result<(P::Seat, Vec<FrameNo>), NoMemory>
        requires heap { IsHeap P.world pool.old self.old.seat self.old.stock [] }
        requires name { P.world.names self.old.seat id ≡ true }
        requires other { id ≢ 0 }
        requires free { count ≤ length self.old.stock.free }
        requires room { count ≤ P.world.cap pool.old }
        ensures heap { IsHeap P.world pool.new self.new.seat self.new.stock [] }
        ensures made { IfOk result (λ made. IsFilled P.world pool.new made.0 id made.1.items) }
        ensures free { IfOk result
            (λ made. self.old.stock.free ≡ self.new.stock.free ++ made.1.items) }
        ensures count { IfOk result (λ made. length made.1.items ≡ count) }
        ensures rest { self.new.stock ≡ record self.old.stock { free = self.new.stock.free } }
        ensures err { OnErr result (self.new.stock ≡ self.old.stock) }
        ensures names { P.world.names self.new.seat ≡ (if is_ok result
            then without_name (P.world.names self.old.seat) id else P.world.names self.old.seat) }
        ensures pages { pages_in (P.world.entries pool.new self.new.seat) self.new.stock.exposed
            ≡ pages_in (P.world.entries pool.old self.old.seat) self.old.stock.exposed }
        ensures others { Spares P.world (P.world.names self.old.seat) pool.old pool.new }
        ensures shares { P.world.shares pool.new ≡ P.world.shares pool.old }
    {
        let _number = id.get();
        let mut frames = self.stock.room(count as usize)?;
        let mut seat = pool.fresh(&mut self.seat, id)?;
        self.stock.move_free(&mut frames, count as usize);
        retake_all(pool, &mut self.seat, &frames);
        pool.hand(&mut self.seat, &mut seat, &frames);
        Ok((seat, frames))
    }

    /// Makes the seat of a child, and moves so many of the free frames into it, each `sole`; lists
    /// them too. Puts as many as are wanted aside for the exposed pages that the child will have.
    /// Want of memory changes nothing.
    pub fn put_aside(
        &mut self,
        pool: &mut P,
        child: DomId,
        count: u16,
        kept: u16,
    ) -> Result<(P::Seat, Vec<FrameNo>), NoMemory>
        requires heap { IsHeap P.world pool.old self.old.seat self.old.stock [] }
        requires name { P.world.names self.old.seat child ≡ true }
        requires other { child ≢ 0 }
        requires free { count + kept ≤ length self.old.stock.free }
        requires room { count ≤ P.world.cap pool.old }
        requires none { aside_of child self.old.stock ≡ [] }
        ensures heap { IsHeap P.world pool.new self.new.seat self.new.stock [] }
        ensures made { IfOk result (λ made. IsFilled P.world pool.new made.0 child made.1.items) }
        ensures free { IfOk result (λ made. self.old.stock.free
            ≡ (self.new.stock.free ++ aside_of child self.new.stock) ++ made.1.items) }
        ensures count { IfOk result (λ made. length made.1.items ≡ count) }
        ensures kept { OnOk result (length (aside_of child self.new.stock) ≡ kept) }
        ensures rest { OnOk result (self.new.stock ≡ record self.old.stock {
          free = self.new.stock.free;
          aside = slice_set self.old.stock.aside child (aside_of child self.new.stock);
        }) }
        ensures err { OnErr result (self.new.stock ≡ self.old.stock) }
        ensures names { P.world.names self.new.seat ≡ (if is_ok result
            then without_name (P.world.names self.old.seat) child
            else P.world.names self.old.seat) }
        ensures pages { pages_in (P.world.entries pool.new self.new.seat) self.new.stock.exposed
            ≡ pages_in (P.world.entries pool.old self.old.seat) self.old.stock.exposed }
        ensures others { Spares P.world (P.world.names self.old.seat) pool.old pool.new }
        ensures shares { P.world.shares pool.new ≡ P.world.shares pool.old }
    {
        let mut aside = self.stock.room(kept as usize)?;
        let made = self.fresh_seat(pool, child, count)?;
        self.stock.move_free(&mut aside, kept as usize);
        retake_all(pool, &mut self.seat, &aside);
        self.stock.set_aside(child, List::of(aside));
        Ok(made)
    }

    /// Joins the seat of an ended domain, which keeps these frames and has no other. They are free
    /// then.
    pub fn take_in(&mut self, pool: &mut P, seat: P::Seat, frames: &[FrameNo])
        requires heap { IsHeap P.world pool.old self.old.seat self.old.stock [] }
        requires seat { IsSeat P.world pool.old seat }
        requires apart { IsApart (P.world.names self.old.seat) (P.world.names seat) }
        requires kept { Has (P.world.entries pool.old seat) [] [] frames.now }
        ensures heap { IsHeap P.world pool.new self.new.seat self.new.stock [] }
        ensures lists { self.new.stock
            ≡ record self.old.stock { free = self.old.stock.free ++ frames.now } }
        ensures names { P.world.names self.new.seat
            ≡ both_names (P.world.names self.old.seat) (P.world.names seat) }
        ensures pages { pages_in (P.world.entries pool.new self.new.seat) self.new.stock.exposed
            ≡ pages_in (P.world.entries pool.old self.old.seat) self.old.stock.exposed }
        ensures others { Spares P.world
            (both_names (P.world.names self.old.seat) (P.world.names seat)) pool.old pool.new }
        ensures shares { P.world.shares pool.new ≡ P.world.shares pool.old }
    {
        join_kept(pool, &mut self.seat, seat, frames);
        self.stock.add_free(frames);
    }

    /// The seat, with each frame as it is: kept, or the seat's alone.
    pub fn into_seat(self, _pool: &P) -> P::Seat
        requires heap { IsHeap P.world _pool.now self.seat self.stock [] }
        ensures seat { result ≡ self.seat }
        ensures whole { AreWhole (P.world.entries _pool.now result) }
    {
        let Heap { seat, .. } = self;
        seat
    }
}
