// The tables of a domain.
ghost use Rattle.std.specs.Prelude.{◌≡◌, ◌≢◌, ◌==◌, ◌/◌, ◌%◌, ◌^◌, ◌<◌, ◌↔◌, ℕ, true, IsTrue, IsSome, IfSome, MatchOption, if◌then◌else◌, Some, None};
ghost use Rattle.neph_pool.specs.Entries.{hold_at, words_at, with_word, with_words, IsHeldAt, IsSoleAt};
ghost use Rattle.neph_pool.specs.Names.{IsApart, both_names};
ghost use Rattle.neph_pool.specs.World.{World, IsSeat, Moves, Stays, Spares, SameCounts};
ghost use Rattle.neph_ptab.specs.Bits.{root_word, walk_word, NotBoth};
ghost use Rattle.neph_ptab.specs.Moves.{IsLocal, moved_walk, is_shown, walk_moved};
ghost use Rattle.neph_ptab.specs.Tables.{leaf_at, walk_at, IsTables, IsRetabled, zero_words};

use crate::bits::{leaf_in, leaf_place, root_place, root_word, walk_in, walk_word};
use crate::empty_table::wipe;
use crate::walk::Walk;
use neph_base::{FrameNo, MAX_FRAMES, TABLE_ENTRIES, Vpn};
use neph_pool::FramePool;
use std::marker::PhantomData;

/// The page tables of a domain: a root and leaf tables, in frames that the domain's seat has to
/// itself.
///
/// Each call is handed the pool and the seat. All that the tables say lies in the frames.
#[derive(Drop)]
pub struct Tables<P: FramePool> {
    /// The frame of the root.
    pub root: FrameNo,
    of: PhantomData<P>,
}

#[tactic(auto, using(neph_pool::proofs::Entries::entry_laws, neph_pool::proofs::Calls::call_laws))]
impl<P: FramePool> Tables<P> {
    /// Tables that map nothing and have no leaf, with this frame as the root.
    pub fn new(pool: &mut P, seat: &mut P::Seat, root: FrameNo) -> Tables<P>
        requires seat { IsSeat P.world pool.old seat.old }
        requires root { IsSoleAt (P.world.entries pool.old seat.old) root }
        ensures root { result.root ≡ root }
        ensures entries { P.world.entries pool.new seat.new
            ≡ with_words (P.world.entries pool.old seat.old) root zero_words }
        ensures leaves { (i : ℕ) → i < TABLE_ENTRIES
            → leaf_at (P.world.entries pool.new seat.new) root i ≡ None }
        ensures walks { (v : ℕ) → v < 2 ^ 18
            → walk_at (P.world.entries pool.new seat.new) root v ≡ Walk.None }
        ensures stands { IsTables (P.world.entries pool.new seat.new) root }
        ensures met { P.world.met seat.new ≡ P.world.met seat.old }
        ensures moves { Moves P.world pool.old seat.old pool.new seat.new }
        ensures counts { SameCounts P.world pool.old pool.new }
    {
        wipe(pool, seat, root);
        Tables {
            root,
            of: PhantomData,
        }
    }

    /// The leaf table for a virtual page, `None` exactly where there is none.
    pub fn leaf(&self, pool: &mut P, seat: &mut P::Seat, v: Vpn) -> Option<FrameNo>
        requires seat { IsSeat P.world pool.old seat.old }
        requires stands { IsTables (P.world.entries pool.old seat.old) self.now.root }
        ensures leaf { result
            ≡ leaf_at (P.world.entries pool.old seat.old) self.now.root (v / TABLE_ENTRIES) }
        ensures range { v < 2 ^ 18 }
        ensures entries { P.world.entries pool.new seat.new ≡ P.world.entries pool.old seat.old }
        ensures met { P.world.met seat.new ≡ P.world.met seat.old }
        ensures moves { Moves P.world pool.old seat.old pool.new seat.new }
        ensures counts { SameCounts P.world pool.old pool.new }
    {
        let word = pool.read(seat, self.root, root_place(v));
        leaf_in(word)
    }

    /// The leaf table of the place `i` of the root, `None` exactly where there is none. The root
    /// alone must still stand.
    pub fn nth_leaf(&self, pool: &mut P, seat: &mut P::Seat, i: u16) -> Option<FrameNo>
        requires seat { IsSeat P.world pool.old seat.old }
        requires root { IsHeldAt (P.world.entries pool.old seat.old) self.now.root }
        requires place { i < TABLE_ENTRIES }
        requires number { (f : ℕ) → leaf_at (P.world.entries pool.old seat.old) self.now.root i
            ≡ Some f → f < MAX_FRAMES }
        ensures leaf { result ≡ leaf_at (P.world.entries pool.old seat.old) self.now.root i }
        ensures entries { P.world.entries pool.new seat.new ≡ P.world.entries pool.old seat.old }
        ensures met { P.world.met seat.new ≡ P.world.met seat.old }
        ensures moves { Moves P.world pool.old seat.old pool.new seat.new }
        ensures counts { SameCounts P.world pool.old pool.new }
    {
        let word = pool.read(seat, self.root, i);
        leaf_in(word)
    }

    /// What the tables say of a virtual page, `Walk::None` exactly where nothing is mapped.
    pub fn walk(&self, pool: &mut P, seat: &mut P::Seat, v: Vpn) -> Walk
        requires seat { IsSeat P.world pool.old seat.old }
        requires stands { IsTables (P.world.entries pool.old seat.old) self.now.root }
        ensures walk { result ≡ walk_at (P.world.entries pool.old seat.old) self.now.root v }
        ensures range { v < 2 ^ 18 }
        ensures entries { P.world.entries pool.new seat.new ≡ P.world.entries pool.old seat.old }
        ensures met { P.world.met seat.new ≡ P.world.met seat.old }
        ensures moves { Moves P.world pool.old seat.old pool.new seat.new }
        ensures counts { SameCounts P.world pool.old pool.new }
    {
        match self.leaf(pool, seat, v) {
            Some(leaf) => walk_in(pool.read(seat, leaf, leaf_place(v))),
            None => Walk::None,
        }
    }

    /// Whether a leaf table is missing for this virtual page.
    pub fn needs_leaf(&self, pool: &mut P, seat: &mut P::Seat, v: Vpn) -> bool
        requires seat { IsSeat P.world pool.old seat.old }
        requires stands { IsTables (P.world.entries pool.old seat.old) self.now.root }
        ensures needs { IsTrue result ↔ (leaf_at (P.world.entries pool.old seat.old) self.now.root
            (v / TABLE_ENTRIES) ≡ None) }
        ensures range { v < 2 ^ 18 }
        ensures entries { P.world.entries pool.new seat.new ≡ P.world.entries pool.old seat.old }
        ensures met { P.world.met seat.new ≡ P.world.met seat.old }
        ensures moves { Moves P.world pool.old seat.old pool.new seat.new }
        ensures counts { SameCounts P.world pool.old pool.new }
    {
        self.leaf(pool, seat, v).is_none()
    }

    /// Makes an empty leaf table, in this frame, where one is missing.
    pub fn add_leaf(&mut self, pool: &mut P, seat: &mut P::Seat, v: Vpn, frame: FrameNo)
        requires seat { IsSeat P.world pool.old seat.old }
        requires stands { IsTables (P.world.entries pool.old seat.old) self.old.root }
        requires needed { leaf_at (P.world.entries pool.old seat.old) self.old.root
            (v / TABLE_ENTRIES) ≡ None }
        requires frame { IsSoleAt (P.world.entries pool.old seat.old) frame }
        requires root { frame ≢ self.old.root }
        requires new { (i : ℕ) → i < TABLE_ENTRIES
            → leaf_at (P.world.entries pool.old seat.old) self.old.root i ≢ Some frame }
        ensures root { self.new.root ≡ self.old.root }
        ensures entries { P.world.entries pool.new seat.new
            ≡ with_word (with_words (P.world.entries pool.old seat.old) frame zero_words)
            self.old.root (v / TABLE_ENTRIES) (root_word (Some frame)) }
        ensures leaves { (i : ℕ) → i < TABLE_ENTRIES
            → leaf_at (P.world.entries pool.new seat.new) self.old.root i
            ≡ (if i == v / TABLE_ENTRIES then Some frame
            else leaf_at (P.world.entries pool.old seat.old) self.old.root i) }
        ensures walks { (u : ℕ) → u < 2 ^ 18
            → walk_at (P.world.entries pool.new seat.new) self.old.root u
            ≡ walk_at (P.world.entries pool.old seat.old) self.old.root u }
        ensures holds { (f : ℕ) → hold_at (P.world.entries pool.new seat.new) f
            ≡ hold_at (P.world.entries pool.old seat.old) f }
        ensures words { (f : ℕ) → f ≢ self.old.root → f ≢ frame
            → words_at (P.world.entries pool.new seat.new) f
            ≡ words_at (P.world.entries pool.old seat.old) f }
        ensures stands { IsTables (P.world.entries pool.new seat.new) self.old.root }
        ensures met { P.world.met seat.new ≡ P.world.met seat.old }
        ensures moves { Moves P.world pool.old seat.old pool.new seat.new }
        ensures counts { SameCounts P.world pool.old pool.new }
    {
        wipe(pool, seat, frame);
        pool.write(seat, self.root, root_place(v), root_word(frame));
    }

    /// Makes a leaf table, in this frame, where one is missing: a copy of the one that other tables
    /// have there, in another seat. What that seat has to itself this one lacks.
    pub fn copy_leaf(
        &mut self,
        pool: &mut P,
        seat: &mut P::Seat,
        other: &Tables<P>,
        from: &mut P::Seat,
        i: u16,
        frame: FrameNo,
    )
        requires seat { IsSeat P.world pool.old seat.old }
        requires from { IsSeat P.world pool.old from.old }
        requires apart { IsApart (P.world.names from.old) (P.world.names seat.old) }
        requires stands { IsTables (P.world.entries pool.old seat.old) self.old.root }
        requires source { IsTables (P.world.entries pool.old from.old) other.now.root }
        requires place { i < TABLE_ENTRIES }
        requires there { IsSome (leaf_at (P.world.entries pool.old from.old) other.now.root i) }
        requires needed { leaf_at (P.world.entries pool.old seat.old) self.old.root i ≡ None }
        requires frame { IsSoleAt (P.world.entries pool.old seat.old) frame }
        requires root { frame ≢ self.old.root }
        requires new { (j : ℕ) → j < TABLE_ENTRIES
            → leaf_at (P.world.entries pool.old seat.old) self.old.root j ≢ Some frame }
        ensures root { self.new.root ≡ self.old.root }
        ensures kept { P.world.entries pool.new from.new ≡ P.world.entries pool.old from.old }
        ensures alone { (g : ℕ) → IsSoleAt (P.world.entries pool.old from.old) g
            → hold_at (P.world.entries pool.old seat.old) g ≡ None }
        ensures leaves { (j : ℕ) → j < TABLE_ENTRIES
            → leaf_at (P.world.entries pool.new seat.new) self.old.root j
            ≡ (if j == i then Some frame
            else leaf_at (P.world.entries pool.old seat.old) self.old.root j) }
        ensures walks { (u : ℕ) → u < 2 ^ 18
            → walk_at (P.world.entries pool.new seat.new) self.old.root u
            ≡ (if u / TABLE_ENTRIES == i
            then walk_at (P.world.entries pool.old from.old) other.now.root u
            else walk_at (P.world.entries pool.old seat.old) self.old.root u) }
        ensures holds { (f : ℕ) → hold_at (P.world.entries pool.new seat.new) f
            ≡ hold_at (P.world.entries pool.old seat.old) f }
        ensures words { (f : ℕ) → f ≢ self.old.root → f ≢ frame
            → words_at (P.world.entries pool.new seat.new) f
            ≡ words_at (P.world.entries pool.old seat.old) f }
        ensures stands { IsTables (P.world.entries pool.new seat.new) self.old.root }
        ensures met { (P.world.met from.new ≡ P.world.met from.old)
            × (P.world.met seat.new ≡ P.world.met seat.old) }
        ensures from { Stays P.world pool.new from.old from.new }
        ensures seat { Stays P.world pool.new seat.old seat.new }
        ensures others { Spares P.world (both_names (P.world.names from.old)
            (P.world.names seat.old)) pool.old pool.new }
        ensures counts { SameCounts P.world pool.old pool.new }
    {
        let leaf = other.nth_leaf(pool, from, i).unwrap();
        pool.copy_across(from, seat, leaf, frame);
        pool.write(seat, self.root, i, root_word(frame));
    }

    /// Makes a virtual page lead there. Its leaf table must be there. A local page can't be both
    /// writable at once and shared.
    pub fn set(&mut self, pool: &mut P, seat: &mut P::Seat, v: Vpn, to: Walk)
        requires seat { IsSeat P.world pool.old seat.old }
        requires stands { IsTables (P.world.entries pool.old seat.old) self.old.root }
        requires leaf { IsSome
            (leaf_at (P.world.entries pool.old seat.old) self.old.root (v / TABLE_ENTRIES)) }
        requires to { NotBoth to }
        ensures root { self.new.root ≡ self.old.root }
        ensures entries { IfSome
            (leaf_at (P.world.entries pool.old seat.old) self.old.root (v / TABLE_ENTRIES))
            (λ f. P.world.entries pool.new seat.new
            ≡ with_word (P.world.entries pool.old seat.old) f (v % TABLE_ENTRIES) (walk_word to)) }
        ensures walks { (u : ℕ) → u < 2 ^ 18
            → walk_at (P.world.entries pool.new seat.new) self.old.root u
            ≡ (if u == v then to
            else walk_at (P.world.entries pool.old seat.old) self.old.root u) }
        ensures tables { IsRetabled (P.world.entries pool.old seat.old)
            (P.world.entries pool.new seat.new) self.old.root }
        ensures range { v < 2 ^ 18 }
        ensures met { P.world.met seat.new ≡ P.world.met seat.old }
        ensures moves { Moves P.world pool.old seat.old pool.new seat.new }
        ensures counts { SameCounts P.world pool.old pool.new }
    {
        let leaf = self.leaf(pool, seat, v).unwrap();
        pool.write(seat, leaf, leaf_place(v), walk_word(to));
    }

    /// Makes a virtual page lead nowhere. Without a leaf table it does already.
    pub fn clear(&mut self, pool: &mut P, seat: &mut P::Seat, v: Vpn)
        requires seat { IsSeat P.world pool.old seat.old }
        requires stands { IsTables (P.world.entries pool.old seat.old) self.old.root }
        ensures root { self.new.root ≡ self.old.root }
        ensures entries { MatchOption
            (leaf_at (P.world.entries pool.old seat.old) self.old.root (v / TABLE_ENTRIES))
            (P.world.entries pool.new seat.new ≡ P.world.entries pool.old seat.old)
            (λ f. P.world.entries pool.new seat.new
            ≡ with_word (P.world.entries pool.old seat.old) f (v % TABLE_ENTRIES) 0) }
        ensures walks { (u : ℕ) → u < 2 ^ 18
            → walk_at (P.world.entries pool.new seat.new) self.old.root u
            ≡ (if u == v then Walk.None
            else walk_at (P.world.entries pool.old seat.old) self.old.root u) }
        ensures tables { IsRetabled (P.world.entries pool.old seat.old)
            (P.world.entries pool.new seat.new) self.old.root }
        ensures range { v < 2 ^ 18 }
        ensures met { P.world.met seat.new ≡ P.world.met seat.old }
        ensures moves { Moves P.world pool.old seat.old pool.new seat.new }
        ensures counts { SameCounts P.world pool.old pool.new }
    {
        if !self.needs_leaf(pool, seat, v) {
            self.set(pool, seat, v, Walk::None);
        }
    }

    // One virtual page leads to its page's new frame.
    fn move_one(&mut self, pool: &mut P, seat: &mut P::Seat, v: Vpn, to: FrameNo, alone: bool)
        requires seat { IsSeat P.world pool.old seat.old }
        requires stands { IsTables (P.world.entries pool.old seat.old) self.old.root }
        requires local { IsLocal (walk_at (P.world.entries pool.old seat.old) self.old.root v) }
        ensures root { self.new.root ≡ self.old.root }
        ensures walks { (u : ℕ) → u < 2 ^ 18
            → walk_at (P.world.entries pool.new seat.new) self.old.root u
            ≡ (if u == v
            then moved_walk to alone (walk_at (P.world.entries pool.old seat.old) self.old.root u)
            else walk_at (P.world.entries pool.old seat.old) self.old.root u) }
        ensures tables { IsRetabled (P.world.entries pool.old seat.old)
            (P.world.entries pool.new seat.new) self.old.root }
        ensures met { P.world.met seat.new ≡ P.world.met seat.old }
        ensures moves { Moves P.world pool.old seat.old pool.new seat.new }
        ensures counts { SameCounts P.world pool.old pool.new }
    {
        let walk = self.walk(pool, seat, v);
        self.set(pool, seat, v, walk.moved(to, alone));
    }

    /// Lets all of these virtual pages, which show one local page, lead to another frame of it.
    /// They may be written at once, where they are wanted writable, if the frame is the domain's
    /// alone; else they may be shared.
    pub fn move_page(
        &mut self,
        pool: &mut P,
        seat: &mut P::Seat,
        vpns: &[Vpn],
        to: FrameNo,
        alone: bool,
    )
        requires seat { IsSeat P.world pool.old seat.old }
        requires stands { IsTables (P.world.entries pool.old seat.old) self.old.root }
        requires local { (u : ℕ) → u < 2 ^ 18 → is_shown u vpns.now ≡ true
            → IsLocal (walk_at (P.world.entries pool.old seat.old) self.old.root u) }
        ensures root { self.new.root ≡ self.old.root }
        ensures walks { (u : ℕ) → u < 2 ^ 18
            → walk_at (P.world.entries pool.new seat.new) self.old.root u
            ≡ walk_moved to alone vpns.now u
            (walk_at (P.world.entries pool.old seat.old) self.old.root u) }
        ensures tables { IsRetabled (P.world.entries pool.old seat.old)
            (P.world.entries pool.new seat.new) self.old.root }
        ensures met { P.world.met seat.new ≡ P.world.met seat.old }
        ensures moves { Moves P.world pool.old seat.old pool.new seat.new }
        ensures counts { SameCounts P.world pool.old pool.new }
    {
        for v in vpns {
            let _number = v.get();
            self.move_one(pool, seat, *v, to, alone);
        }
    }
}
