// Any pool of frames.
ghost use Rattle.std.specs.Prelude.{◌≡◌, ◌≢◌, ◌+◌, ◌-◌, ◌*◌, ◌^◌, ◌<◌, ◌≤◌, ◌↔◌, ℕ, true, IsTrue, None, IfSome, IfOk, is_ok, min, if◌then◌else◌, slice_index};
ghost use Rattle.neph_pool.specs.Entries.{word_at, words_at, with_word, with_words, with_hold, without, hold_at, is_here, IsHeldAt, IsSoleAt, IsZeroAt, IsOnceAt, IsShaped, entry_count};
ghost use Rattle.neph_pool.specs.Handing.{MayHand, is_among, left_after, moved_into, AreWhole, add_entries};
ghost use Rattle.neph_pool.specs.Names.{IsApart, IsCapped, both_names, without_name, lack_count};
ghost use Rattle.neph_pool.specs.Page.{blank_page};
ghost use Rattle.neph_pool.specs.World.{World, IsSeat, Spares, Stays, Moves, SameCounts, IsFresh, recounted};
ghost use Rattle.neph_pool.specs.declared.entry.Hold.TheVariants.{Zero, Sole, Counted};

use neph_base::{DomId, FrameNo, NoMemory};

/// The words of a frame, of 64 bits each.
pub const FRAME_WORDS: u16 = 512;

/// A pool of frames of 512 words each, and the seats through which they are held.
///
/// A call is handed the seats that it speaks of. Each must be a seat of this pool with a name, and
/// two must have no name in common. All other seats are left as they were. Only `fresh` may take
/// memory.
pub trait FramePool {
    /// What a holder of frames has in hand.
    type Seat: Drop;

    /// How contracts read the pool and its seats.
    ghost world: { World Self Self.Seat };

    /// The word `w` of the frame `f`, of which the seat holds a reference.
    fn read(&mut self, s: &mut Self::Seat, f: FrameNo, w: u16) -> u64
        requires seat { IsSeat world self.old s.old }
        requires frame { IsHeldAt (world.entries self.old s.old) f }
        requires word { w < FRAME_WORDS }
        ensures word { result ≡ word_at (world.entries self.old s.old) f w }
        ensures entries { world.entries self.new s.new ≡ world.entries self.old s.old }
        ensures met { world.met s.new ≡ world.met s.old }
        ensures moves { Moves world self.old s.old self.new s.new }
        ensures counts { SameCounts world self.old self.new };

    /// Writes the word `w` of the frame `f`, which the seat has to itself.
    fn write(&mut self, s: &mut Self::Seat, f: FrameNo, w: u16, v: u64)
        requires seat { IsSeat world self.old s.old }
        requires frame { IsSoleAt (world.entries self.old s.old) f }
        requires word { w < FRAME_WORDS }
        ensures entries { world.entries self.new s.new
            ≡ with_word (world.entries self.old s.old) f w v }
        ensures met { world.met s.new ≡ world.met s.old }
        ensures moves { Moves world self.old s.old self.new s.new }
        ensures counts { SameCounts world self.old self.new };

    /// All words of the frame `f`, which the seat has to itself, become 0.
    fn blank(&mut self, s: &mut Self::Seat, f: FrameNo)
        requires seat { IsSeat world self.old s.old }
        requires frame { IsSoleAt (world.entries self.old s.old) f }
        ensures entries { world.entries self.new s.new
            ≡ with_words (world.entries self.old s.old) f blank_page }
        ensures met { world.met s.new ≡ world.met s.old }
        ensures moves { Moves world self.old s.old self.new s.new }
        ensures counts { SameCounts world self.old self.new };

    /// The frame `to`, which the seat has to itself, gets the words of the frame `from`, of which
    /// the seat holds a reference.
    fn copy(&mut self, s: &mut Self::Seat, from: FrameNo, to: FrameNo)
        requires seat { IsSeat world self.old s.old }
        requires from { IsHeldAt (world.entries self.old s.old) from }
        requires to { IsSoleAt (world.entries self.old s.old) to }
        ensures entries { world.entries self.new s.new
            ≡ with_words (world.entries self.old s.old) to
            (words_at (world.entries self.old s.old) from) }
        ensures met { world.met s.new ≡ world.met s.old }
        ensures moves { Moves world self.old s.old self.new s.new }
        ensures counts { SameCounts world self.old self.new };

    /// The frame `t`, which the second seat has to itself, gets the words of the frame `f`, of
    /// which the first seat holds a reference. What the first seat has to itself the second lacks.
    fn copy_across(&mut self, from: &mut Self::Seat, to: &mut Self::Seat, f: FrameNo, t: FrameNo)
        requires from { IsSeat world self.old from.old }
        requires to { IsSeat world self.old to.old }
        requires apart { IsApart (world.names from.old) (world.names to.old) }
        requires source { IsHeldAt (world.entries self.old from.old) f }
        requires target { IsSoleAt (world.entries self.old to.old) t }
        ensures kept { world.entries self.new from.new ≡ world.entries self.old from.old }
        ensures alone { (g : ℕ) → IsSoleAt (world.entries self.old from.old) g
            → hold_at (world.entries self.old to.old) g ≡ None }
        ensures copied { world.entries self.new to.new ≡ with_words (world.entries self.old to.old)
            t (words_at (world.entries self.old from.old) f) }
        ensures met { (world.met from.new ≡ world.met from.old)
            × (world.met to.new ≡ world.met to.old) }
        ensures from { Stays world self.new from.old from.new }
        ensures to { Stays world self.new to.old to.new }
        ensures others { Spares world (both_names (world.names from.old) (world.names to.old))
            self.old self.new }
        ensures counts { SameCounts world self.old self.new };

    /// Whether the seat's one reference of the frame is the only one. If so, the seat has it to
    /// itself from then on.
    fn look(&mut self, s: &mut Self::Seat, f: FrameNo) -> bool
        requires seat { IsSeat world self.old s.old }
        requires frame { IsOnceAt (world.entries self.old s.old) f }
        ensures met { IsTrue result ↔ (world.met s.new ≡ 1) }
        ensures some { 1 ≤ world.met s.new }
        ensures sole { IsSoleAt (world.entries self.old s.old) f → result ≡ true }
        ensures told { IfSome (world.told self.old)
            (λ counts. world.met s.new ≡ slice_index counts f) }
        ensures entries { world.entries self.new s.new
            ≡ (if result then with_hold (world.entries self.old s.old) f Sole
            else world.entries self.old s.old) }
        ensures moves { Moves world self.old s.old self.new s.new }
        ensures counts { SameCounts world self.old self.new };

    /// Makes a second reference of a frame of which the seat has one. The seat then has two.
    fn share(&mut self, s: &mut Self::Seat, f: FrameNo)
        requires seat { IsSeat world self.old s.old }
        requires frame { IsOnceAt (world.entries self.old s.old) f }
        ensures entries { world.entries self.new s.new
            ≡ with_hold (world.entries self.old s.old) f (Counted 2) }
        ensures met { world.met s.new ≡ world.met s.old }
        ensures moves { Moves world self.old s.old self.new s.new }
        ensures shares { world.shares self.new ≡ min (world.shares self.old + 1) (2 ^ 64 - 1) }
        ensures told { world.told self.new ≡ recounted (λ n. n + 1) f (world.told self.old) };

    /// Gives the seat's one reference of the frame up. True exactly where it was the last: the seat
    /// then keeps the frame, with no reference of it.
    fn release(&mut self, s: &mut Self::Seat, f: FrameNo) -> bool
        requires seat { IsSeat world self.old s.old }
        requires frame { IsOnceAt (world.entries self.old s.old) f }
        ensures met { IsTrue result ↔ (world.met s.new ≡ 1) }
        ensures some { 1 ≤ world.met s.new }
        ensures sole { IsSoleAt (world.entries self.old s.old) f → result ≡ true }
        ensures exact { IfSome (world.told self.old)
            (λ counts. world.met s.new ≡ slice_index counts f) }
        ensures entries { world.entries self.new s.new
            ≡ (if result then with_hold (world.entries self.old s.old) f Zero
            else without (world.entries self.old s.old) f) }
        ensures moves { Moves world self.old s.old self.new s.new }
        ensures shares { world.shares self.new ≡ world.shares self.old }
        ensures told { world.told self.new ≡ recounted (λ n. n - 1) f (world.told self.old) };

    /// Makes the first reference of a frame that the seat keeps, with its words as they are.
    fn retake(&mut self, s: &mut Self::Seat, f: FrameNo)
        requires seat { IsSeat world self.old s.old }
        requires frame { IsZeroAt (world.entries self.old s.old) f }
        ensures entries { world.entries self.new s.new
            ≡ with_hold (world.entries self.old s.old) f Sole }
        ensures met { world.met s.new ≡ world.met s.old }
        ensures moves { Moves world self.old s.old self.new s.new }
        ensures shares { world.shares self.new ≡ world.shares self.old }
        ensures told { world.told self.new ≡ recounted (λ _. 1) f (world.told self.old) };

    /// Gives one reference of each of these frames from one seat to another, and a frame that is
    /// kept or that one seat has to itself as it is. The taker had nothing of any of them.
    fn hand(&mut self, from: &mut Self::Seat, to: &mut Self::Seat, part: &[FrameNo])
        requires from { IsSeat world self.old from.old }
        requires to { IsSeat world self.old to.old }
        requires apart { IsApart (world.names from.old) (world.names to.old) }
        requires part { MayHand (world.entries self.old from.old) (world.entries self.old to.old)
            part.now }
        requires room { IsCapped (world.cap self.old) (world.names to.old)
            (moved_into (world.entries self.old from.old) (world.entries self.old to.old)
            part.now) }
        ensures left { world.entries self.new from.new
            ≡ left_after (world.entries self.old from.old) part.now }
        ensures moved { world.entries self.new to.new
            ≡ moved_into (world.entries self.old from.old) (world.entries self.old to.old)
            part.now }
        ensures absent { (f : ℕ) → is_among f part.now ≡ true
            → hold_at (world.entries self.old to.old) f ≡ None }
        ensures met { (world.met from.new ≡ world.met from.old)
            × (world.met to.new ≡ world.met to.old) }
        ensures from { Stays world self.new from.old from.new }
        ensures to { Stays world self.new to.old to.new }
        ensures others { Spares world (both_names (world.names from.old) (world.names to.old))
            self.old self.new }
        ensures counts { SameCounts world self.old self.new };

    /// A new seat, which takes the name `d` from this one, and has no entry and met no count. This
    /// seat keeps all entries.
    fn fresh(&mut self, s: &mut Self::Seat, d: DomId) -> Result<Self::Seat, NoMemory>
        requires seat { world.fits self.old s.old }
        requires names { (world.names s.old 0 ≡ true) × (world.names s.old d ≡ true) }
        requires other { d ≢ 0 }
        ensures new { IfOk result (λ t. IsFresh world self.new t d) }
        ensures names { world.names s.new
            ≡ (if is_ok result then without_name (world.names s.old) d else world.names s.old) }
        ensures seat { world.fits self.new s.new }
        ensures entries { world.entries self.new s.new ≡ world.entries self.old s.old }
        ensures met { world.met s.new ≡ world.met s.old }
        ensures others { Spares world (world.names s.old) self.old self.new }
        ensures counts { SameCounts world self.old self.new };

    /// Adds the names and entries of another seat, which has no counted entry. This seat had
    /// nothing of any of its frames.
    fn join(&mut self, s: &mut Self::Seat, other: Self::Seat)
        requires seat { IsSeat world self.old s.old }
        requires other { IsSeat world self.old other }
        requires apart { IsApart (world.names s.old) (world.names other) }
        requires whole { AreWhole (world.entries self.old other) }
        ensures names { world.names s.new ≡ both_names (world.names s.old) (world.names other) }
        ensures entries { world.entries self.new s.new
            ≡ add_entries (world.entries self.old s.old) (world.entries self.old other) }
        ensures absent { (f : ℕ) → is_here (hold_at (world.entries self.old other) f) ≡ true
            → hold_at (world.entries self.old s.old) f ≡ None }
        ensures seat { world.fits self.new s.new }
        ensures met { world.met s.new ≡ world.met s.old }
        ensures others { Spares world (both_names (world.names s.old) (world.names other))
            self.old self.new }
        ensures counts { SameCounts world self.old self.new };

    /// Changes nothing, and shows to the seat with the name 0 how many frames there can be beside
    /// its own.
    fn tell(&mut self, s: &mut Self::Seat)
        requires seat { world.fits self.old s.old }
        requires name { world.names s.old 0 ≡ true }
        ensures room { world.frames self.old ≤ entry_count (world.entries self.old s.old)
            + world.cap self.old * lack_count (world.names s.old) }
        ensures entries { world.entries self.new s.new ≡ world.entries self.old s.old }
        ensures met { world.met s.new ≡ world.met s.old }
        ensures moves { Moves world self.old s.old self.new s.new }
        ensures counts { SameCounts world self.old self.new };

    // Of a seat of the pool the entries have the shape of the machine's frames.
    ghost shaped: { (p : Self) (s : Self.Seat) → world.fits p s
        → IsShaped (world.frames p) (world.entries p s) };

    // Without the name 0 it has at most the cap of entries for each name.
    ghost capped: { (p : Self) (s : Self.Seat) → world.fits p s
        → IsCapped (world.cap p) (world.names s) (world.entries p s) };
}
