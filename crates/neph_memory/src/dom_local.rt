// A domain's memory.
ghost use Rattle.std.specs.Prelude.{◌≡◌, ◌≢◌, ◌+◌, ◌-◌, ◌/◌, ◌%◌, ◌<◌, ◌≤◌, ◌^◌, ◌↔◌, ℕ, IsTrue, slice_index, true, false, Some, None, IsSome, IfSome, OnOk, OnErr, length, min, if◌then◌else◌};
ghost use Rattle.neph_pool.specs.Entries.{hold_at, words_at, IsSoleAt, IsOnceAt, entry_count, is_counted};
ghost use Rattle.neph_pool.specs.Handing.{giving};
ghost use Rattle.neph_pool.specs.Names.{IsApart, both_names};
ghost use Rattle.neph_pool.specs.declared.entry.Hold.TheVariants.{Sole, Counted};
ghost use Rattle.neph_pool.specs.World.{World, IsSeat, Moves, Stays, Spares, SameCounts};
ghost use Rattle.neph_memory.specs.Pages.{frame_at};
ghost use Rattle.neph_memory.specs.Memory.{is_marked, IsPageAt};
ghost use Rattle.neph_memory.specs.Steps.{read_answer, IsWriteStep, with_write, page_after_step, hand_after_step};
ghost use Rattle.neph_memory.specs.Domains.{IsStanding, domain_page, domain_mapping, domain_walk, KeepsPages, KeepsMap, KeepsLeaves, KeepsSeats, IsSharedPage, TookSpare, MakesAlone};
ghost use Rattle.neph_memory.specs.Shared.{KeepsShared};

use crate::loans::lend;
use crate::own::{Own, frame_for, kept};
use crate::room::Room;
use crate::touch::Touch;
use crate::write::{NeedSpare, Write, WriteStep};
use neph_base::{DomId, FrameNo, PAGE_BYTES, Pfn, Piece, VAddr};
use neph_gmap::Page;
use neph_pool::{FramePool, read_bytes, write_bytes};
use neph_ptab::{Tables, Walk};

/// The memory of one domain. The pool is handed in at each call. No call but those that say so
/// takes memory.
#[derive(Drop)]
pub struct DomLocal<P: FramePool> {
    /// The domain's id, which is the only name of its seat.
    pub id: DomId,
    /// The seat that has its frames.
    pub seat: P::Seat,
    /// Its page tables.
    pub tables: Tables<P>,
    /// Its pages.
    pub own: Own,
    /// The write that waits for a copy of its page.
    pub hand: Option<Write>,
    /// Room to list its frames at its end.
    pub room: Room,
}

impl<P: FramePool> DomLocal<P> {
    /// The bytes at an address, 1 to 64 of them, none past the end of its page. Nothing changes.
    pub fn read(&mut self, pool: &mut P, v: VAddr, len: u8) -> Result<Piece, Touch>
        requires stands { IsStanding P.world pool.old self.old }
        requires some { 0 < len }
        requires few { len ≤ 64 }
        requires fits { v % PAGE_BYTES + len ≤ PAGE_BYTES }
        ensures bytes { result ≡ read_answer (domain_page P.world pool.old self.old)
            (domain_mapping P.world pool.old self.old (v / PAGE_BYTES)) (v % PAGE_BYTES) len }
        ensures entries { P.world.entries pool.new self.new.seat
            ≡ P.world.entries pool.old self.old.seat }
        ensures id { self.new.id ≡ self.old.id }
        ensures root { self.new.tables.root ≡ self.old.tables.root }
        ensures own { self.new.own ≡ self.old.own }
        ensures hand { self.new.hand ≡ self.old.hand }
        ensures moves { KeepsSeats P.world pool.old self.old pool.new self.new }
        ensures counts { SameCounts P.world pool.old pool.new }
    {
        let vpn = v.vpn();
        let _number = vpn.get();
        match self.tables.walk(pool, &mut self.seat, vpn) {
            Walk::None => Err(Touch::Unmapped),
            Walk::Exposed { pfn, .. } => Err(Touch::Exposed(pfn)),
            Walk::Local { frame, .. } => {
                let bytes = read_bytes(pool, &mut self.seat, frame, v.offset() as u16, len);
                Ok(bytes)
            }
        }
    }

    /// Makes a local page the domain's alone, if it isn't marked: copies it into the spare, and
    /// gives the old frame up. Where that reference was the last, the old frame is the next spare.
    /// `NeedSpare` exactly where the page isn't marked and no spare is held; nothing changes then.
    pub fn unshare(&mut self, pool: &mut P, p: Pfn) -> Result<(), NeedSpare>
        requires stands { IsStanding P.world pool.old self.old }
        requires local { IsSome (frame_at self.old.own.map.pages p) }
        ensures stands { IsStanding P.world pool.new self.new }
        ensures ok { OnOk result (is_marked self.new.own p ≡ true) }
        ensures moved { OnOk result (is_marked self.old.own p ≡ false
            → TookSpare P.world pool.old self.old pool.new self.new p) }
        ensures same { is_marked self.old.own p ≡ true → self.new.own ≡ self.old.own }
        ensures err { OnErr result (is_marked self.old.own p ≡ false) }
        ensures spare { OnErr result (self.old.own.spare ≡ None) }
        ensures bytes { KeepsPages P.world pool.old self.old pool.new self.new }
        ensures mappings { KeepsMap P.world pool.old self.old pool.new self.new }
        ensures others { (q : ℕ) → q ≢ p → frame_at self.new.own.map.pages q
            ≡ frame_at self.old.own.map.pages q }
        ensures page { IsSome (frame_at self.new.own.map.pages p) }
        ensures leaves { KeepsLeaves P.world pool.old self.old pool.new self.new }
        ensures count { length self.new.own.map.pages ≡ length self.old.own.map.pages }
        ensures id { self.new.id ≡ self.old.id }
        ensures hand { self.new.hand ≡ self.old.hand }
        ensures moves { KeepsSeats P.world pool.old self.old pool.new self.new }
        ensures shares { P.world.shares pool.new ≡ P.world.shares pool.old }
    {
        if self.own.marks[p.get() as usize] {
            return Ok(());
        }
        match self.own.spare {
            Some(spare) => {
                self.copy_page(pool, p, spare);
                Ok(())
            }
            None => Err(NeedSpare),
        }
    }

    // A page that may be in other domains moves into the spare.
    fn copy_page(&mut self, pool: &mut P, p: Pfn, spare: FrameNo)
        requires stands { IsStanding P.world pool.old self.old }
        requires local { IsSome (frame_at self.old.own.map.pages p) }
        requires spare { self.old.own.spare ≡ Some spare }
        requires unmarked { is_marked self.old.own p ≡ false }
        ensures stands { IsStanding P.world pool.new self.new }
        ensures mark { is_marked self.new.own p ≡ true }
        ensures took { TookSpare P.world pool.old self.old pool.new self.new p }
        ensures page { IsSome (frame_at self.new.own.map.pages p) }
        ensures bytes { KeepsPages P.world pool.old self.old pool.new self.new }
        ensures mappings { KeepsMap P.world pool.old self.old pool.new self.new }
        ensures others { (q : ℕ) → q ≢ p → frame_at self.new.own.map.pages q
            ≡ frame_at self.old.own.map.pages q }
        ensures leaves { KeepsLeaves P.world pool.old self.old pool.new self.new }
        ensures count { length self.new.own.map.pages ≡ length self.old.own.map.pages }
        ensures id { self.new.id ≡ self.old.id }
        ensures hand { self.new.hand ≡ self.old.hand }
        ensures moves { KeepsSeats P.world pool.old self.old pool.new self.new }
        ensures shares { P.world.shares pool.new ≡ P.world.shares pool.old }
    {
        let frame = frame_for(&self.own.map, p).unwrap();
        pool.copy(&mut self.seat, frame, spare);
        let last = give_up(pool, &mut self.seat, frame);
        self.tables
            .move_page(pool, &mut self.seat, self.own.map.vpns(p), spare, true);
        self.own.map.set(p, Page::Local(spare));
        self.own.marks[p.get() as usize] = true;
        self.own.spare = kept(last, frame);
    }

    // Bytes of a page that is this domain's alone.
    fn write_frame(&mut self, pool: &mut P, frame: FrameNo, at: u16, bytes: &Piece)
        requires stands { IsStanding P.world pool.old self.old }
        requires page { IsPageAt self.old.own frame }
        requires sole { IsSoleAt (P.world.entries pool.old self.old.seat) frame }
        requires fits { at + length bytes.now ≤ PAGE_BYTES }
        ensures stands { IsStanding P.world pool.new self.new }
        ensures bytes { (p : ℕ) → frame_at self.old.own.map.pages p ≡ Some frame
            → (q : ℕ) → domain_page P.world pool.new self.new q
            ≡ with_write (domain_page P.world pool.old self.old) p at bytes.now q }
        ensures mappings { KeepsMap P.world pool.old self.old pool.new self.new }
        ensures own { self.new.own ≡ self.old.own }
        ensures leaves { KeepsLeaves P.world pool.old self.old pool.new self.new }
        ensures id { self.new.id ≡ self.old.id }
        ensures hand { self.new.hand ≡ self.old.hand }
        ensures met { P.world.met self.new.seat ≡ P.world.met self.old.seat }
        ensures shared { KeepsShared P.world pool.old self.old pool.new self.new }
        ensures moves { KeepsSeats P.world pool.old self.old pool.new self.new }
        ensures counts { SameCounts P.world pool.old pool.new }
    {
        write_bytes(pool, &mut self.seat, frame, at, bytes.bytes());
    }

    /// Does the write in hand. Its page is made the domain's alone first, as `unshare` does it.
    pub fn finish_write(&mut self, pool: &mut P) -> Result<(), NeedSpare>
        requires stands { IsStanding P.world pool.old self.old }
        requires some { IsSome self.old.hand }
        requires local { IfSome self.old.hand
            (λ h. IsSome (frame_at self.old.own.map.pages h.pfn)) }
        requires fits { IfSome self.old.hand (λ h. h.at + length h.bytes ≤ PAGE_BYTES) }
        ensures stands { IsStanding P.world pool.new self.new }
        ensures mark { OnErr result (IfSome self.old.hand
            (λ h. is_marked self.old.own h.pfn ≡ false)) }
        ensures spare { OnErr result (self.old.own.spare ≡ None) }
        ensures bytes { OnOk result (IfSome self.old.hand
            (λ h. (q : ℕ) → domain_page P.world pool.new self.new q
            ≡ with_write (domain_page P.world pool.old self.old) h.pfn h.at h.bytes q)) }
        ensures moved { OnOk result (IfSome self.old.hand
            (λ h. is_marked self.old.own h.pfn ≡ false
            → TookSpare P.world pool.old self.old pool.new self.new h.pfn)) }
        ensures stays { OnOk result (IfSome self.old.hand
            (λ h. is_marked self.old.own h.pfn ≡ true → self.new.own ≡ self.old.own)) }
        ensures alone { OnOk result (IfSome self.old.hand
            (λ h. MakesAlone self.old self.new h.pfn)) }
        ensures same { OnErr result (KeepsPages P.world pool.old self.old pool.new self.new) }
        ensures mappings { KeepsMap P.world pool.old self.old pool.new self.new }
        ensures done { OnOk result (self.new.hand ≡ None) }
        ensures waits { OnErr result (self.new.hand ≡ self.old.hand) }
        ensures leaves { KeepsLeaves P.world pool.old self.old pool.new self.new }
        ensures count { length self.new.own.map.pages ≡ length self.old.own.map.pages }
        ensures id { self.new.id ≡ self.old.id }
        ensures moves { KeepsSeats P.world pool.old self.old pool.new self.new }
        ensures shares { P.world.shares pool.new ≡ P.world.shares pool.old }
    {
        let hand = self.hand.unwrap();
        self.unshare(pool, hand.pfn)?;
        let frame = frame_for(&self.own.map, hand.pfn).unwrap();
        self.write_frame(pool, frame, hand.at, &hand.bytes);
        self.hand = None;
        Ok(())
    }

    // Bytes of a page that may be in other domains too: written at once, if a look finds that it is
    // this domain's alone.
    fn write_shared(&mut self, pool: &mut P, frame: FrameNo, at: u16, bytes: &Piece) -> bool
        requires stands { IsStanding P.world pool.old self.old }
        requires page { IsPageAt self.old.own frame }
        requires fits { at + length bytes.now ≤ PAGE_BYTES }
        ensures stands { IsStanding P.world pool.new self.new }
        ensures bytes { (p : ℕ) → frame_at self.old.own.map.pages p ≡ Some frame
            → (q : ℕ) → domain_page P.world pool.new self.new q
            ≡ (if result then with_write (domain_page P.world pool.old self.old) p at bytes.now q
            else domain_page P.world pool.old self.old q) }
        ensures mappings { KeepsMap P.world pool.old self.old pool.new self.new }
        ensures hand { (p : ℕ) → frame_at self.old.own.map.pages p ≡ Some frame
            → self.new.hand ≡ (if result then self.old.hand
            else Some (record { pfn = p; at = at; bytes = bytes.now })) }
        ensures met { result ≡ false → P.world.met self.new.seat ≢ 1 }
        ensures alone { result ≡ true → (p : ℕ) → frame_at self.old.own.map.pages p ≡ Some frame
            → is_marked self.new.own p ≡ true }
        ensures shared { result ≡ false → (p : ℕ) → frame_at self.old.own.map.pages p ≡ Some frame
            → IsSharedPage P.world pool.old self.old p }
        ensures own { result ≡ false → self.new.own ≡ self.old.own }
        ensures map { self.new.own.map ≡ self.old.own.map }
        ensures spare { self.new.own.spare ≡ self.old.own.spare }
        ensures leaves { KeepsLeaves P.world pool.old self.old pool.new self.new }
        ensures id { self.new.id ≡ self.old.id }
        ensures moves { KeepsSeats P.world pool.old self.old pool.new self.new }
        ensures counts { SameCounts P.world pool.old pool.new }
    {
        let pfn = self.own.map.page_in(frame).unwrap();
        if pool.look(&mut self.seat, frame) {
            self.own.marks[pfn.get() as usize] = true;
            self.write_frame(pool, frame, at, bytes);
            true
        } else {
            self.hand = Some(Write {
                pfn,
                at,
                bytes: *bytes,
            });
            false
        }
    }

    /// Writes bytes, none past the end of the page, into a local page that is marked.
    pub fn write_marked(&mut self, pool: &mut P, p: Pfn, at: u16, bytes: &Piece)
        requires stands { IsStanding P.world pool.old self.old }
        requires local { IsSome (frame_at self.old.own.map.pages p) }
        requires marked { is_marked self.old.own p ≡ true }
        requires fits { at + length bytes.now ≤ PAGE_BYTES }
        ensures stands { IsStanding P.world pool.new self.new }
        ensures bytes { (q : ℕ) → domain_page P.world pool.new self.new q
            ≡ with_write (domain_page P.world pool.old self.old) p at bytes.now q }
        ensures mappings { KeepsMap P.world pool.old self.old pool.new self.new }
        ensures leaves { KeepsLeaves P.world pool.old self.old pool.new self.new }
        ensures own { self.new.own ≡ self.old.own }
        ensures id { self.new.id ≡ self.old.id }
        ensures hand { self.new.hand ≡ self.old.hand }
        ensures shared { KeepsShared P.world pool.old self.old pool.new self.new }
        ensures moves { KeepsSeats P.world pool.old self.old pool.new self.new }
        ensures counts { SameCounts P.world pool.old pool.new }
    {
        let frame = frame_for(&self.own.map, p).unwrap();
        self.write_frame(pool, frame, at, bytes);
    }

    // What the tables say of an address.
    fn peek(&mut self, pool: &mut P, v: VAddr) -> Walk
        requires stands { IsStanding P.world pool.old self.old }
        ensures walk { result ≡ domain_walk P.world pool.old self.old (v / PAGE_BYTES) }
        ensures range { v / PAGE_BYTES < 2 ^ 18 }
        ensures stands { IsStanding P.world pool.new self.new }
        ensures entries { P.world.entries pool.new self.new.seat
            ≡ P.world.entries pool.old self.old.seat }
        ensures leaves { KeepsLeaves P.world pool.old self.old pool.new self.new }
        ensures id { self.new.id ≡ self.old.id }
        ensures root { self.new.tables.root ≡ self.old.tables.root }
        ensures own { self.new.own ≡ self.old.own }
        ensures hand { self.new.hand ≡ self.old.hand }
        ensures moves { KeepsSeats P.world pool.old self.old pool.new self.new }
        ensures counts { SameCounts P.world pool.old pool.new }
    {
        let vpn = v.vpn();
        let _number = vpn.get();
        self.tables.walk(pool, &mut self.seat, vpn)
    }

    /// Begins a write of bytes, none past the end of their page. It is done at once where the page
    /// is marked, or where a look finds that no other domain has its frame. Else it is in hand.
    pub fn begin_write(&mut self, pool: &mut P, v: VAddr, bytes: &Piece) -> WriteStep
        requires stands { IsStanding P.world pool.old self.old }
        requires fits { v % PAGE_BYTES + length bytes.now ≤ PAGE_BYTES }
        ensures stands { IsStanding P.world pool.new self.new }
        ensures step { IsWriteStep (domain_page P.world pool.old self.old)
            (domain_mapping P.world pool.old self.old (v / PAGE_BYTES)) result }
        ensures bytes { (q : ℕ) → domain_page P.world pool.new self.new q
            ≡ page_after_step result (domain_mapping P.world pool.old self.old (v / PAGE_BYTES))
            (domain_page P.world pool.old self.old) (v % PAGE_BYTES) bytes.now q }
        ensures mappings { KeepsMap P.world pool.old self.old pool.new self.new }
        ensures hand { self.new.hand
            ≡ hand_after_step result (domain_mapping P.world pool.old self.old (v / PAGE_BYTES))
            (v % PAGE_BYTES) bytes.now self.old.hand }
        ensures met { result ≡ WriteStep.Copying → P.world.met self.new.seat ≢ 1 }
        ensures alone { result ≡ WriteStep.Done
            → IfSome (domain_mapping P.world pool.old self.old (v / PAGE_BYTES))
            (λ to. is_marked self.new.own to.pfn ≡ true) }
        ensures shared { result ≡ WriteStep.Copying
            → IfSome (domain_mapping P.world pool.old self.old (v / PAGE_BYTES))
            (λ to. IsSharedPage P.world pool.old self.old to.pfn) }
        ensures own { result ≡ WriteStep.Copying → self.new.own ≡ self.old.own }
        ensures map { self.new.own.map ≡ self.old.own.map }
        ensures spare { self.new.own.spare ≡ self.old.own.spare }
        ensures leaves { KeepsLeaves P.world pool.old self.old pool.new self.new }
        ensures id { self.new.id ≡ self.old.id }
        ensures moves { KeepsSeats P.world pool.old self.old pool.new self.new }
        ensures counts { SameCounts P.world pool.old pool.new }
    {
        match self.peek(pool, v) {
            Walk::None => WriteStep::Unmapped,
            Walk::Exposed { pfn, .. } => WriteStep::Exposed(pfn),
            Walk::Local { frame, rw, shared } => {
                if rw {
                    self.write_frame(pool, frame, v.offset() as u16, bytes);
                    return WriteStep::Done;
                }
                if !shared {
                    return WriteStep::ReadOnly;
                }
                if self.write_shared(pool, frame, v.offset() as u16, bytes) {
                    WriteStep::Done
                } else {
                    WriteStep::Copying
                }
            }
        }
    }

    /// Gives up the write in hand, and changes nothing else.
    pub fn drop_write(&mut self)
        requires some { IsSome self.old.hand }
        ensures { self.new ≡ record self.old { hand = None } }
    {
        self.hand = None;
    }

    /// Takes a frame, which another seat has to itself, as the spare.
    pub fn put_spare(&mut self, pool: &mut P, from: &mut P::Seat, f: FrameNo)
        requires stands { IsStanding P.world pool.old self.old }
        requires none { self.old.own.spare ≡ None }
        requires from { IsSeat P.world pool.old from.old }
        requires apart { IsApart (P.world.names from.old) (P.world.names self.old.seat) }
        requires frame { IsSoleAt (P.world.entries pool.old from.old) f }
        ensures stands { IsStanding P.world pool.new self.new }
        ensures own { self.new.own ≡ record self.old.own { spare = Some f } }
        ensures bytes { KeepsPages P.world pool.old self.old pool.new self.new }
        ensures mappings { KeepsMap P.world pool.old self.old pool.new self.new }
        ensures left { P.world.entries pool.new from.new
            ≡ giving (P.world.entries pool.old from.old) f }
        ensures from { Stays P.world pool.new from.old from.new }
        ensures seat { Stays P.world pool.new self.old.seat self.new.seat }
        ensures others { Spares P.world
            (both_names (P.world.names from.old) (P.world.names self.old.seat)) pool.old pool.new }
        ensures leaves { KeepsLeaves P.world pool.old self.old pool.new self.new }
        ensures id { self.new.id ≡ self.old.id }
        ensures root { self.new.tables.root ≡ self.old.tables.root }
        ensures hand { self.new.hand ≡ self.old.hand }
        ensures counts { SameCounts P.world pool.old pool.new }
    {
        let _number = self.id.get();
        pool.hand(from, &mut self.seat, &[f]);
        self.own.spare = Some(f);
    }

    /// A page step of a fork: one more reference of a local page's frame goes to the child's seat,
    /// and from then on no write into the page is done without a look.
    pub fn share_page(&mut self, pool: &mut P, to: &mut P::Seat, child: DomId, p: Pfn)
        requires stands { IsStanding P.world pool.old self.old }
        requires local { IsSome (frame_at self.old.own.map.pages p) }
        requires to { P.world.fits pool.old to.old × (P.world.names to.old child ≡ true) }
        requires apart { IsApart (P.world.names self.old.seat) (P.world.names to.old) }
        requires free { IfSome (frame_at self.old.own.map.pages p)
            (λ f. is_counted (hold_at (P.world.entries pool.old to.old) f) ≡ false) }
        requires room { entry_count (P.world.entries pool.old to.old) + 1 ≤ P.world.cap pool.old }
        ensures stands { IsStanding P.world pool.new self.new }
        ensures map { self.new.own.map ≡ self.old.own.map }
        ensures spare { self.new.own.spare ≡ self.old.own.spare }
        ensures absent { (f : ℕ) → frame_at self.old.own.map.pages p ≡ Some f
            → hold_at (P.world.entries pool.old to.old) f ≡ None }
        ensures mark { is_marked self.new.own p ≡ false }
        ensures bytes { KeepsPages P.world pool.old self.old pool.new self.new }
        ensures mappings { KeepsMap P.world pool.old self.old pool.new self.new }
        ensures lent { (f : ℕ) → frame_at self.old.own.map.pages p ≡ Some f
            → (hold_at (P.world.entries pool.new to.new) f ≡ Some (Counted 1))
            × (words_at (P.world.entries pool.new to.new) f
            ≡ words_at (P.world.entries pool.old self.old.seat) f) }
        ensures others_held { (f : ℕ) → frame_at self.old.own.map.pages p ≡ Some f → (g : ℕ) → g ≢ f
            → (hold_at (P.world.entries pool.new to.new) g
            ≡ hold_at (P.world.entries pool.old to.old) g)
            × (words_at (P.world.entries pool.new to.new) g
            ≡ words_at (P.world.entries pool.old to.old) g) }
        ensures to { Stays P.world pool.new to.old to.new }
        ensures seat { Stays P.world pool.new self.old.seat self.new.seat }
        ensures others { Spares P.world
            (both_names (P.world.names self.old.seat) (P.world.names to.old)) pool.old pool.new }
        ensures leaves { KeepsLeaves P.world pool.old self.old pool.new self.new }
        ensures id { self.new.id ≡ self.old.id }
        ensures hand { self.new.hand ≡ self.old.hand }
        ensures shares { P.world.shares pool.new
            ≡ min (P.world.shares pool.old + 1) (2 ^ 64 - 1) }
    {
        let frame = frame_for(&self.own.map, p).unwrap();
        let place = p.get() as usize;
        let marked = self.own.marks[place];
        lend(pool, &mut self.seat, to, child, frame);
        if !marked {
            return;
        }
        self.tables
            .move_page(pool, &mut self.seat, self.own.map.vpns(p), frame, false);
        self.own.marks[place] = false;
    }
}

// Gives a reference of a frame up. Where it was the last, the frame is the seat's alone again.
fn give_up<P: FramePool>(pool: &mut P, seat: &mut P::Seat, f: FrameNo) -> bool
    requires seat { IsSeat P.world pool.old seat.old }
    requires frame { IsOnceAt (P.world.entries pool.old seat.old) f }
    ensures hold { hold_at (P.world.entries pool.new seat.new) f
        ≡ (if result then Some Sole else None) }
    ensures holds { (g : ℕ) → g ≢ f → hold_at (P.world.entries pool.new seat.new) g
        ≡ hold_at (P.world.entries pool.old seat.old) g }
    ensures words { (g : ℕ) → g ≢ f → words_at (P.world.entries pool.new seat.new) g
        ≡ words_at (P.world.entries pool.old seat.old) g }
    ensures met { IsTrue result ↔ (P.world.met seat.new ≡ 1) }
    ensures exact { IfSome (P.world.told pool.old)
        (λ counts. P.world.met seat.new ≡ slice_index counts f) }
    ensures moves { Moves P.world pool.old seat.old pool.new seat.new }
    ensures shares { P.world.shares pool.new ≡ P.world.shares pool.old }
{
    let last = pool.release(seat, f);
    if last {
        pool.retake(seat, f);
    }
    last
}
