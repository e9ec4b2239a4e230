// All frames of the plain pool.
use crate::holders::Holders;
use crate::owners::Owners;
use crate::pages::Pages;
use crate::pool::FRAME_WORDS;
use neph_base::{IDS, MAX_FRAMES, NoMemory};
use std::alloc::Global;
use std::marker::Model;

/// All frames: who holds each, and its words, which take memory from when one of them is first not
/// 0.
#[derive(Drop)]
pub struct Frames {
    holders: Holders,
    pages: Pages,
}

impl Model for Frames {
    ghost use Rattle.std.specs.Prelude.{◌≡◌, List, length};
    ghost use Rattle.neph_pool.specs.Frames.{PlainFrame, frames_in};
    ghost use Rattle.neph_pool.specs.Holders.{owners_of, holder_count};
    ghost use Rattle.neph_pool.specs.Pages.{words_of, frame_count};

    ghost Value = { List PlainFrame };

    ghost view = { λ a. frames_in (owners_of a.holders) (words_of a.pages) };

    ghost invariant = { λ a. holder_count a.holders ≡ frame_count a.pages };
}

impl Frames {
    ghost use Rattle.std.specs.Prelude.{◌≡◌, ◌≢◌, ◌<◌, ◌≤◌, true, false, None, length, replicate, slice_index, slice_set, IfOk};
    ghost use Rattle.neph_pool.specs.Entries.{weight_of, is_here, is_whole};
    ghost use Rattle.neph_pool.specs.Frames.{blank_frame, frame_at, FrameStep};
    ghost use Rattle.neph_pool.specs.Owners.{held_by, total_of, IsShared, IsReleased, IsHanded};
    ghost use Rattle.neph_pool.specs.Page.{blank_page};

    /// So many frames of zeros, which row 0 keeps.
    pub fn new(alloc: Global, frames: u32) -> Result<Frames, NoMemory>
        requires { frames ≤ MAX_FRAMES }
        ensures { IfOk result (λ p. p ≡ replicate frames blank_frame) }
    {
        let holders = Holders::new(alloc, frames)?;
        let pages = Pages::new(alloc, frames)?;
        Ok(Frames { holders, pages })
    }

    /// How many there are.
    pub fn len(&self) -> usize
        ensures { result ≡ length self.now }
    {
        self.holders.len()
    }

    /// Who holds the frame `f`.
    pub fn owners(&self, f: usize) -> Owners
        requires { f < length self.now }
        ensures { result ≡ (frame_at self.now f).owners }
    {
        self.holders.at(f)
    }

    /// Lets others hold the frame `f`.
    pub fn put_owners(&mut self, f: usize, owners: Owners)
        requires { f < length self.old }
        ensures { self.new
            ≡ slice_set self.old f (record (frame_at self.old f) { owners = owners }) }
    {
        self.holders.put(f, owners);
    }

    /// How many references of the frame `f` there are.
    pub fn total(&self, f: usize) -> u32
        requires { f < length self.now }
        ensures { result ≡ total_of (frame_at self.now f).owners }
    {
        self.holders.total(f)
    }

    /// Whether the row has something of the frame `f`.
    pub fn holds(&self, f: usize, row: u8) -> bool
        requires frame { f < length self.now }
        requires row { row < IDS }
        ensures { result ≡ is_here (held_by row (frame_at self.now f).owners) }
    {
        self.holders.holds(f, row)
    }

    /// A second reference of the row's one of the frame `f`.
    pub fn share(&mut self, f: usize, row: u8)
        requires frame { f < length self.old }
        requires row { row < IDS }
        requires once { weight_of (held_by row (frame_at self.old f).owners) ≡ 1 }
        ensures { FrameStep (IsShared row) self.old f self.new }
    {
        self.holders.share(f, row);
    }

    /// The row's one reference of the frame `f` goes. True where it was the last.
    pub fn release(&mut self, f: usize, row: u8) -> bool
        requires frame { f < length self.old }
        requires row { row < IDS }
        requires once { weight_of (held_by row (frame_at self.old f).owners) ≡ 1 }
        ensures { FrameStep (IsReleased result row) self.old f self.new }
    {
        self.holders.release(f, row)
    }

    /// One reference of the frame `f` goes from a row to another. A frame of one row alone goes as
    /// it is.
    pub fn hand(&mut self, f: usize, from: u8, to: u8)
        requires frame { f < length self.old }
        requires rows { (from < IDS) × (to < IDS) × (from ≢ to) }
        requires part { is_here (held_by from (frame_at self.old f).owners) ≡ true }
        requires room { is_whole (held_by from (frame_at self.old f).owners) ≡ false
            → held_by to (frame_at self.old f).owners ≡ None }
        ensures { FrameStep (IsHanded from to) self.old f self.new }
    {
        self.holders.hand(f, from, to);
    }

    /// The word `w` of the frame `f`.
    pub fn word(&self, f: usize, w: usize) -> u64
        requires frame { f < length self.now }
        requires word { w < FRAME_WORDS }
        ensures { result ≡ slice_index (frame_at self.now f).words w }
    {
        self.pages.read(f, w)
    }

    /// Writes the word `w` of the frame `f`.
    pub fn put_word(&mut self, f: usize, w: usize, v: u64)
        requires frame { f < length self.old }
        requires word { w < FRAME_WORDS }
        ensures { self.new ≡ slice_set self.old f
            (record (frame_at self.old f) { words = slice_set (frame_at self.old f).words w v }) }
    {
        self.pages.write(f, w, v);
    }

    /// All words of the frame `f` become 0.
    pub fn blank(&mut self, f: usize)
        requires { f < length self.old }
        ensures { self.new
            ≡ slice_set self.old f (record (frame_at self.old f) { words = blank_page }) }
    {
        self.pages.blank(f);
    }

    /// The frame `to` gets the words of the frame `from`.
    pub fn copy(&mut self, from: usize, to: usize)
        requires frames { (from < length self.old) × (to < length self.old) }
        ensures { self.new ≡ slice_set self.old to
            (record (frame_at self.old to) { words = (frame_at self.old from).words }) }
    {
        self.pages.copy(from, to);
    }
}
