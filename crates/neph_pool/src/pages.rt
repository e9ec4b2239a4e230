// The words of all frames. A page is made when a frame gets its first word that isn't 0.
ghost use Rattle.std.specs.Prelude.{◌≡◌, ◌≢◌, ◌+◌, ◌<◌, ◌≤◌, ℕ, [], length, slice_index, slice_index_or, slice_set, replicate, vec_len, vec_capacity, IfOk, map};
ghost use Rattle.neph_pool.specs.Page.{page_words, blank_page, unmade};

use crate::page::Page;
use crate::pool::FRAME_WORDS;
use neph_base::{MAX_FRAMES, NoMemory};
use std::alloc::Global;

/// The words of all frames. A frame that never had a word but 0 has no page of its own: its place
/// is 0, where a page of zeros lies.
#[derive(Drop)]
pub struct Pages {
    places: Vec<u16>,
    made: Vec<Page>,
    pub ghost within: { (f : ℕ) → slice_index places.items f < vec_len made },
    pub ghost apart: { (f g : ℕ) → f ≢ g
        → slice_index places.items f ≡ slice_index places.items g
        → slice_index places.items f ≡ 0 },
    pub ghost blank: { slice_index_or (page_words made.items) 0 [] ≡ blank_page },
    pub ghost counted: { vec_len made + unmade places.items ≡ length places.items + 1 },
    pub ghost room: { length places.items < vec_capacity made },
    pub ghost small: { length places.items ≤ 16384 },
}

impl Pages {
    ghost use Rattle.neph_pool.specs.Pages.{words_of, frame_count};

    /// The words of so many frames, all 0. Room for all of them is set aside, and nothing is
    /// written there.
    pub fn new(alloc: Global, frames: u32) -> Result<Pages, NoMemory>
        requires { frames ≤ MAX_FRAMES }
        ensures words { IfOk result (λ p. words_of p ≡ replicate frames blank_page) }
        ensures frames { IfOk result (λ p. frame_count p ≡ frames) }
    {
        let mut places = Vec::with_capacity(alloc, frames as usize)?;
        places.resize(frames as usize, 0u16)?;
        let mut made = Vec::with_capacity(alloc, frames as usize + 1)?;
        made.push_reserved(Page { words: [0; 512] });
        Ok(Pages { places, made })
    }

    /// The word `w` of the frame `f`.
    pub fn read(&self, f: usize, w: usize) -> u64
        requires frame { f < frame_count self.now }
        requires word { w < FRAME_WORDS }
        ensures { result ≡ slice_index (slice_index_or (words_of self.now) f []) w }
    {
        self.made[self.places[f] as usize].words[w]
    }

    // A frame without a page of its own gets a copy of the page at the place `source`. Where the
    // copy lies.
    fn make(&mut self, f: usize, source: usize) -> usize
        requires frame { f < frame_count self.old }
        requires unmade { slice_index self.old.places.items f ≡ 0 }
        requires page { source < vec_len self.old.made }
        ensures place { result ≡ slice_index self.new.places.items f }
        ensures own { result ≢ 0 }
        ensures words { words_of self.new ≡ slice_set (words_of self.old) f
            (slice_index_or (page_words self.old.made.items) source []) }
        ensures frames { frame_count self.new ≡ frame_count self.old }
    {
        let next = self.made.len();
        self.made.push_reserved(Page {
            words: self.made[source].words,
        });
        self.places[f] = next as u16;
        next
    }

    // Where the frame's own page lies. It is made, with the words that the frame has.
    fn own(&mut self, f: usize) -> usize
        requires { f < frame_count self.old }
        ensures place { result ≡ slice_index self.new.places.items f }
        ensures own { result ≢ 0 }
        ensures words { words_of self.new ≡ words_of self.old }
        ensures frames { frame_count self.new ≡ frame_count self.old }
    {
        let place = self.places[f] as usize;
        if place > 0 {
            return place;
        }
        self.make(f, 0)
    }

    /// Writes the word `w` of the frame `f`. A 0 makes no page for a frame that has none.
    pub fn write(&mut self, f: usize, w: usize, v: u64)
        requires frame { f < frame_count self.old }
        requires word { w < FRAME_WORDS }
        ensures words { words_of self.new ≡ slice_set (words_of self.old) f
            (slice_set (slice_index_or (words_of self.old) f []) w v) }
        ensures zero { v ≡ 0 → slice_index self.old.places.items f ≡ 0
            → vec_len self.new.made ≡ vec_len self.old.made }
        ensures frames { frame_count self.new ≡ frame_count self.old }
    {
        if v == 0 && self.places[f] == 0 {
            return;
        }
        let place = self.own(f);
        self.made[place].words[w] = v;
    }

    /// All words of the frame `f` become 0. Without a page of its own it stays without one.
    pub fn blank(&mut self, f: usize)
        requires { f < frame_count self.old }
        ensures words { words_of self.new ≡ slice_set (words_of self.old) f blank_page }
        ensures made { vec_len self.new.made ≡ vec_len self.old.made }
        ensures frames { frame_count self.new ≡ frame_count self.old }
    {
        let place = self.places[f] as usize;
        if place > 0 {
            self.made[place].words = [0; 512];
        }
    }

    /// The frame `to` gets the words of the frame `from`. One without a page of its own makes none.
    pub fn copy(&mut self, from: usize, to: usize)
        requires frames { (from < frame_count self.old) × (to < frame_count self.old) }
        ensures words { words_of self.new
            ≡ slice_set (words_of self.old) to (slice_index_or (words_of self.old) from []) }
        ensures zero { slice_index self.old.places.items from ≡ 0
            → vec_len self.new.made ≡ vec_len self.old.made }
        ensures frames { frame_count self.new ≡ frame_count self.old }
    {
        let source = self.places[from] as usize;
        if source == 0 {
            self.blank(to);
            return;
        }
        let target = self.places[to] as usize;
        if target == 0 {
            self.make(to, source);
            return;
        }
        let words = self.made[source].words;
        self.made[target].words = words;
    }
}
