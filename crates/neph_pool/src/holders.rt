// Who holds each frame, in four bytes for a frame that was never shared.
ghost use Rattle.std.specs.Prelude.{◌≡◌, ◌≢◌, ◌+◌, ◌<◌, ◌≤◌, ℕ, length, slice_index, slice_index_or, slice_set, replicate, vec_len, vec_capacity, IfOk};
ghost use Rattle.neph_pool.specs.declared.kind.Kind.TheVariants.{Kept, Shared};
ghost use Rattle.neph_pool.specs.Page.{unmade};

use crate::kind::Kind;
use crate::owners::Owners;
use crate::weights::Weights;
use neph_base::{IDS, MAX_FRAMES, NoMemory};
use std::alloc::Global;

/// Who holds each frame. A frame that was shared once keeps a place for its counts. Before that its
/// place is 0, which is no frame's.
#[derive(Drop)]
pub struct Holders {
    kinds: Vec<Kind>,
    places: Vec<u16>,
    counts: Vec<Weights>,
    pub ghost even: { length kinds.items ≡ length places.items },
    pub ghost within: { (f : ℕ) → slice_index places.items f < vec_len counts },
    pub ghost placed: { (f : ℕ) → slice_index_or kinds.items f (Kept 0) ≡ Shared
        → slice_index places.items f ≢ 0 },
    pub ghost apart: { (f g : ℕ) → f ≢ g
        → slice_index places.items f ≡ slice_index places.items g
        → slice_index places.items f ≡ 0 },
    pub ghost counted: { vec_len counts + unmade places.items ≡ length places.items + 1 },
    pub ghost room: { length places.items < vec_capacity counts },
    pub ghost small: { length places.items ≤ 16384 },
}

impl Holders {
    ghost use Rattle.std.specs.Prelude.{◌≡◌, ◌≢◌, ◌<◌, ◌≤◌, true, false, None, replicate, slice_index_or, slice_set, IfOk};
    ghost use Rattle.neph_pool.specs.Entries.{weight_of, is_here, is_whole};
    ghost use Rattle.neph_pool.specs.Holders.{owners_of, holder_count, owner_at, OwnersStep};
    ghost use Rattle.neph_pool.specs.Owners.{held_by, total_of, IsShared, IsReleased, IsHanded};
    ghost use Rattle.neph_pool.specs.declared.kind.Kind.TheVariants.{Kept, Shared};
    ghost use Rattle.neph_pool.specs.declared.owners.Owners.TheVariants.{Spare, Many};

    /// So many frames, which row 0 keeps.
    pub fn new(alloc: Global, frames: u32) -> Result<Holders, NoMemory>
        requires { frames ≤ MAX_FRAMES }
        ensures owners { IfOk result (λ p. owners_of p ≡ replicate frames (Spare 0)) }
        ensures frames { IfOk result (λ p. holder_count p ≡ frames) }
    {
        let mut kinds = Vec::with_capacity(alloc, frames as usize)?;
        kinds.resize(frames as usize, Kind::Kept(0))?;
        let mut places = Vec::with_capacity(alloc, frames as usize)?;
        places.resize(frames as usize, 0u16)?;
        let mut counts = Vec::with_capacity(alloc, frames as usize + 1)?;
        counts.push_reserved(Weights::two(0));
        Ok(Holders {
            kinds,
            places,
            counts,
        })
    }

    /// How many frames there are.
    pub fn len(&self) -> usize
        ensures { result ≡ holder_count self.now }
    {
        self.kinds.len()
    }

    /// Who holds the frame `f`.
    pub fn at(&self, f: usize) -> Owners
        requires { f < holder_count self.now }
        ensures { result ≡ owner_at (owners_of self.now) f }
    {
        match self.kinds[f] {
            Kind::Kept(row) => Owners::Spare(row),
            Kind::Own(row) => Owners::Alone(row),
            Kind::Shared => Owners::Many(self.counts[self.places[f] as usize]),
        }
    }

    // The frame is held by these counts.
    fn put_weights(&mut self, f: usize, weights: Weights)
        requires { f < holder_count self.old }
        ensures owners { owners_of self.new ≡ slice_set (owners_of self.old) f (Many weights) }
        ensures frames { holder_count self.new ≡ holder_count self.old }
    {
        let place = self.places[f] as usize;
        if place > 0 {
            self.counts[place] = weights;
            self.kinds[f] = Kind::Shared;
            return;
        }
        let next = self.counts.len();
        self.counts.push_reserved(weights);
        self.places[f] = next as u16;
        self.kinds[f] = Kind::Shared;
    }

    /// Lets others hold the frame `f`.
    pub fn put(&mut self, f: usize, owners: Owners)
        requires { f < holder_count self.old }
        ensures owners { owners_of self.new ≡ slice_set (owners_of self.old) f owners }
        ensures frames { holder_count self.new ≡ holder_count self.old }
    {
        match owners {
            Owners::Spare(row) => self.kinds[f] = Kind::Kept(row),
            Owners::Alone(row) => self.kinds[f] = Kind::Own(row),
            Owners::Many(weights) => self.put_weights(f, weights),
        }
    }

    /// How many references of the frame `f` there are.
    pub fn total(&self, f: usize) -> u32
        requires { f < holder_count self.now }
        ensures { result ≡ total_of (owner_at (owners_of self.now) f) }
    {
        match self.kinds[f] {
            Kind::Kept(_) => 0,
            Kind::Own(_) => 1,
            Kind::Shared => self.counts[self.places[f] as usize].total(),
        }
    }

    /// Whether the row has something of the frame `f`.
    pub fn holds(&self, f: usize, row: u8) -> bool
        requires frame { f < holder_count self.now }
        requires row { row < IDS }
        ensures { result ≡ is_here (held_by row (owner_at (owners_of self.now) f)) }
    {
        match self.kinds[f] {
            Kind::Kept(own) => own == row,
            Kind::Own(own) => own == row,
            Kind::Shared => self.counts[self.places[f] as usize].at(row) > 0,
        }
    }

    /// A second reference of the row's one of the frame `f`.
    pub fn share(&mut self, f: usize, row: u8)
        requires frame { f < holder_count self.old }
        requires row { row < IDS }
        requires once { weight_of (held_by row (owner_at (owners_of self.old) f)) ≡ 1 }
        ensures owners { OwnersStep (IsShared row) (owners_of self.old) f (owners_of self.new) }
        ensures frames { holder_count self.new ≡ holder_count self.old }
    {
        match self.kinds[f] {
            Kind::Kept(_) => {}
            Kind::Own(_) => self.put_weights(f, Weights::two(row)),
            Kind::Shared => {
                let place = self.places[f] as usize;
                self.counts[place].share(row);
            }
        }
    }

    // The row's one reference of a frame with counts goes. True where it was the last.
    fn release_counted(&mut self, f: usize, row: u8) -> bool
        requires frame { f < holder_count self.old }
        requires row { row < IDS }
        requires shared { slice_index_or self.old.kinds.items f (Kept 0) ≡ Shared }
        requires once { weight_of (held_by row (owner_at (owners_of self.old) f)) ≡ 1 }
        ensures owners { OwnersStep (IsReleased result row) (owners_of self.old) f
            (owners_of self.new) }
        ensures frames { holder_count self.new ≡ holder_count self.old }
    {
        let place = self.places[f] as usize;
        if self.counts[place].total() == 1 {
            self.kinds[f] = Kind::Kept(row);
            return true;
        }
        self.counts[place].release(row);
        false
    }

    /// The row's one reference of the frame `f` goes. True where it was the last.
    pub fn release(&mut self, f: usize, row: u8) -> bool
        requires frame { f < holder_count self.old }
        requires row { row < IDS }
        requires once { weight_of (held_by row (owner_at (owners_of self.old) f)) ≡ 1 }
        ensures owners { OwnersStep (IsReleased result row) (owners_of self.old) f
            (owners_of self.new) }
        ensures frames { holder_count self.new ≡ holder_count self.old }
    {
        match self.kinds[f] {
            Kind::Kept(_) => false,
            Kind::Own(_) => {
                self.kinds[f] = Kind::Kept(row);
                true
            }
            Kind::Shared => self.release_counted(f, row),
        }
    }

    /// One reference of the frame `f` goes from a row to another. A frame of one row alone goes as
    /// it is.
    pub fn hand(&mut self, f: usize, from: u8, to: u8)
        requires frame { f < holder_count self.old }
        requires rows { (from < IDS) × (to < IDS) × (from ≢ to) }
        requires part { is_here (held_by from (owner_at (owners_of self.old) f)) ≡ true }
        requires room { is_whole (held_by from (owner_at (owners_of self.old) f)) ≡ false
            → held_by to (owner_at (owners_of self.old) f) ≡ None }
        ensures owners { OwnersStep (IsHanded from to) (owners_of self.old) f
            (owners_of self.new) }
        ensures frames { holder_count self.new ≡ holder_count self.old }
    {
        match self.kinds[f] {
            Kind::Kept(_) => self.kinds[f] = Kind::Kept(to),
            Kind::Own(_) => self.kinds[f] = Kind::Own(to),
            Kind::Shared => {
                let place = self.places[f] as usize;
                self.counts[place].hand(from, to);
            }
        }
    }
}
