// Who is live, and what the hypervisor keeps of each id.
use crate::live_ids::{first_from, live_ids};
use crate::slots::{Slot, first_slot};
use neph_base::{DomId, IDS, NoMemory};
use neph_model::{Cloned, Life};
use std::alloc::Global;
use std::collections::VecDeque;
use std::marker::Model;

/// The hypervisor's tables (after Xen's list of domains): who is live, what is kept of each id, the
/// id of the next child, and the committed clones that wait for their second stage.
#[derive(Drop)]
pub struct Registry {
    pub(crate) lives: Vec<Option<Life>>,
    pub(crate) slots: Vec<Slot>,
    pub(crate) next: u8,
    pub(crate) waiting: VecDeque<Cloned>,
    pub(crate) live: usize,
    // The ids of the live domains.
    pub(crate) ids: u64,
}

impl Model for Registry {
    ghost use Rattle.std.specs.Coded.{codes};
    ghost use Rattle.neph_model.specs.contracts.life.Guest as guest;
    ghost use Rattle.neph_rows.specs.Records.{Records};

    ghost Value = { Records };

    ghost coded = { Prim.hlevel (codes, guest.the_row.coded) };

    ghost use Rattle.neph_rows.specs.Kept.{records_of, IsKept};

    ghost view = { records_of };

    ghost invariant = { IsKept };
}

impl Registry {
    ghost use Rattle.std.specs.Prelude.{◌≡◌, ◌≤◌, ◌<◌, ◌∷◌, [], ℕ, length, replicate, IfOk, IfSome, slice_get, Option, List};
    ghost use Rattle.std.specs.Option.{option_copied};
    ghost use Rattle.neph_model.specs.Machine.{life_at, live_count, guest_at, no_guest, program_run};
    ghost use Rattle.neph_model.specs.Step.{is_paused, awaits_join, is_some_left};
    ghost use Rattle.neph_rows.specs.Live.{IsNextLive};
    ghost use Rattle.neph_rows.specs.Records.{shared_of, first_records};
    ghost use Rattle.neph_rows.specs.Sound.{IsSoundRecords};
    ghost use Rattle.neph_model.specs.Machine.{Exposed};

    /// Who is live at first, and the id of the next child; no clone has begun or waits, and each
    /// domain has granted its device pages to domain 0.
    pub fn new(alloc: Global, lives: Vec<Option<Life>>, next: u8) -> Result<Self, NoMemory>
        requires { IsSoundRecords (first_records lives.items next) }
        ensures { IfOk result (λ r. r ≡ first_records lives.items next) }
    {
        let ids = live_ids(&lives);
        let live = lives.iter().filter(|life| life.is_some()).count();
        let mut slots = Vec::with_capacity(alloc, IDS)?;
        for life in &lives {
            slots.push(first_slot(alloc, life)?)?;
        }
        Ok(Registry {
            lives,
            slots,
            next,
            waiting: VecDeque::new(alloc),
            live,
            ids,
        })
    }

    /// How many domains are live.
    pub fn live_count(&self) -> usize
        ensures { result ≡ live_count self.now.lives }
    {
        self.live
    }

    /// The first id from a number on whose domain is live. Costs the same however many there are.
    pub fn next_live(&self, from: u32) -> Option<DomId>
        ensures { IsNextLive self.now.lives from result }
    {
        match first_from(self.ids, from) {
            Some(id) => DomId::new(id),
            None => None,
        }
    }

    /// What the domain of an id was born as, where it is live.
    pub fn life(&self, id: DomId) -> Option<Life>
        ensures value { result ≡ life_at id self.now.lives }
        ensures sound { IsSoundRecords self.now }
    {
        self.lives[id.get() as usize]
    }

    /// The number of the program that the domain of an id runs, 0 where none is live.
    pub fn program(&self, id: DomId) -> u8
        ensures value { result ≡ program_run id self.now.lives }
        ensures sound { IsSoundRecords self.now }
    {
        match self.lives[id.get() as usize] {
            Some(life) => life.program,
            None => 0,
        }
    }

    /// Whether a clone waits for its second stage.
    pub fn has_waiting(&self) -> bool
        ensures value { result ≡ is_some_left self.now.tables.waiting }
        ensures sound { IsSoundRecords self.now }
    {
        !self.waiting.is_empty()
    }

    /// The first of the children whose clones the domain of an id has begun and not committed.
    pub fn first_begun(&self, id: DomId) -> Option<DomId>
        ensures value { result ≡ slice_get (guest_at id self.now.tables).begun 0 }
        ensures later { IfSome result (λ child. id < child) }
        ensures sound { IsSoundRecords self.now }
    {
        self.slots[id.get() as usize].begun.first().copied()
    }

    /// How many clones the domain of an id has begun and not committed.
    pub fn begun_count(&self, id: DomId) -> u32
        ensures value { result ≡ length (guest_at id self.now.tables).begun }
        ensures few { result ≤ 62 }
    {
        self.slots[id.get() as usize].begun.len() as u32
    }

    /// Whether a domain is paused: it has begun a clone, or waits for a clone's second stage as its
    /// parent or child.
    #[tactic(auto, using(crate::proofs::SlotFacts::some_left))]
    pub fn is_paused(&self, id: DomId) -> bool
        ensures { (pages : List Exposed) → result ≡ is_paused id (shared_of self.now pages) }
    {
        self.begun_count(id) != 0 || self.awaits(id)
    }

    // Whether a clone waits for its second stage, of which a domain is the parent or the child.
    fn awaits(&self, id: DomId) -> bool
        ensures { result ≡ awaits_join id self.now.tables.waiting }
    {
        self.waiting.iter().any(|w| w.parent == id || w.child == id)
    }
}
