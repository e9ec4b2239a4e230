// The grant table of a domain.
ghost use Rattle.std.specs.Prelude.{◌≡◌, ◌<◌, ◌↔◌, IsOk, IsNone, OnOk, OnErr};
ghost use Rattle.std.specs.FinMap as map;
ghost use Rattle.neph_grant.specs.Table.{admit_answer, device_entry, device_grants, end_answer};
ghost use Rattle.neph_grant.specs.Table.{entry_bytes_of, is_for, names_page, with_entry};

use crate::entry::{GrantEntry, bytes};
use crate::faults::{EndFault, InUse, MapRefused};
use neph_base::{DomId, GrantRef, MAX_PAGES, Mode, Pfn, Who};
use std::marker::Model;

/// How many references a grant table has: 0 to 63.
pub const GRANT_REFS: usize = 64;

/// How many references, from 0 on, are those of the device pages. Domain 0 has them mapped for
/// good.
pub const DEVICE_GRANTS: u32 = 3;

/// The grant table of a domain. Contracts see a finite map from references to entries.
#[derive(Drop)]
pub struct GrantTable {
    entries: [Option<GrantEntry>; GRANT_REFS],
    // how many entries name each page
    uses: [u8; MAX_PAGES],
}

impl Model for GrantTable {
    ghost use Rattle.std.specs.Ordering.{nat_cmp};
    ghost use Rattle.std.specs.FinMap as map;
    ghost use Rattle.std.specs.Coded.{codes, coded_ℕ};
    ghost use Rattle.neph_grant.specs.declared.entry.GrantEntry.{GrantEntry};
    ghost use Rattle.neph_grant.specs.contracts.entry.GrantEntry as entry;

    ghost Value = { map.FinMap nat_cmp GrantEntry };

    ghost coded = { map.code coded_ℕ (Prim.hlevel (codes, entry.the_row.coded)) };

    ghost use Rattle.neph_grant.specs.Slots.{map_of_slots};
    ghost use Rattle.neph_grant.specs.Uses.{IsCounted};

    ghost view = { λ t. map_of_slots t.entries };

    ghost invariant = { λ t. IsCounted t.entries t.uses };
}

impl GrantTable {
    /// The table without entries.
    pub fn new() -> Self
        ensures { result ≡ map.empty }
    {
        let entries = [None; GRANT_REFS];
        let uses = [0; MAX_PAGES];
        GrantTable { entries, uses }
    }

    /// The table of a new domain: the references 0, 1 and 2 let domain 0 write the console, network
    /// and 9P page.
    pub fn start() -> Self
        ensures { result ≡ device_grants }
    {
        let mut table = GrantTable::new();
        table.put(0, device_entry(1));
        table.put(1, device_entry(2));
        table.put(2, device_entry(3));
        table
    }

    /// The entry of a reference, `None` exactly where it is free.
    #[tactic(auto, using(crate::proofs::SlotLemmas::slot_rules))]
    pub fn at(&self, r: GrantRef) -> Option<GrantEntry>
        ensures { result ≡ map.get self.now r }
    {
        self.entries[r.get() as usize]
    }

    /// Whether an entry names a page.
    pub fn names(&self, p: Pfn) -> bool
        ensures { result ≡ names_page self.now p }
    {
        self.uses[p.get() as usize] > 0
    }

    /// Grants a page: makes the entry of a reference, which may not have one.
    pub fn grant(&mut self, r: GrantRef, who: Who, p: Pfn, m: Mode) -> Result<(), InUse>
        ensures free { IsOk result ↔ IsNone (map.get self.old r) }
        ensures ok { OnOk result (self.new ≡ with_entry self.old r who p m) }
        ensures err { OnErr result (self.new ≡ self.old) }
    {
        if self.at(r).is_some() {
            return Err(InUse);
        }
        self.put(
            r.get() as usize,
            GrantEntry {
                who,
                pfn: p,
                mode: m,
            },
        );
        Ok(())
    }

    // Makes the entry of a free reference.
    #[tactic(auto, using(crate::proofs::SlotLemmas::slot_rules))]
    fn put(&mut self, r: usize, entry: GrantEntry)
        requires range { r < GRANT_REFS }
        requires free { map.get self.old r ≡ None }
        ensures { self.new ≡ map.insert self.old r entry }
    {
        let page = entry.pfn.get() as usize;
        self.entries[r] = Some(entry);
        self.uses[page] += 1;
    }

    /// Takes the entry of a reference away, and gives its page. `mapped` tells whether a handle of
    /// a live domain has the entry mapped. The entries of the device pages stay.
    #[tactic(auto, using(crate::proofs::SlotLemmas::slot_rules))]
    pub fn end(&mut self, r: GrantRef, mapped: bool) -> Result<Pfn, EndFault>
        ensures answer { result ≡ end_answer self.old r mapped }
        ensures ok { OnOk result (self.new ≡ map.remove self.old r) }
        ensures err { OnErr result (self.new ≡ self.old) }
    {
        let Some(entry) = self.at(r) else {
            return Err(EndFault::NoGrant);
        };
        if r.get() < DEVICE_GRANTS || mapped {
            return Err(EndFault::Busy);
        }
        self.entries[r.get() as usize] = None;
        self.uses[entry.pfn.get() as usize] -= 1;
        Ok(entry.pfn)
    }

    /// The eight bytes of an entry, `None` exactly where the reference is free. `reading` tells
    /// whether a handle of a live domain has the entry mapped, `writing` whether one has that may
    /// write.
    pub fn entry_bytes(&self, r: GrantRef, reading: bool, writing: bool) -> Option<[u8; 8]>
        ensures { result ≡ entry_bytes_of self.now r reading writing }
    {
        match self.at(r) {
            Some(entry) => Some(bytes(r.get() < DEVICE_GRANTS, &entry, reading, writing)),
            None => None,
        }
    }

    /// What the domain `me`, whose parent is `my_parent`, gets by mapping an entry: the page of the
    /// granter, whose table this is, and the mode. An entry for children lets in exactly the
    /// domains whose parent is the granter.
    pub fn admits(
        &self,
        r: GrantRef,
        me: DomId,
        my_parent: DomId,
        granter: DomId,
    ) -> Result<(Pfn, Mode), MapRefused>
        ensures { result ≡ admit_answer self.now r me my_parent granter }
    {
        let Some(entry) = self.at(r) else {
            return Err(MapRefused::NoEntry);
        };
        if is_for(entry.who, me, my_parent, granter) {
            Ok((entry.pfn, entry.mode))
        } else {
            Err(MapRefused::NotYours)
        }
    }

    /// The same table again, as a child gets it.
    pub fn copy(&self) -> Self
        ensures { result ≡ self.now }
    {
        let mut entries = [None; GRANT_REFS];
        entries.copy_from_slice(&self.entries);
        GrantTable {
            entries,
            uses: self.uses,
        }
    }
}

/// The entry that lets domain 0 write a page.
fn device_entry(page: u32) -> GrantEntry
    requires { page < MAX_PAGES }
    ensures { result ≡ device_entry page }
{
    let (Some(dom0), Some(pfn)) = (DomId::new(0), Pfn::new(page)) else {
        unreachable!()
    };
    GrantEntry {
        who: Who::Dom(dom0),
        pfn,
        mode: Mode::Rw,
    }
}

/// Whether an entry of the granter for `who` lets in the domain `me`, whose parent is `my_parent`.
fn is_for(who: Who, me: DomId, my_parent: DomId, granter: DomId) -> bool
    ensures { result ≡ is_for who me my_parent granter }
{
    match who {
        Who::Dom(d) => d.get() == me.get(),
        Who::Child => my_parent.get() == granter.get(),
    }
}
