// The handles of a domain.
ghost use Rattle.std.specs.Prelude.{◌≡◌, false, IfSome, IfNone, is_none, is_some, option_map};
ghost use Rattle.std.specs.Bool.{OnTrue, OnFalse};
ghost use Rattle.std.specs.List.{list_any, position};
ghost use Rattle.std.specs.Option.{option_map_or};
ghost use Rattle.std.specs.FinMap as map;
ghost use Rattle.neph_grant.specs.declared.handles.GrantMapping.{GrantMapping};
ghost use Rattle.neph_grant.specs.Handles.{free_handle, is_of_entry, is_writable, mapping_parts};
ghost use Rattle.neph_grant.specs.Handles.{maps_entry, with_mapping, writes_entry, writes_of_entry};

use neph_base::{DomId, GrantRef, Handle, Mode};
use std::marker::Model;

/// How many handles a domain may hold: 0 to 63.
pub const HANDLES: usize = 64;

/// An entry of another domain's grant table that is mapped.
#[derive(Clone, Copy, Debug, PartialEq, Eq)]
pub struct GrantMapping {
    /// The domain whose table it is.
    pub granter: DomId,
    /// The reference of the entry.
    pub reference: GrantRef,
    /// The mode that the entry had.
    pub mode: Mode,
}

/// The handles of a domain. Contracts see a finite map from handles to mapped entries.
#[derive(Drop)]
pub struct Handles {
    mappings: [Option<GrantMapping>; HANDLES],
}

impl Model for Handles {
    ghost use Rattle.std.specs.Prelude.{◌≡◌, length};
    ghost use Rattle.std.specs.Ordering.{nat_cmp};
    ghost use Rattle.std.specs.FinMap as map;
    ghost use Rattle.std.specs.Coded.{codes, coded_ℕ};
    ghost use Rattle.neph_grant.specs.declared.handles.GrantMapping.{GrantMapping};
    ghost use Rattle.neph_grant.specs.contracts.handles.GrantMapping as mapping;

    ghost Value = { map.FinMap nat_cmp GrantMapping };

    ghost coded = { map.code coded_ℕ (Prim.hlevel (codes, mapping.the_row.coded)) };

    ghost use Rattle.neph_grant.specs.Slots.{map_of_slots};
    ghost use Rattle.neph_grant.specs.declared.handles.TheConstants.{HANDLES};

    ghost view = { λ t. map_of_slots t.mappings };

    ghost invariant = { λ t. length t.mappings ≡ HANDLES };
}

impl Handles {
    /// No handles.
    pub fn new() -> Self
        ensures { result ≡ map.empty }
    {
        let mappings = [None; HANDLES];
        Handles { mappings }
    }

    /// Maps an entry of the granter at the least free handle, `None` exactly where 64 are held.
    #[tactic(auto, using(crate::proofs::SlotLemmas::slot_rules))]
    pub fn put(&mut self, granter: DomId, r: GrantRef, m: Mode) -> Option<Handle>
        ensures value { result ≡ free_handle self.old }
        ensures put { IfSome result (λ h. self.new ≡ with_mapping self.old h granter r m) }
        ensures full { IfNone result (self.new ≡ self.old) }
    {
        let free = first_free(&self.mappings)?;
        let h = Handle::new(free as u32)?;
        self.mappings[free] = Some(GrantMapping {
            granter,
            reference: r,
            mode: m,
        });
        Some(h)
    }

    /// The granter, the reference and the mode of a handle, `None` exactly where it isn't held.
    #[tactic(auto, using(crate::proofs::SlotLemmas::slot_rules))]
    pub fn at(&self, h: Handle) -> Option<(DomId, GrantRef, Mode)>
        ensures { result ≡ option_map mapping_parts (map.get self.now h) }
    {
        let mapping = self.mappings[h.get() as usize]?;
        Some((mapping.granter, mapping.reference, mapping.mode))
    }

    /// Gives a handle up, false exactly where it isn't held.
    #[tactic(auto, using(crate::proofs::SlotLemmas::slot_rules))]
    pub fn remove(&mut self, h: Handle) -> bool
        ensures value { result ≡ is_some (map.get self.old h) }
        ensures removed { OnTrue result (self.new ≡ map.remove self.old h) }
        ensures absent { OnFalse result (self.new ≡ self.old) }
    {
        let place = h.get() as usize;
        if self.mappings[place].is_none() {
            return false;
        }
        self.mappings[place] = None;
        true
    }

    /// Whether some handle has this entry of the granter mapped.
    pub fn maps(&self, granter: DomId, r: GrantRef) -> bool
        ensures { result ≡ maps_entry self.now granter r }
    {
        any_of(&self.mappings, granter, r)
    }

    /// Whether some handle that may write has this entry of the granter mapped.
    pub fn writes(&self, granter: DomId, r: GrantRef) -> bool
        ensures { result ≡ writes_entry self.now granter r }
    {
        any_writable_of(&self.mappings, granter, r)
    }
}

// The place of the first empty slot.
fn first_free(slots: &[Option<GrantMapping>]) -> Option<usize>
    ensures { result ≡ position is_none slots.now }
{
    slots.iter().position(|slot| slot.is_none())
}

// Whether a slot has this entry of the granter.
fn any_of(slots: &[Option<GrantMapping>], granter: DomId, r: GrantRef) -> bool
    ensures { result
        ≡ list_any (λ slot. option_map_or (is_of_entry granter r) slot false) slots.now }
{
    slots.iter().any(|slot| match slot {
        Some(g) => is_of(g, granter, r),
        None => false,
    })
}

// Whether a slot that may be written has this entry of the granter.
fn any_writable_of(slots: &[Option<GrantMapping>], granter: DomId, r: GrantRef) -> bool
    ensures { result
        ≡ list_any (λ slot. option_map_or (writes_of_entry granter r) slot false) slots.now }
{
    slots.iter().any(|slot| match slot {
        Some(g) => is_of(g, granter, r) && is_writable(g.mode),
        None => false,
    })
}

// Whether a mapping is of this entry of the granter.
fn is_of(g: &GrantMapping, granter: DomId, r: GrantRef) -> bool
    ensures { result ≡ is_of_entry granter r g.now }
{
    g.granter.get() == granter.get() && g.reference.get() == r.get()
}

// Whether a mode lets write.
fn is_writable(mode: Mode) -> bool
    ensures { result ≡ is_writable mode }
{
    match mode {
        Mode::Ro => false,
        Mode::Rw => true,
    }
}
