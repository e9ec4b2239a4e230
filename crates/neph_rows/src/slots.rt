// What is kept of each id.
ghost use Rattle.std.specs.Prelude.{◌≡◌, ◌<◌, ◌+◌, ◌++◌, ◌∷◌, [], ℕ, true, false, List, All, IfOk, IfSome, IfNone, OnOk, OnErr, is_some, length, map, slice_set, slice_index_or};
ghost use Rattle.std.specs.Bool.{OnTrue, OnFalse};
ghost use Rattle.std.specs.FinMap as fm;
ghost use Rattle.neph_grant.specs.Handles.{free_handle, with_mapping};
ghost use Rattle.neph_grant.specs.Table.{end_answer};
ghost use Rattle.neph_model.specs.Machine.{no_guest, but_shares};
ghost use Rattle.neph_rows.specs.Slots.{guest_of, guests_of, rooms_of, first_guest, HasRoom};

use crate::sharing::Sharing;
use neph_base::{DomId, GrantRef, Handle, Mode, NoMemory, Pfn};
use neph_grant::EndFault;
use neph_model::Life;
use std::alloc::Global;

/// What is kept of an id.
#[derive(Drop)]
pub struct Slot {
    /// How many clones its domain has begun.
    pub accepted: u8,
    /// The children of the clones that it has begun and not committed.
    pub begun: Vec<DomId>,
    /// Its grants and handles.
    pub sharing: Sharing,
}

/// The most clones that a domain may begin.
pub const MAX_LIMIT: usize = 62;

/// What is kept at first of an id, by who is live with it, with room for the clones that its domain
/// may begin.
pub fn first_slot(alloc: Global, life: &Option<Life>) -> Result<Slot, NoMemory>
    ensures first { IfOk result (λ s. guest_of s ≡ first_guest life.now) }
    ensures room { IfOk result HasRoom }
    ensures home { IfOk result (λ s. s.sharing.room ≡ is_some life.now) }
{
    let sharing = match life {
        Some(_) => Sharing::start(alloc)?,
        None => Sharing::none(),
    };
    Ok(Slot {
        accepted: 0,
        begun: Vec::with_capacity(alloc, MAX_LIMIT + 1)?,
        sharing,
    })
}

/// Counts a clone that a domain begins, with this child.
pub fn count_clone(slots: &mut Vec<Slot>, at: usize, child: DomId)
    requires there { at < length slots.old.items }
    requires room { All HasRoom slots.old.items }
    requires few { (slice_index_or (guests_of slots.old.items) at no_guest).accepted < 62 }
    requires counted { length (slice_index_or (guests_of slots.old.items) at no_guest).begun < 62 }
    ensures guests { let g = slice_index_or (guests_of slots.old.items) at no_guest in
        guests_of slots.new.items ≡ slice_set (guests_of slots.old.items) at
        (record g { begun = g.begun ++ child ∷ []; accepted = g.accepted + 1 }) }
    ensures rooms { rooms_of slots.new.items ≡ rooms_of slots.old.items }
    ensures room { All HasRoom slots.new.items }
    ensures places { length slots.new.items ≡ length slots.old.items }
{
    let slot = &mut slots[at];
    slot.accepted += 1;
    slot.begun.push_reserved(child);
}

/// Takes away the first of the clones that a domain has begun.
pub fn take_first(slots: &mut Vec<Slot>, at: usize)
    requires there { at < length slots.old.items }
    requires room { All HasRoom slots.old.items }
    requires some { 0 < length (slice_index_or (guests_of slots.old.items) at no_guest).begun }
    ensures guests { (left : List ℕ) (child : ℕ)
        → (slice_index_or (guests_of slots.old.items) at no_guest).begun ≡ child ∷ left
        → guests_of slots.new.items ≡ slice_set (guests_of slots.old.items) at
        (record (slice_index_or (guests_of slots.old.items) at no_guest) { begun = left }) }
    ensures rooms { rooms_of slots.new.items ≡ rooms_of slots.old.items }
    ensures room { All HasRoom slots.new.items }
    ensures places { length slots.new.items ≡ length slots.old.items }
{
    let slot = &mut slots[at];
    slot.begun.remove(0);
}

/// Keeps nothing of an id but what it shares.
pub fn clear(slots: &mut Vec<Slot>, at: usize, sharing: Sharing)
    requires there { at < length slots.old.items }
    requires room { All HasRoom slots.old.items }
    ensures guests { guests_of slots.new.items ≡ slice_set (guests_of slots.old.items) at
        (record no_guest { grants = sharing.grants; handles = sharing.handles }) }
    ensures rooms { rooms_of slots.new.items
        ≡ slice_set (rooms_of slots.old.items) at sharing.room }
    ensures room { All HasRoom slots.new.items }
    ensures places { length slots.new.items ≡ length slots.old.items }
{
    let slot = &mut slots[at];
    slot.accepted = 0;
    slot.begun.clear();
    slot.sharing = sharing;
}

/// Maps an entry of the granter for a domain at its least free handle, `None` exactly where all are
/// held.
pub fn map(slots: &mut Vec<Slot>, at: usize, granter: DomId, r: GrantRef, m: Mode) -> Option<Handle>
    requires there { at < length slots.old.items }
    requires room { All HasRoom slots.old.items }
    requires home { slice_index_or (rooms_of slots.old.items) at false ≡ true }
    ensures value { result
        ≡ free_handle (slice_index_or (guests_of slots.old.items) at no_guest).handles }
    ensures put { IfSome result (λ h. let g = slice_index_or (guests_of slots.old.items) at no_guest in
        guests_of slots.new.items ≡ slice_set (guests_of slots.old.items) at
        (record g { handles = with_mapping g.handles h granter r m })) }
    ensures full { IfNone result (guests_of slots.new.items ≡ guests_of slots.old.items) }
    ensures bare { map but_shares (guests_of slots.new.items)
        ≡ map but_shares (guests_of slots.old.items) }
    ensures rooms { rooms_of slots.new.items ≡ rooms_of slots.old.items }
    ensures room { All HasRoom slots.new.items }
{
    slots[at].sharing.map(granter, r, m)
}

/// Gives a handle of a domain up, false exactly where it isn't held.
pub fn unmap(slots: &mut Vec<Slot>, at: usize, h: Handle) -> bool
    requires there { at < length slots.old.items }
    requires room { All HasRoom slots.old.items }
    ensures value { result ≡ is_some (fm.get
        (slice_index_or (guests_of slots.old.items) at no_guest).handles h) }
    ensures removed { OnTrue result (let g = slice_index_or (guests_of slots.old.items) at no_guest in
        guests_of slots.new.items ≡ slice_set (guests_of slots.old.items) at
        (record g { handles = fm.remove g.handles h })) }
    ensures absent { OnFalse result (guests_of slots.new.items ≡ guests_of slots.old.items) }
    ensures bare { map but_shares (guests_of slots.new.items)
        ≡ map but_shares (guests_of slots.old.items) }
    ensures rooms { rooms_of slots.new.items ≡ rooms_of slots.old.items }
    ensures room { All HasRoom slots.new.items }
{
    slots[at].sharing.unmap(h)
}

/// Takes an entry of a domain away, and gives the page that it named.
pub fn end_entry(
    slots: &mut Vec<Slot>,
    at: usize,
    r: GrantRef,
    mapped: bool,
) -> Result<Pfn, EndFault>
    requires there { at < length slots.old.items }
    requires room { All HasRoom slots.old.items }
    ensures answer { result
        ≡ end_answer (slice_index_or (guests_of slots.old.items) at no_guest).grants r mapped }
    ensures ok { OnOk result (let g = slice_index_or (guests_of slots.old.items) at no_guest in
        guests_of slots.new.items ≡ slice_set (guests_of slots.old.items) at
        (record g { grants = fm.remove g.grants r })) }
    ensures err { OnErr result (guests_of slots.new.items ≡ guests_of slots.old.items) }
    ensures bare { map but_shares (guests_of slots.new.items)
        ≡ map but_shares (guests_of slots.old.items) }
    ensures rooms { rooms_of slots.new.items ≡ rooms_of slots.old.items }
    ensures room { All HasRoom slots.new.items }
{
    slots[at].sharing.end(r, mapped)
}
