// The rows of the commands of handles.
ghost use Rattle.std.specs.Prelude.{◌≡◌, ◌==◌, ◌<◌, ◌+◌, ◌≤◌, ℕ, List, length, true};
ghost use Rattle.std.specs.List.{list_any};
ghost use Rattle.std.specs.FinMap as fm;
ghost use Rattle.neph_grant.specs.Handles.{free_handle};
ghost use Rattle.neph_grant.specs.Table.{admit_answer};
ghost use Rattle.neph_model.specs.Machine.{Exposed, guest_at, is_live, life_at, parent_of};
ghost use Rattle.neph_model.specs.Step.{call_effect, locked};
ghost use Rattle.neph_model.specs.Trap.{gmap_call, gunmap_call, hr_call, hw_call};
ghost use Rattle.neph_model.specs.Trap.{has_ended, is_begun, map_at, mapped_page};
ghost use Rattle.neph_rows.specs.Records.{shared_of, without_shares};
ghost use Rattle.neph_rows.specs.declared.slots.Slot.{Slot};

use crate::exposed_pages::ExposedPages;
use crate::memory::read;
use crate::registry::Registry;
use crate::slots::{Slot, map, unmap};
use neph_base::{DomId, GrantRef, Handle, Mode, PageOffset, Pfn, Refusal, Reply};
use neph_grant::{GrantMapping, MapRefused};

/// Maps an entry of the granter's grant table for a live domain, at its least free handle.
pub fn gmap(r: &mut Registry, dom: DomId, granter: DomId, reference: GrantRef) -> Reply
    requires { is_live dom r.old.lives ≡ true }
    ensures row { (pages : List Exposed) → call_effect (shared_of r.old pages)
        (gmap_call (shared_of r.old pages) dom (guest_at dom r.old.tables) granter reference)
        ≡ locked (shared_of r.new pages) result }
    ensures same { without_shares r.new ≡ without_shares r.old }
{
    if has_ended(r, granter) {
        return Reply::Refused(Refusal::Gone);
    }
    match admitted(r, dom, granter, reference) {
        Ok((_, mode)) => map_at(r, dom, granter, reference, mode),
        Err(MapRefused::NoEntry) => Reply::Refused(Refusal::NoEntry),
        Err(MapRefused::NotYours) => Reply::Refused(Refusal::NotYours),
    }
}

// Whether the domain of an id was live, and has ended.
fn has_ended(r: &Registry, id: DomId) -> bool
    ensures { (pages : List Exposed) → result ≡ has_ended (shared_of r.now pages) id }
{
    0 < id.get()
        && id.get() < u32::from(r.next)
        && r.lives[id.get() as usize].is_none()
        && !is_begun(r, id)
}

// Whether a clone that was begun and isn't committed has this child.
fn is_begun(r: &Registry, id: DomId) -> bool
    ensures { result ≡ is_begun r.now.tables id }
{
    begun_in(&r.slots, id)
}

// Whether a slot has begun a clone with this child.
fn begun_in(slots: &[Slot], id: DomId) -> bool
    ensures { result
        ≡ list_any (λ (s : Slot). list_any (λ child. child == id) s.begun.items) slots.now }
{
    slots.iter().any(|slot| has_begun(slot, id))
}

// Whether a clone with this child is one that a slot has begun.
fn has_begun(slot: &Slot, id: DomId) -> bool
    ensures { result ≡ list_any (λ child. child == id) slot.now.begun.items }
{
    slot.begun.iter().any(|child| child.get() == id.get())
}

// What a live domain gets by mapping an entry of the granter.
fn admitted(
    r: &Registry,
    dom: DomId,
    granter: DomId,
    reference: GrantRef,
) -> Result<(Pfn, Mode), MapRefused>
    requires { is_live dom r.now.lives ≡ true }
    ensures { result ≡ admit_answer (guest_at granter r.now.tables).grants reference dom
        (parent_of (life_at dom r.now.lives)) granter }
{
    let Some(life) = r.lives[dom.get() as usize] else {
        unreachable!();
    };
    r.slots[granter.get() as usize]
        .sharing
        .admits(reference, dom, life.parent, granter)
}

// Maps an entry with this mode at a live domain's least free handle, if any is free.
fn map_at(r: &mut Registry, dom: DomId, granter: DomId, reference: GrantRef, mode: Mode) -> Reply
    requires { is_live dom r.old.lives ≡ true }
    ensures row { (pages : List Exposed) → let g = guest_at dom r.old.tables in
        call_effect (shared_of r.old pages)
        (map_at (shared_of r.old pages) dom g granter reference mode (free_handle g.handles))
        ≡ locked (shared_of r.new pages) result }
    ensures same { without_shares r.new ≡ without_shares r.old }
{
    match map(&mut r.slots, dom.get() as usize, granter, reference, mode) {
        Some(h) => Reply::Number(h.get()),
        None => Reply::Refused(Refusal::HandlesFull),
    }
}

/// Gives a handle of a domain up.
pub fn gunmap(r: &mut Registry, dom: DomId, h: Handle) -> Reply
    ensures row { (pages : List Exposed) → call_effect (shared_of r.old pages)
        (gunmap_call (shared_of r.old pages) dom (guest_at dom r.old.tables) h)
        ≡ locked (shared_of r.new pages) result }
    ensures same { without_shares r.new ≡ without_shares r.old }
{
    if unmap(&mut r.slots, dom.get() as usize, h) {
        Reply::Done
    } else {
        Reply::Refused(Refusal::NoHandle)
    }
}

// What a handle of a domain maps, `None` exactly where it isn't held.
fn mapping(r: &Registry, dom: DomId, h: Handle) -> Option<GrantMapping>
    ensures { result ≡ fm.get (guest_at dom r.now.tables).handles h }
{
    r.slots[dom.get() as usize].sharing.mapping(h)
}

// The page of its granter that a handle maps, `None` exactly where the granter has ended.
fn mapped_page<E: ExposedPages>(r: &Registry, pages: &E, m: &GrantMapping) -> Option<Pfn>
    ensures { result ≡ mapped_page (shared_of r.now (E.pages pages.now)) m.now }
{
    let entry = r.slots[m.granter.get() as usize]
        .sharing
        .entry(m.reference)?;
    if pages.has(m.granter, entry.pfn) {
        Some(entry.pfn)
    } else {
        None
    }
}

/// Reads bytes of the page that a handle of a domain maps.
pub fn hr<E: ExposedPages>(
    r: &Registry,
    pages: &mut E,
    dom: DomId,
    h: Handle,
    at: PageOffset,
    len: u8,
) -> Reply
    requires fits { E.fits pages.old }
    requires some { 0 < len }
    requires few { len ≤ 64 }
    requires inside { at + len ≤ 4096 }
    ensures row { let sh = shared_of r.now (E.pages pages.old) in
        call_effect sh (hr_call sh at len (fm.get (guest_at dom r.now.tables).handles h))
        ≡ locked (shared_of r.now (E.pages pages.new)) result }
    ensures fits { E.fits pages.new }
    ensures stays { E.stays pages.old pages.new }
{
    let Some(m) = mapping(r, dom, h) else {
        return Reply::Refused(Refusal::NoHandle);
    };
    let Some(pfn) = mapped_page(r, pages, &m) else {
        return Reply::Refused(Refusal::Gone);
    };
    Reply::Bytes(read(pages, m.granter, pfn, at.get() as usize, len))
}

/// Writes bytes to the page that a handle of a domain maps.
pub fn hw<E: ExposedPages>(
    r: &Registry,
    pages: &mut E,
    dom: DomId,
    h: Handle,
    at: PageOffset,
    bytes: &[u8],
) -> Reply
    requires fits { E.fits pages.old }
    requires inside { at + length bytes.now ≤ 4096 }
    ensures row { let sh = shared_of r.now (E.pages pages.old) in
        call_effect sh (hw_call sh at bytes.now (fm.get (guest_at dom r.now.tables).handles h))
        ≡ locked (shared_of r.now (E.pages pages.new)) result }
    ensures fits { E.fits pages.new }
    ensures stays { E.stays pages.old pages.new }
{
    let Some(m) = mapping(r, dom, h) else {
        return Reply::Refused(Refusal::NoHandle);
    };
    let Some(pfn) = mapped_page(r, pages, &m) else {
        return Reply::Refused(Refusal::Gone);
    };
    match m.mode {
        Mode::Ro => Reply::Refused(Refusal::ReadOnly),
        Mode::Rw => {
            pages.write(m.granter, pfn, at.get() as usize, bytes);
            Reply::Done
        }
    }
}
