// The rows of the commands of grants.
ghost use Rattle.std.specs.Prelude.{◌≡◌, ℕ, List, OnErr};
ghost use Rattle.std.specs.List.{list_any};
ghost use Rattle.neph_grant.specs.Handles.{maps_entry};
ghost use Rattle.neph_grant.specs.Table.{names_page};
ghost use Rattle.neph_model.specs.Machine.{Exposed, guest_at};
ghost use Rattle.neph_model.specs.Trap.{is_mapped, ungrant_call};
ghost use Rattle.neph_rows.specs.Records.{shared_of, without_shares};
ghost use Rattle.neph_rows.specs.Row.{ended_with, NamedBy};
ghost use Rattle.neph_rows.specs.declared.slots.Slot.{Slot};

use crate::registry::Registry;
use crate::slots::{Slot, end_entry};
use neph_base::{DomId, GrantRef, Pfn, Refusal};
use neph_grant::EndFault;

/// Takes an entry of a domain's grant table away. Gives the page that it named, where no other
/// entry names it: it is to be the domain's own again.
pub fn ungrant(r: &mut Registry, dom: DomId, reference: GrantRef) -> Result<Option<Pfn>, Refusal>
    ensures row { (pages : List Exposed)
        → ungrant_call (shared_of r.old pages) dom (guest_at dom r.old.tables) reference
        ≡ ended_with (shared_of r.new pages) dom result }
    ensures named { NamedBy (guest_at dom r.old.tables).grants reference result }
    ensures refused { OnErr result (r.new ≡ r.old) }
    ensures same { without_shares r.new ≡ without_shares r.old }
{
    let mapped = is_mapped(r, dom, reference);
    match end_entry(&mut r.slots, dom.get() as usize, reference, mapped) {
        Ok(pfn) if is_named(r, dom, pfn) => Ok(None),
        Ok(pfn) => Ok(Some(pfn)),
        Err(EndFault::NoGrant) => Err(Refusal::NoGrant),
        Err(EndFault::Busy) => Err(Refusal::Busy),
    }
}

// Whether an entry of a domain names a page.
fn is_named(r: &Registry, dom: DomId, pfn: Pfn) -> bool
    ensures { result ≡ names_page (guest_at dom r.now.tables).grants pfn }
{
    r.slots[dom.get() as usize].sharing.names(pfn)
}

// Whether a domain has this entry of the granter mapped.
fn is_mapped(r: &Registry, granter: DomId, reference: GrantRef) -> bool
    ensures { result ≡ is_mapped r.now.tables granter reference }
{
    mapped_in(&r.slots, granter, reference)
}

// Whether an entry is mapped in a slot.
fn mapped_in(slots: &[Slot], granter: DomId, reference: GrantRef) -> bool
    ensures { result
        ≡ list_any (λ (s : Slot). maps_entry s.sharing.handles granter reference) slots.now }
{
    slots
        .iter()
        .any(|slot| slot.sharing.maps(granter, reference))
}
