// The commit of a clone, the end of a domain and the second stage.
ghost use Rattle.std.specs.Prelude.{◌≡◌, ◌<◌, ◌≤◌, ◌∷◌, ℕ, true, All, IfOk, OnOk, OnErr, None, length, List, slice_set, slice_get, slice_index_or, option_map, Some};
ghost use Rattle.std.specs.FinMap as fm;
ghost use Rattle.neph_model.specs.Births.{end_domain};
ghost use Rattle.neph_model.specs.Machine.{Exposed, guest_at, is_live, live_count, no_guest};
ghost use Rattle.neph_model.specs.declared.life.Life.{Life};
ghost use Rattle.neph_model.specs.Step.{locked, shared_commit, shared_join};
ghost use Rattle.neph_rows.specs.Live.{AreLiveIds};
ghost use Rattle.neph_rows.specs.Records.{shared_of};
ghost use Rattle.neph_rows.specs.Slots.{guests_of, rooms_of, HasRoom};

use crate::exposed_pages::ExposedPages;
use crate::live_ids::with_id;
use crate::registry::Registry;
use crate::sharing::Sharing;
use crate::slots::{Slot, clear, take_first};
use neph_base::{DomId, NoMemory, Reply};
use neph_model::{Cloned, Life};

/// Commits the first of the clones that a live domain has begun: its child is live, and waits with
/// its parent for the second stage. It has its parent's grants, and no handles. Want of memory leaves all as before.
pub fn commit<E: ExposedPages>(
    r: &mut Registry,
    pages: &mut E,
    dom: DomId,
) -> Result<Reply, NoMemory>
    requires fits { E.fits pages.old }
    requires live { is_live dom r.old.lives ≡ true }
    requires may { (child : ℕ) → slice_get (guest_at dom r.old.tables).begun 0 ≡ Some child
        → E.may_bear pages.old child dom }
    ensures row { IfOk result (λ reply.
        shared_commit (shared_of r.old (E.pages pages.old)) dom (guest_at dom r.old.tables).begun
        ≡ locked (shared_of r.new (E.pages pages.new)) reply) }
    ensures err { OnErr result (shared_of r.new (E.pages pages.new)
        ≡ shared_of r.old (E.pages pages.old)) }
    ensures fits { E.fits pages.new }
    ensures born { (child : ℕ) → slice_get (guest_at dom r.old.tables).begun 0 ≡ Some child
        → OnOk result (E.born pages.old pages.new child) }
    ensures none { slice_get (guest_at dom r.old.tables).begun 0 ≡ None
        → E.stays pages.old pages.new }
    ensures stays { OnErr result (E.stays pages.old pages.new) }
{
    let Some(child) = r.first_begun(dom) else {
        return Ok(Reply::Done);
    };
    let sharing = child_sharing(r, dom)?;
    r.waiting.reserve(1)?;
    pages.bear(child, dom)?;
    r.waiting.push_back_reserved(Cloned { parent: dom, child });
    commit_slots(&mut r.slots, dom, child, sharing);
    let life = born(r.lives[dom.get() as usize], dom);
    set_life(
        &mut r.lives,
        &mut r.live,
        &mut r.ids,
        child.get() as usize,
        life,
    );
    Ok(Reply::Child(child))
}

// What a child of a domain shares: its parent's grants, and no handles.
fn child_sharing(r: &Registry, dom: DomId) -> Result<Sharing, NoMemory>
    ensures { IfOk result (λ s. s ≡ record {
      grants = (guest_at dom r.now.tables).grants;
      handles = fm.empty;
      room = true;
    }) }
{
    r.slots[dom.get() as usize]
        .sharing
        .child(*r.slots.allocator())
}

// Takes away the first of the clones that a domain has begun, and keeps nothing of its child but
// what it shares.
fn commit_slots(slots: &mut Vec<Slot>, dom: DomId, child: DomId, sharing: Sharing)
    requires places { length slots.old.items ≡ 64 }
    requires room { All HasRoom slots.old.items }
    requires some { 0 < length (slice_index_or (guests_of slots.old.items) dom no_guest).begun }
    ensures guests { (left : List ℕ) (first : ℕ)
        → (slice_index_or (guests_of slots.old.items) dom no_guest).begun ≡ first ∷ left
        → guests_of slots.new.items ≡ slice_set (slice_set (guests_of slots.old.items) dom
        (record (slice_index_or (guests_of slots.old.items) dom no_guest) { begun = left })) child
        (record no_guest { grants = sharing.grants; handles = sharing.handles }) }
    ensures rooms { rooms_of slots.new.items
        ≡ slice_set (rooms_of slots.old.items) child sharing.room }
    ensures room { All HasRoom slots.new.items }
{
    take_first(slots, dom.get() as usize);
    clear(slots, child.get() as usize, sharing);
}

// What a child of a domain is born as, which was born so.
fn born(life: Option<Life>, parent: DomId) -> Option<Life>
    ensures { result ≡ option_map (λ (l : Life). record l { parent = parent }) life }
{
    match life {
        Some(life) => Some(Life { parent, ..life }),
        None => None,
    }
}

/// Ends a domain: nothing is kept of its id, and none of its pages is exposed.
pub fn end<E: ExposedPages>(r: &mut Registry, pages: &mut E, dom: DomId) -> Reply
    requires fits { E.fits pages.old }
    ensures row { end_domain (shared_of r.old (E.pages pages.old)) dom
        ≡ shared_of r.new (E.pages pages.new) }
    ensures reply { result ≡ Reply.Ended }
    ensures fits { E.fits pages.new }
    ensures left { E.left pages.old pages.new dom }
{
    let at = dom.get() as usize;
    clear(&mut r.slots, at, Sharing::none());
    set_life(&mut r.lives, &mut r.live, &mut r.ids, at, None);
    pages.end(dom);
    Reply::Ended
}

/// Does the second stage of the oldest clone that waits for it.
pub fn join(r: &mut Registry) -> Reply
    ensures { (pages : List Exposed)
        → shared_join (shared_of r.old pages) r.old.tables.waiting
        ≡ locked (shared_of r.new pages) result }
{
    match r.waiting.pop_front() {
        Some(w) => Reply::Child(w.child),
        None => Reply::Done,
    }
}

// Lets this be who is live with an id, counts, and marks the live ids.
fn set_life(
    lives: &mut Vec<Option<Life>>,
    live: &mut usize,
    ids: &mut u64,
    at: usize,
    life: Option<Life>,
)
    requires there { at < length lives.old.items }
    requires few { length lives.old.items ≤ 64 }
    requires count { live.old ≡ live_count lives.old.items }
    requires ids { AreLiveIds ids.old lives.old.items }
    ensures lives { lives.new.items ≡ slice_set lives.old.items at life }
    ensures count { live.new ≡ live_count lives.new.items }
    ensures ids { AreLiveIds ids.new lives.new.items }
{
    if lives[at].is_some() {
        *live -= 1;
    }
    if life.is_some() {
        *live += 1;
    }
    *ids = with_id(*ids, at, life.is_some());
    lives[at] = life;
}
