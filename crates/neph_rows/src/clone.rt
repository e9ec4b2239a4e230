// The row of `clone`.
ghost use Rattle.std.specs.Prelude.{◌≡◌, ◌<◌, ◌≤◌, ◌+◌, ℕ, List, IfNone, None};
ghost use Rattle.neph_model.specs.Lent.{Lent};
ghost use Rattle.neph_model.specs.Machine.{Exposed, exposed_at, guest_at, life_at};
ghost use Rattle.neph_model.specs.Step.{call_effect, locked, shared_line};
ghost use Rattle.neph_model.specs.Trap.{need, begin_clone, clone_call};
ghost use Rattle.neph_rows.specs.Records.{shared_of};
ghost use Rattle.neph_rows.specs.Row.{refusal_of};
ghost use Rattle.neph_rows.specs.Sound.{MayBegin};

use crate::exposed_pages::ExposedPages;
use crate::registry::Registry;
use crate::slots::count_clone;
use neph_base::{Command, DomId, IDS, Refusal, Reply};
use neph_model::Told;

/// The frames that a clone of a domain with so many leaf tables needs: for its root table, its leaf
/// tables, its identity page and its exposed pages.
pub fn need<E: ExposedPages>(pages: &E, dom: DomId, leaves: u32) -> u32
    requires fits { E.fits pages.now }
    requires few { leaves ≤ 65535 }
    ensures value { result ≡ need (exposed_at dom (E.pages pages.now)) leaves }
    ensures few { result ≤ leaves + 1026 }
{
    2 + leaves + pages.count(dom)
}

/// Begins a clone of a domain, whose child has the next id, or refuses it.
pub fn clone_call<E: ExposedPages>(
    r: &mut Registry,
    pages: &E,
    dom: DomId,
    leaves: u32,
    told: Told,
) -> Reply
    requires fits { E.fits pages.now }
    requires few { leaves ≤ 65535 }
    ensures { let sh = shared_of r.old (E.pages pages.now) in
        let g = guest_at dom r.old.tables in
        let n = need (exposed_at dom (E.pages pages.now)) leaves in
        let why = refusal_of r.old dom n told in
        call_effect sh (clone_call sh dom g why)
        ≡ locked (shared_of r.new (E.pages pages.now)) result }
{
    let need = need(pages, dom, leaves);
    if let Some(why) = clone_refusal(r, dom, need, told) {
        return Reply::Refused(why);
    }
    Reply::Begun(begin(r, dom))
}

/// Why a clone of a domain that needs so many frames is refused, if it is: the domain has begun as
/// many as its limit, every id was given, or too few frames are free.
pub fn clone_refusal(r: &Registry, dom: DomId, need: u32, told: Told) -> Option<Refusal>
    ensures why { result ≡ refusal_of r.now dom need told }
    ensures open { IfNone result (MayBegin r.now dom) }
{
    let Some(life) = r.lives[dom.get() as usize] else {
        return Some(Refusal::Limit);
    };
    if life.limit <= r.slots[dom.get() as usize].accepted {
        return Some(Refusal::Limit);
    }
    if r.next >= 64 {
        return Some(Refusal::Ids);
    }
    match told {
        Told::Free(free) if free < need => Some(Refusal::Frames { need, free }),
        _ => None,
    }
}

/// The id of the child of a clone that may begin.
pub fn next_child(r: &Registry, dom: DomId) -> DomId
    requires { MayBegin r.now dom }
    ensures next { result ≡ r.now.tables.next }
    ensures some { 0 < result }
    ensures range { result < IDS }
{
    let _number = dom.get();
    DomId::new(u32::from(r.next)).unwrap()
}

/// Begins a clone that may begin: the next id is drawn for the child, and the clone counts. This is
/// the row of `clone` wherever that isn't refused.
pub fn begin(r: &mut Registry, dom: DomId) -> DomId
    requires { MayBegin r.old dom }
    ensures row { (pages : List Exposed) (l : Lent) (told : Told)
        → refusal_of r.old dom (need (exposed_at dom pages) l.leaves) told ≡ None
        → shared_line (shared_of r.old pages) dom l told Command.Clone
        ≡ locked (shared_of r.new pages) (Reply.Begun result) }
    ensures child { result ≡ r.old.tables.next }
    ensures lives { r.new.lives ≡ r.old.lives }
    ensures tables { r.new.tables ≡ begin_clone r.old.tables dom (guest_at dom r.old.tables) }
{
    let child = DomId::new(u32::from(r.next)).unwrap();
    count_clone(&mut r.slots, dom.get() as usize, child);
    r.next += 1;
    child
}
