// What a command does to an exposed page of its domain.
ghost use Rattle.std.specs.Prelude.{◌≡◌, ◌<◌, ◌+◌, ◌≤◌, length, take, drop, true, Some};
ghost use Rattle.neph_model.specs.Step.{call_effect, locked};
ghost use Rattle.neph_model.specs.Trap.{is_exposed, exposed_bytes, w_call, r_call};
ghost use Rattle.neph_rows.specs.Records.{Records, shared_of};

use crate::exposed_pages::ExposedPages;
use neph_base::{DomId, Mode, Pfn, Piece, Refusal, Reply};
use neph_model::Mapping;

/// Writes bytes to an exposed page that an address of a domain maps to.
pub fn w_call<E: ExposedPages>(
    pages: &mut E,
    dom: DomId,
    at: usize,
    bytes: &[u8],
    met: Option<Mapping>,
) -> Reply
    requires fits { E.fits pages.old }
    requires inside { at + length bytes.now ≤ 4096 }
    ensures row { (r : Records)
        → call_effect (shared_of r (E.pages pages.old))
        (w_call (shared_of r (E.pages pages.old)) dom at bytes.now met)
        ≡ locked (shared_of r (E.pages pages.new)) result }
    ensures fits { E.fits pages.new }
    ensures stays { E.stays pages.old pages.new }
{
    let Some(to) = met else {
        return Reply::Refused(Refusal::NoFrame);
    };
    if !pages.has(dom, to.pfn) {
        return Reply::Refused(Refusal::NoFrame);
    }
    match to.mode {
        Mode::Ro => Reply::Refused(Refusal::ReadOnly),
        Mode::Rw => {
            pages.write(dom, to.pfn, at, bytes);
            Reply::Done
        }
    }
}

/// Reads bytes of an exposed page that an address of a domain maps to.
pub fn r_call<E: ExposedPages>(pages: &mut E, dom: DomId, at: usize, len: u8, to: Mapping) -> Reply
    requires fits { E.fits pages.old }
    requires there { is_exposed (E.pages pages.old) dom to.pfn ≡ true }
    requires some { 0 < len }
    requires few { len ≤ 64 }
    requires inside { at + len ≤ 4096 }
    ensures row { (r : Records)
        → call_effect (shared_of r (E.pages pages.old))
        (r_call (shared_of r (E.pages pages.old)) dom at len (Some to))
        ≡ locked (shared_of r (E.pages pages.new)) result }
    ensures fits { E.fits pages.new }
    ensures stays { E.stays pages.old pages.new }
{
    Reply::Bytes(read(pages, dom, to.pfn, at, len))
}

/// Bytes of an exposed page of a domain, from this offset on.
pub fn read<E: ExposedPages>(pages: &mut E, id: DomId, pfn: Pfn, at: usize, len: u8) -> Piece
    requires fits { E.fits pages.old }
    requires there { is_exposed (E.pages pages.old) id pfn ≡ true }
    requires some { 0 < len }
    requires few { len ≤ 64 }
    requires inside { at + len ≤ 4096 }
    ensures bytes { result ≡ take len (drop at (exposed_bytes (E.pages pages.old) id pfn)) }
    ensures same { E.pages pages.new ≡ E.pages pages.old }
    ensures fits { E.fits pages.new }
    ensures stays { E.stays pages.old pages.new }
{
    let mut buffer = [0u8; 64];
    let into = &mut buffer[..len as usize];
    pages.read(id, pfn, at, into);
    Piece::new(into).unwrap()
}
