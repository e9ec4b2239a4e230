// A line of a domain under the lock.
ghost use Rattle.std.specs.Prelude.{◌≡◌, ◌≢◌, ◌≤◌, true};
ghost use Rattle.neph_model.specs.Machine.{is_live};
ghost use Rattle.neph_model.specs.Step.{locked, shared_line};
ghost use Rattle.neph_model.specs.Trap.{free_told};
ghost use Rattle.neph_model.specs.WellFormed.{FitsPage};
ghost use Rattle.neph_rows.specs.Records.{shared_of, without_shares};
ghost use Rattle.neph_rows.specs.Row.{lent_of, MayBeAsked};

use crate::births::end;
use crate::clone::clone_call;
use crate::exposed_pages::ExposedPages;
use crate::handles::{gmap, gunmap, hr, hw};
use crate::lent::Lent;
use crate::memory::{r_call, w_call};
use crate::registry::Registry;
use neph_base::{Command, DomId, Refusal, Reply};
use neph_model::Told;

/// Does a line of a live domain under the lock: its end, or a call of the hypervisor.
pub fn line<E: ExposedPages>(
    r: &mut Registry,
    pages: &mut E,
    dom: DomId,
    lent: Lent,
    told: Told,
    command: &Command,
) -> Reply
    requires fits { E.fits pages.old }
    requires command { FitsPage command.now }
    requires asked { MayBeAsked (E.pages pages.old) dom lent.met command.now }
    requires few { lent.leaves ≤ 65535 }
    requires live { is_live dom r.old.lives ≡ true }
    ensures row { shared_line (shared_of r.old (E.pages pages.old)) dom
        (lent_of lent) told command.now
        ≡ locked (shared_of r.new (E.pages pages.new)) result }
    ensures fits { E.fits pages.new }
    ensures stays { command.now ≢ Command.Exit → E.stays pages.old pages.new }
    ensures left { command.now ≡ Command.Exit → E.left pages.old pages.new dom }
    ensures same { command.now ≢ Command.Clone → command.now ≢ Command.Exit → without_shares r.new ≡ without_shares r.old }
{
    match command {
        Command::W { addr, bytes } => w_call(pages, dom, addr.offset(), bytes.bytes(), lent.met),
        Command::R { addr, len } => r_call(pages, dom, addr.offset(), *len, lent.met.unwrap()),
        Command::Free => Reply::Number(free_told(told)),
        Command::Clone => clone_call(r, pages, dom, lent.leaves, told),
        Command::Exit => end(r, pages, dom),
        Command::Ungrant { .. } => unreachable!(),
        Command::Gmap { granter, reference } => gmap(r, dom, *granter, *reference),
        Command::Gunmap { handle } => gunmap(r, dom, *handle),
        Command::Hr {
            handle,
            offset,
            len,
        } => hr(r, pages, dom, *handle, *offset, *len),
        Command::Hw {
            handle,
            offset,
            bytes,
        } => hw(r, pages, dom, *handle, *offset, bytes.bytes()),
        Command::Map { .. }
        | Command::Unmap { .. }
        | Command::Jump { .. }
        | Command::JChild { .. }
        | Command::JFail { .. } => Reply::Refused(Refusal::NoFrame),
    }
}

// The number that `free` is told.
fn free_told(told: Told) -> u32
    ensures { result ≡ free_told told }
{
    match told {
        Told::Free(free) => free,
        Told::Enough | Told::Short => 0,
    }
}
