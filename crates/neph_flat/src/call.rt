// What a call of the hypervisor is lent by a domain's own half, and leaves of it.
ghost use Rattle.std.specs.Prelude.{◌≡◌, ◌<◌, ◌≤◌, length, None};
ghost use Rattle.neph_model.specs.Lent.{lent, own_behind, own_given, own_replied};
ghost use Rattle.neph_model.specs.Machine.{no_own};
ghost use Rattle.neph_rows.specs.Row.{lent_of};
ghost use Rattle.neph_flat.specs.Sound.{IsMapped};

use neph_base::{Command, List, Reply};
use neph_model::{Own, Pages, VMap};
use neph_rows::Lent;
use std::alloc::Global;

/// What a domain's own half lends to a command under the lock.
pub fn lent(o: &Own, command: &Command) -> Lent
    requires { length o.now.leaves ≤ 65535 }
    ensures lent { lent_of result ≡ lent o.now command.now }
    ensures few { result.leaves ≤ 65535 }
{
    match command {
        Command::W { addr, .. } | Command::R { addr, .. } => Lent {
            met: o.vmap.get(addr.vpn().get()).copied(),
            leaves: 0,
        },
        Command::Clone => Lent {
            met: None,
            leaves: o.leaves.items().len() as u32,
        },
        _ => Lent {
            met: None,
            leaves: 0,
        },
    }
}

/// Goes on behind a command that was answered so under the lock and gave no page back.
pub fn go_on(alloc: Global, o: &mut Own, command: &Command, reply: &Reply)
    requires room { o.old.line < 65535 }
    requires mapped { IsMapped o.old }
    requires alone { length o.old.alone ≡ length o.old.pages }
    ensures { o.new ≡ own_behind o.old command.now reply.now None }
{
    if matches!(command, Command::Exit) {
        *o = no_own(alloc);
        return;
    }
    give(o, command, reply);
    settle(o, reply);
}

/// Goes on to the next line with the mark of a reply. A clone that begins stays at its line.
pub fn settle(o: &mut Own, reply: &Reply)
    requires { o.old.line < 65535 }
    ensures { o.new ≡ own_replied o.old reply.now }
{
    match reply {
        Reply::Begun(_) => o.refused = false,
        Reply::Refused(_) => {
            o.line += 1;
            o.refused = true;
        }
        _ => {
            o.line += 1;
            o.refused = false;
        }
    }
}

// A page that the hypervisor wrote, exposed as it is, is no longer shared.
fn give(o: &mut Own, command: &Command, reply: &Reply)
    requires mapped { IsMapped o.old }
    requires alone { length o.old.alone ≡ length o.old.pages }
    ensures given { o.new ≡ own_given o.old command.now reply.now }
    ensures line { o.new.line ≡ o.old.line }
{
    if let (Command::W { addr, .. }, Reply::Done) = (command, reply) {
        if let Some(to) = o.vmap.get(addr.vpn().get()) {
            let page = to.pfn.get() as usize;
            o.alone.set(page, true);
        }
    }
}

// The own half of an id that has no domain.
pub fn no_own(alloc: Global) -> Own
    ensures { result ≡ no_own }
{
    Own {
        line: 0,
        came: false,
        refused: false,
        pages: Pages::of(Vec::new(alloc)),
        vmap: VMap::new(alloc),
        leaves: List::of(Vec::new(alloc)),
        alone: List::of(Vec::new(alloc)),
    }
}
