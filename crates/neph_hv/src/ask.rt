// The commands of a domain under the lock, but its clone and its exit.
ghost use Rattle.std.specs.Prelude.{◌≡◌, ◌≢◌, ◌≤◌, length};
ghost use Rattle.neph_model.specs.declared.own.Own.{Own};
ghost use Rattle.neph_model.specs.Lent.{lent};
ghost use Rattle.neph_model.specs.WellFormed.{FitsPage};
ghost use Rattle.neph_pool.specs.World.{World, SameCounts};
ghost use Rattle.neph_memory.specs.Domains.{IsStanding, IsUnchanged, KeepsSeats};
ghost use Rattle.neph_memory.specs.OwnHalf.{IsMemoryOf};
ghost use Rattle.neph_hyper.specs.Guests.{MayTrap};
ghost use Rattle.neph_hv.specs.Serving.{IsServed, IsReadMet, told_in};
ghost use Rattle.neph_hv.specs.Calls.{HasDone};

use crate::hv::Hv;
use neph_base::{Command, Reply};
use neph_memory::DomLocal;
use neph_model::{Mapping, Told};
use neph_pool::FramePool;
use neph_rows::Lent;

impl<P: FramePool> Hv<P> {
    /// Does a command of a domain that it can't do by itself, but `clone` and `exit`. What it lends
    /// is read off its memory. Takes no memory.
    pub fn ask(&mut self, pool: &mut P, d: &mut DomLocal<P>, command: &Command) -> Reply
        requires serves { IsServed P.world pool.old self.old d.old }
        requires stands { IsStanding P.world pool.old d.old }
        requires fits { FitsPage command.now }
        requires asks { MayTrap P.world pool.old d.old command.now }
        requires no_clone { command.now ≢ Command.Clone }
        ensures stands { IsStanding P.world pool.new d.new }
        ensures same { IsUnchanged P.world pool.old d.old pool.new d.new }
        ensures done { HasDone P.world pool.old self.old pool.new self.new d.old d.new
            command.now result }
    {
        let met = met_by(pool, d, command);
        let told = self.told_to(command);
        let lent = Lent { met, leaves: 0 };
        self.call(pool, d.id, lent, told, command)
    }

    // What a command is told of the free frames.
    fn told_to(&self, command: &Command) -> Told
        requires { length self.now.heap.stock.free ≤ 16384 }
        ensures { result ≡ told_in (length self.now.heap.stock.free) command.now }
    {
        match command {
            Command::Free | Command::Clone => Told::Free(self.heap.free_len() as u32),
            _ => Told::Enough,
        }
    }
}

// What the address of a command maps to, where it has one. Nothing changes.
fn met_by<P: FramePool>(pool: &mut P, d: &mut DomLocal<P>, command: &Command) -> Option<Mapping>
    requires stands { IsStanding P.world pool.old d.old }
    ensures met { (o : Own) → IsMemoryOf P.world pool.old d.old o.pages o.vmap o.leaves
        → (lent o command.now).met ≡ result }
    ensures read { IsReadMet P.world pool.old d.old command.now result }
    ensures stands { IsStanding P.world pool.new d.new }
    ensures same { IsUnchanged P.world pool.old d.old pool.new d.new }
    ensures moves { KeepsSeats P.world pool.old d.old pool.new d.new }
    ensures counts { SameCounts P.world pool.old pool.new }
{
    match command {
        Command::W { addr, .. } => d.meets(pool, addr.vpn()),
        Command::R { addr, .. } => d.meets(pool, addr.vpn()),
        _ => None,
    }
}
