// The turns of the daemon and of the backends.
ghost use Rattle.std.specs.Prelude.{◌≡◌, List};
ghost use Rattle.neph_model.specs.Books.{State};
ghost use Rattle.neph_model.specs.Machine.{is_over};
ghost use Rattle.neph_model.specs.Turns.{turn};
ghost use Rattle.neph_pool.specs.World.{World};
ghost use Rattle.neph_rows.specs.Live.{IsNextLive};
ghost use Rattle.neph_machine.specs.Reached.{state_after};
ghost use Rattle.neph_machine.specs.StandsFor.{StandsFor};
ghost use Rattle.neph_machine.specs.Turned.{Took};

use crate::machine::Machine;
use crate::turn::Turn;
use neph_base::{Actor, DomId, Entry, Noted};
use neph_pool::FramePool;

impl<P: FramePool> Machine<P> {
    /// The turn of the daemon: the second stage of the oldest committed clone, where one waits.
    /// Takes no memory.
    pub fn daemon_turn(&mut self) -> Turn
        ensures { (before : List Actor)
            → StandsFor P.world self.old (state_after self.old.script before)
            → Took P.world self.old self.new
            (turn self.old.script (state_after self.old.script before) Actor.Daemon) result }
    {
        if !self.hv.registry.has_waiting() {
            return Turn::Rested;
        }
        let reply = self.hv.finish();
        Turn::Noted(Noted {
            entry: Entry::Daemon,
            reply,
        })
    }

    /// Whether no domain is live.
    pub fn is_over(&self) -> bool
        ensures { (st : State) → StandsFor P.world self.now st → result ≡ is_over st.machine }
    {
        self.hv.registry.live_count() == 0
    }

    /// The first id from a number on whose domain is live.
    pub fn next_live(&self, from: u32) -> Option<DomId>
        ensures { (st : State) → StandsFor P.world self.now st
            → IsNextLive st.machine.shared.lives from result }
    {
        self.hv.registry.next_live(from)
    }
}
