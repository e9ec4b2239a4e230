// The event ports of all domains.
ghost use Rattle.std.specs.Prelude.{◌≡◌, ◌≢◌, ◌⊎◌, ◌+◌, ◌<◌, true, false, IfOk, OnOk, OnErr, IfSome, IfNone};
ghost use Rattle.std.specs.FinMap as map;
ghost use Rattle.neph_evt.specs.PortMap.{PortMap};
ghost use Rattle.neph_evt.specs.Pairing.{IsPaired};
ghost use Rattle.neph_evt.specs.Asking.{state_at, is_pending, after_take};
ghost use Rattle.neph_evt.specs.Opening.{least_closed, after_alloc, bind_answer, after_bind, is_open, AllClosed};
ghost use Rattle.neph_evt.specs.Sending.{can_send, after_send, after_signal};
ghost use Rattle.neph_evt.specs.Closing.{after_close, after_end};
ghost use Rattle.neph_evt.specs.Cloning.{IsFresh, after_clone, with_child, after_start, with_links, after_bind_zero};

use crate::device::{CONSOLE, NETWORK, P9};
use crate::links;
use crate::port::{BindRefused, PortState};
use crate::table::PortTable;
use neph_base::{DomId, NoMemory, Port, Who};
use std::alloc::Global;
use std::marker::Model;

/// The event ports of all domains. Contracts see the finite map from a domain and a port number to
/// the open port there.
#[derive(Drop)]
pub struct Ports {
    table: PortTable,
}

impl Model for Ports {
    ghost use Rattle.std.specs.Coded.{coded_ℕ, coded×};
    ghost use Rattle.std.specs.FinMap as map;
    ghost use Rattle.neph_evt.specs.PortMap.{PortMap};
    ghost use Rattle.neph_evt.specs.Pairing.{IsPaired};
    ghost use Rattle.neph_evt.specs.contracts.port.EventPort as event_port;

    ghost Value = { PortMap };

    ghost coded = { map.code (coded× coded_ℕ coded_ℕ) event_port.the_row.coded };

    ghost view = { λ a. a.table };

    ghost invariant = { λ a. IsPaired a.table };
}

impl Ports {
    /// All ports closed.
    pub fn new(alloc: Global) -> Result<Ports, NoMemory>
        ensures { IfOk result (λ p. p ≡ map.empty) }
    {
        Ok(Ports {
            table: PortTable::new(alloc)?,
        })
    }

    /// What a port is.
    pub fn state(&self, d: DomId, port: Port) -> PortState
        ensures state { result ≡ state_at self.now d port }
        ensures paired { IsPaired self.now }
    {
        match self.table.get(d.get(), port.get() as u8) {
            Some(found) => found.state(),
            None => PortState::Closed,
        }
    }

    /// Whether an event waits at a port. None does at a closed one.
    pub fn pending(&self, d: DomId, port: Port) -> bool
        ensures { result ≡ is_pending self.now d port }
    {
        match self.table.get(d.get(), port.get() as u8) {
            Some(found) => found.pending,
            None => false,
        }
    }

    /// Takes the event that waits at a port, and tells whether one did.
    pub fn take(&mut self, d: DomId, port: Port) -> bool
        ensures pending { result ≡ is_pending self.old d port }
        ensures ports { self.new ≡ after_take self.old d port }
    {
        let waits = self.pending(d, port);
        links::clear(&mut self.table, d.get(), port.get() as u8);
        waits
    }

    /// Opens a domain's least closed port, unbound for another or as a wildcard for its children.
    /// `None` exactly where none is closed.
    pub fn alloc(&mut self, d: DomId, remote: Who) -> Option<Port>
        ensures port { result ≡ least_closed self.old d }
        ensures some { IfSome result (λ n. self.new ≡ after_alloc self.old d n remote) }
        ensures none { IfNone result (self.new ≡ self.old) }
    {
        let own = links::least_closed(&self.table, d)?;
        self.table
            .set(d.get(), own.get() as u8, Some(links::new_port(remote)));
        Some(own)
    }

    /// Binds a domain's least closed port and a port that is unbound for it to each other.
    pub fn bind(&mut self, d: DomId, dom: DomId, port: Port) -> Result<Port, BindRefused>
        ensures answer { result ≡ bind_answer self.old d dom port }
        ensures ok { IfOk result (λ own. self.new ≡ after_bind self.old d own dom port) }
        ensures err { OnErr result (self.new ≡ self.old) }
    {
        let number = port.get() as u8;
        let own = links::bind_answer(&self.table, d, dom, number)?;
        links::bind(&mut self.table, d, own.get() as u8, dom, number);
        Ok(own)
    }

    /// Sends an event from a port to its other end, or from a wildcard to each port that is bound
    /// to it. False exactly where it is neither.
    pub fn send(&mut self, d: DomId, port: Port) -> bool
        ensures sent { result ≡ can_send self.old d port }
        ensures ports { self.new ≡ after_send self.old d port }
    {
        match self.table.get(d.get(), port.get() as u8) {
            Some(found) => links::send(&mut self.table, found.channel, d, port.get() as u8),
            None => false,
        }
    }

    /// Closes a port. False exactly where it is closed, and then nothing changes.
    pub fn close(&mut self, d: DomId, port: Port) -> bool
        ensures answer { result ≡ is_open self.old d port }
        ensures ports { self.new ≡ after_close self.old d port }
        ensures closed { result ≡ false → self.new ≡ self.old }
    {
        let number = port.get() as u8;
        let was_open = self.table.get(d.get(), number).is_some();
        if was_open {
            links::close(&mut self.table, d, number);
        }
        was_open
    }

    /// Gives a child its copies of its parent's ports, at the commit of a clone.
    pub fn clone_ports(&mut self, parent: DomId, child: DomId)
        requires { parent ≢ child }
        ensures ports { self.new ≡ after_clone self.old parent child }
        ensures fresh { AllClosed self.old child → self.new ≡ with_child parent child self.old }
    {
        self.table.end(child);
        links::copy(&mut self.table, parent, child);
    }

    /// Binds a child's ports to Dom0 as its parent's are, at the second stage of a clone.
    pub fn bind_zero(&mut self, parent: DomId, child: DomId)
        ensures { self.new ≡ after_bind_zero self.old parent child }
    {
        links::bind_device(&mut self.table, parent, child, CONSOLE);
        links::bind_device(&mut self.table, parent, child, NETWORK);
        links::bind_device(&mut self.table, parent, child, P9);
    }

    /// Closes all ports of a domain that ends.
    pub fn end(&mut self, d: DomId)
        ensures { self.new ≡ after_end self.old d }
    {
        self.table.end(d);
    }

    /// Opens a starting domain's ports for its devices, and Dom0's ends of them. What stood there,
    /// if anything did, is closed first.
    pub fn start(&mut self, d: DomId)
        requires { d ≢ 0 }
        ensures ports { self.new ≡ after_start self.old d }
        ensures fresh { IsFresh self.old d → self.new ≡ with_links d self.old }
    {
        links::connect(&mut self.table, d, CONSOLE);
        links::connect(&mut self.table, d, NETWORK);
        links::connect(&mut self.table, d, P9);
    }

    /// Sends an event to a domain's port for its network page (2) or its 9P page (3), if it is
    /// bound to Dom0's port for that device.
    pub fn signal(&mut self, d: DomId, port: Port)
        requires guest { d ≢ 0 }
        requires device { (port ≡ 2) ⊎ (port ≡ 3) }
        ensures { self.new ≡ after_signal self.old d port }
    {
        let kind = port.get() as u8;
        links::signal(&mut self.table, d, kind);
    }
}
