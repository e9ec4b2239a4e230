// A place for each port of each domain.
ghost use Rattle.std.specs.Prelude.{◌≡◌, ◌<◌, IfOk, option_map};
ghost use Rattle.std.specs.FinMap as map;
ghost use Rattle.neph_evt.specs.PortMap.{with_slot, IsWithin};
ghost use Rattle.neph_evt.specs.Places.{port_in, place_for};
ghost use Rattle.neph_evt.specs.Closing.{port_after_end, after_end};

use crate::port::{Channel, EventPort};
use crate::sizes::{NUMBERS, PLACES};
use neph_base::{DomId, IDS, NoMemory};
use std::alloc::Global;
use std::marker::Model;

/// The place of a port. What a closed one says of events has no meaning.
#[derive(Clone, Copy, Debug, PartialEq, Eq)]
pub struct Place {
    channel: Option<Channel>,
    pending: bool,
}

impl Place {
    // The open port there, if there is one.
    fn port(&self) -> Option<EventPort>
        ensures { result ≡ port_in self.now }
    {
        match self.channel {
            Some(channel) => Some(EventPort {
                channel,
                pending: self.pending,
            }),
            None => None,
        }
    }

    // The place of this port.
    fn of(port: Option<EventPort>) -> Place
        ensures { result ≡ place_for port }
    {
        match port {
            Some(port) => Place {
                channel: Some(port.channel),
                pending: port.pending,
            },
            None => Place {
                channel: None,
                pending: false,
            },
        }
    }

    // The place after a domain's end, where it is another's.
    fn without_domain(&self, dom: DomId) -> Place
        ensures { port_in result ≡ option_map (port_after_end dom) (port_in self.now) }
    {
        let channel = match self.channel {
            Some(Channel::Inter(d, _number)) if d.get() == dom.get() => Some(Channel::Unbound(dom)),
            other => other,
        };
        Place {
            channel,
            pending: self.pending,
        }
    }
}

/// The finite map from domains and port numbers to open ports, in fixed room.
#[derive(Drop)]
pub struct PortTable {
    places: Vec<Place>,
}

impl Model for PortTable {
    ghost use Rattle.std.specs.Prelude.{◌≡◌, vec_len, ℕ};
    ghost use Rattle.std.specs.Coded.{coded_ℕ, coded×};
    ghost use Rattle.std.specs.FinMap as map;
    ghost use Rattle.neph_evt.specs.PortMap.{PortMap};
    ghost use Rattle.neph_evt.specs.Places.{map_of};
    ghost use Rattle.neph_evt.specs.declared.sizes.TheConstants.{PLACES};
    ghost use Rattle.neph_evt.specs.contracts.port.EventPort as event_port;

    ghost Value = { PortMap };

    ghost coded = { map.code (coded× coded_ℕ coded_ℕ) event_port.the_row.coded };

    ghost view = { λ a. map_of a.places.items };

    ghost invariant = { λ a. vec_len a.places ≡ PLACES };
}

impl PortTable {
    /// All ports closed.
    pub fn new(alloc: Global) -> Result<PortTable, NoMemory>
        ensures { IfOk result (λ t. t ≡ map.empty) }
    {
        let mut places = Vec::with_capacity(alloc, PLACES)?;
        for _place in 0..PLACES {
            places.push(Place {
                channel: None,
                pending: false,
            })?;
        }
        Ok(PortTable { places })
    }

    /// The open port of a domain at a number, `None` exactly where it is closed.
    pub fn get(&self, dom: u32, number: u8) -> Option<EventPort>
        requires { dom < IDS }
        ensures port { result ≡ map.get self.now (dom, number) }
        ensures within { IsWithin self.now }
    {
        self.places[dom as usize * NUMBERS + number as usize].port()
    }

    /// Opens a port of a domain, or closes it.
    pub fn set(&mut self, dom: u32, number: u8, to: Option<EventPort>)
        requires { dom < IDS }
        ensures { self.new ≡ with_slot self.old dom number to }
    {
        self.places[dom as usize * NUMBERS + number as usize] = Place::of(to);
    }

    /// Closes all ports of a domain, and leaves each that was bound to one of them unbound for it.
    pub fn end(&mut self, dom: DomId)
        ensures ports { self.new ≡ after_end self.old dom }
        ensures within { IsWithin self.new }
    {
        for at in 0..PLACES {
            if at / NUMBERS == dom.get() as usize {
                self.places[at] = Place {
                    channel: None,
                    pending: false,
                };
            } else {
                self.places[at] = self.places[at].without_domain(dom);
            }
        }
    }
}
