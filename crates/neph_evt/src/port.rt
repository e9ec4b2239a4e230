// What an event port is.
ghost use Rattle.std.specs.Prelude.{◌≡◌};

use neph_base::DomId;

/// What an open port is, the other end of its channel.
#[derive(Clone, Copy, Debug, PartialEq, Eq)]
pub enum Channel {
    /// It waits until this domain binds it (Xen's `EVTCHNSTAT_unbound`).
    Unbound(DomId),
    /// It is bound to this domain's port of that number (Xen's `EVTCHNSTAT_interdomain`). The
    /// numbers of Dom0's ports go up to 255, those of all other domains to 63.
    Inter(DomId, u8),
    /// A wildcard, to which each child that its domain makes has a port bound.
    Wild,
}

/// An open port.
#[derive(Clone, Copy, Debug, PartialEq, Eq)]
pub struct EventPort {
    pub channel: Channel,
    /// Whether an event waits there.
    pub pending: bool,
}

impl EventPort {
    ghost use Rattle.neph_evt.specs.PortMap.{is_bound_to};
    ghost use Rattle.neph_evt.specs.Asking.{state_of};

    // Whether it is bound to this domain's port of this number.
    pub fn is_bound_to(&self, dom: DomId, number: u8) -> bool
        ensures { result ≡ is_bound_to dom number self.now }
    {
        match self.channel {
            Channel::Inter(d, n) => d.get() == dom.get() && n == number,
            Channel::Unbound(_) | Channel::Wild => false,
        }
    }

    // What it is.
    pub fn state(&self) -> PortState
        ensures { result ≡ state_of self.now.channel }
    {
        match self.channel {
            Channel::Unbound(who) => PortState::Unbound(who),
            Channel::Inter(dom, number) => PortState::Inter(dom, number),
            Channel::Wild => PortState::Wild,
        }
    }
}

/// What a port is, as a domain may ask (Xen's `EVTCHNOP_status`).
#[derive(Clone, Copy, Debug, PartialEq, Eq)]
pub enum PortState {
    /// Nobody uses it (Xen's `EVTCHNSTAT_closed`).
    Closed,
    /// It waits until this domain binds it (Xen's `EVTCHNSTAT_unbound`).
    Unbound(DomId),
    /// It is bound to this domain's port of that number (Xen's `EVTCHNSTAT_interdomain`).
    Inter(DomId, u8),
    /// A wildcard, to which each child that its domain makes has a port bound.
    Wild,
}

/// Why a port wasn't bound.
#[derive(Clone, Copy, Debug, PartialEq, Eq)]
pub enum BindRefused {
    /// The port isn't unbound.
    NoPort,
    /// It is unbound for another domain.
    NotYours,
    /// Each of the own ports is open.
    Full,
}
