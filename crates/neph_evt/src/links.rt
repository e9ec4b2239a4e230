// How ports are bound to each other, and parted.
ghost use Rattle.std.specs.Prelude.{◌≡◌, ◌≢◌, ◌<◌, ◌≤◌};
ghost use Rattle.std.specs.FinMap as map;
ghost use Rattle.neph_evt.specs.PortMap.{IsWithin, PortMap, with_port, with_each_port, bound_port};
ghost use Rattle.neph_evt.specs.Pairing.{IsPaired, channel_at};
ghost use Rattle.neph_evt.specs.Closing.{port_after_close, after_close};
ghost use Rattle.neph_evt.specs.Sending.{port_after_send, with_event, is_sender, after_send_on, port_after_signal, after_signal};
ghost use Rattle.neph_evt.specs.Asking.{without_event};
ghost use Rattle.neph_evt.specs.Opening.{least_closed, new_port, bind_answer, answer_at, after_bind, port_bound_to, AllClosed};
ghost use Rattle.neph_evt.specs.Cloning.{with_pair, with_device, port_of_child, with_child, device_of_child, with_device_of};

use crate::device::{P9, dom_zero, zero_port};
use crate::port::{BindRefused, Channel, EventPort};
use crate::sizes::{NUMBERS, PORTS};
use crate::table::PortTable;
use neph_base::{DomId, IDS, Port, Who};

// A port that is bound to this one, with no event pending.
fn bound_port(dom: DomId, number: u8) -> EventPort
    ensures { result ≡ bound_port dom number }
{
    EventPort {
        channel: Channel::Inter(dom, number),
        pending: false,
    }
}

// A port after the port `number` of `dom` was closed.
fn port_after_close(port: EventPort, dom: DomId, number: u8) -> EventPort
    ensures { result ≡ port_after_close dom number port }
{
    if port.is_bound_to(dom, number) {
        EventPort {
            channel: Channel::Unbound(dom),
            pending: port.pending,
        }
    } else {
        port
    }
}

// A port of the domain `at` after an event was sent on the wildcard `number` of `dom`.
fn port_after_send(port: EventPort, at: u32, dom: DomId, number: u8) -> EventPort
    ensures { result ≡ port_after_send dom number at port }
{
    if at != 0 && port.is_bound_to(dom, number) {
        EventPort {
            channel: port.channel,
            pending: true,
        }
    } else {
        port
    }
}

// Leaves a port unbound, if it was bound to the port `number` of `dom`, which was closed.
fn leave(table: &mut PortTable, at: u32, port: u8, dom: DomId, number: u8)
    requires { at < IDS }
    ensures { table.new ≡ with_port table.old at port (port_after_close dom number) }
{
    let left = match table.get(at, port) {
        Some(there) => Some(port_after_close(there, dom, number)),
        None => None,
    };
    table.set(at, port, left);
}

// Sends an event to a port, if it is bound to the wildcard `number` of `dom`.
fn notify(table: &mut PortTable, at: u32, port: u8, dom: DomId, number: u8)
    requires { at < IDS }
    ensures { table.new ≡ with_port table.old at port (port_after_send dom number at) }
{
    let after = match table.get(at, port) {
        Some(there) => Some(port_after_send(there, at, dom, number)),
        None => None,
    };
    table.set(at, port, after);
}

/// Sends an event to a port, if it is open.
pub fn raise(table: &mut PortTable, at: u32, port: u8)
    requires { at < IDS }
    ensures { table.new ≡ with_port table.old at port with_event }
{
    let after = match table.get(at, port) {
        Some(there) => Some(EventPort {
            channel: there.channel,
            pending: true,
        }),
        None => None,
    };
    table.set(at, port, after);
}

/// Sends an event to each port that is bound to a wildcard. They have its number.
pub fn raise_bound(table: &mut PortTable, dom: DomId, number: u8)
    requires within { IsWithin table.old }
    requires paired { IsPaired table.old }
    requires wild { channel_at table.old dom number ≡ Some Channel.Wild }
    ensures { table.new ≡ with_each_port (port_after_send dom number) table.old }
{
    for at in 1..IDS as u32 {
        notify(table, at, number, dom, number);
    }
}

// Leaves each port unbound that is bound to a wildcard. They have its number.
fn leave_bound(table: &mut PortTable, dom: DomId, number: u8)
    requires within { IsWithin table.old }
    requires paired { IsPaired table.old }
    requires wild { channel_at table.old dom number ≡ Some Channel.Wild }
    ensures { table.new ≡ with_each_port (λ at. port_after_close dom number) table.old }
{
    for at in 0..IDS as u32 {
        leave(table, at, number, dom, number);
    }
}

// Leaves each port unbound that is bound to the port `number` of `dom`.
fn part(table: &mut PortTable, channel: Channel, dom: DomId, number: u8)
    requires within { IsWithin table.old }
    requires paired { IsPaired table.old }
    requires channel { channel_at table.old dom number ≡ Some channel }
    ensures { table.new ≡ with_each_port (λ at. port_after_close dom number) table.old }
{
    match channel {
        Channel::Unbound(_) => {}
        Channel::Inter(other, n) => leave(table, other.get(), n, dom, number),
        Channel::Wild => leave_bound(table, dom, number),
    }
}

/// Closes a port. What was bound to it is unbound for its domain.
pub fn close(table: &mut PortTable, dom: DomId, number: u8)
    requires { IsPaired table.old }
    ensures { table.new ≡ after_close table.old dom number }
{
    if let Some(port) = table.get(dom.get(), number) {
        part(table, port.channel, dom, number);
        table.set(dom.get(), number, None);
    }
}

/// Binds two ports to each other. What stood there is closed first.
pub fn join(table: &mut PortTable, a: DomId, p: u8, b: DomId, q: u8)
    requires { IsPaired table.old }
    ensures ports { table.new ≡ with_pair table.old a p b q }
    ensures paired { IsPaired table.new }
{
    close(table, a, p);
    close(table, b, q);
    table.set(a.get(), p, Some(bound_port(b, q)));
    table.set(b.get(), q, Some(bound_port(a, p)));
}

/// Takes the event that waits at a port, if one does.
pub fn clear(table: &mut PortTable, at: u32, port: u8)
    requires { at < IDS }
    ensures { table.new ≡ with_port table.old at port without_event }
{
    let after = match table.get(at, port) {
        Some(there) => Some(EventPort {
            channel: there.channel,
            pending: false,
        }),
        None => None,
    };
    table.set(at, port, after);
}

/// Sends an event from a port, and tells whether it can send.
pub fn send(table: &mut PortTable, channel: Channel, dom: DomId, number: u8) -> bool
    requires within { IsWithin table.old }
    requires paired { IsPaired table.old }
    requires channel { channel_at table.old dom number ≡ Some channel }
    ensures sent { result ≡ is_sender (Some channel) }
    ensures ports { table.new ≡ after_send_on table.old dom number (Some channel) }
{
    match channel {
        Channel::Unbound(_) => false,
        Channel::Inter(other, n) => {
            if other.get() != 0 {
                raise(table, other.get(), n);
            }
            true
        }
        Channel::Wild => {
            raise_bound(table, dom, number);
            true
        }
    }
}

/// The least closed port of a domain.
pub fn least_closed(table: &PortTable, dom: DomId) -> Option<Port>
    ensures { result ≡ least_closed table.now dom }
{
    for number in 1..PORTS {
        if table.get(dom.get(), number).is_none() {
            return Port::new(u32::from(number));
        }
    }
    None
}

/// A new port.
pub fn new_port(remote: Who) -> EventPort
    ensures { result ≡ new_port remote }
{
    let channel = match remote {
        Who::Dom(who) => Channel::Unbound(who),
        Who::Child => Channel::Wild,
    };
    EventPort {
        channel,
        pending: false,
    }
}

// What binding to an open port is answered.
fn answer_at(table: &PortTable, me: DomId, channel: Channel) -> Result<Port, BindRefused>
    ensures { result ≡ answer_at table.now me (Some channel) }
{
    match channel {
        Channel::Unbound(who) => {
            if who.get() != me.get() {
                return Err(BindRefused::NotYours);
            }
            match least_closed(table, me) {
                Some(own) => Ok(own),
                None => Err(BindRefused::Full),
            }
        }
        Channel::Inter(_, _) | Channel::Wild => Err(BindRefused::NoPort),
    }
}

/// What binding to a port is answered: the first refusal, or the own port.
pub fn bind_answer(
    table: &PortTable,
    me: DomId,
    dom: DomId,
    number: u8,
) -> Result<Port, BindRefused>
    ensures { result ≡ bind_answer table.now me dom number }
{
    match table.get(dom.get(), number) {
        Some(there) => answer_at(table, me, there.channel),
        None => Err(BindRefused::NoPort),
    }
}

/// Binds an own closed port and another's port to each other.
pub fn bind(table: &mut PortTable, me: DomId, own: u8, dom: DomId, number: u8)
    ensures { table.new ≡ after_bind table.old me own dom number }
{
    let after = match table.get(dom.get(), number) {
        Some(there) => Some(EventPort {
            channel: Channel::Inter(me, own),
            pending: there.pending,
        }),
        None => None,
    };
    table.set(dom.get(), number, after);
    table.set(me.get(), own, Some(bound_port(dom, number)));
}

// What a child has where its parent has such a port.
fn port_of_child(channel: Channel, parent: DomId, number: u8) -> Option<EventPort>
    ensures { result ≡ port_of_child parent number channel }
{
    match channel {
        Channel::Unbound(who) => Some(EventPort {
            channel: Channel::Unbound(who),
            pending: false,
        }),
        Channel::Wild => Some(bound_port(parent, number)),
        Channel::Inter(_, _) => None,
    }
}

/// Gives a child its copies of its parent's ports.
pub fn copy(table: &mut PortTable, parent: DomId, child: DomId)
    requires within { IsWithin table.old }
    requires differ { parent ≢ child }
    requires closed { AllClosed table.old child }
    ensures { table.new ≡ with_child parent child table.old }
{
    for number in 0..NUMBERS {
        let after = match table.get(parent.get(), number as u8) {
            Some(there) => port_of_child(there.channel, parent, number as u8),
            None => None,
        };
        table.set(child.get(), number as u8, after);
    }
}

/// Binds a domain's port for a device and Dom0's port for it to each other.
pub fn connect(table: &mut PortTable, dom: DomId, kind: u8)
    requires kind { kind ≤ P9 }
    requires paired { IsPaired table.old }
    ensures ports { table.new ≡ with_device dom kind table.old }
    ensures paired { IsPaired table.new }
{
    join(table, dom, kind, dom_zero(), zero_port(dom, kind));
}

// Binds the child's port of the same number where Dom0's port is bound to one of its parent's.
fn bind_from(table: &mut PortTable, channel: Channel, parent: DomId, child: DomId, kind: u8)
    requires kind { kind ≤ P9 }
    requires paired { IsPaired table.old }
    ensures ports { table.new ≡ device_of_child parent child kind table.old (Some channel) }
    ensures paired { IsPaired table.new }
{
    match channel {
        Channel::Inter(dom, number) => {
            if dom.get() == parent.get() {
                join(table, child, number, dom_zero(), zero_port(child, kind));
            }
        }
        Channel::Unbound(_) | Channel::Wild => {}
    }
}

/// Binds the child's port for a device as its parent's is.
pub fn bind_device(table: &mut PortTable, parent: DomId, child: DomId, kind: u8)
    requires kind { kind ≤ P9 }
    requires paired { IsPaired table.old }
    ensures ports { table.new ≡ with_device_of parent child kind table.old }
    ensures paired { IsPaired table.new }
{
    if let Some(there) = table.get(0, zero_port(parent, kind)) {
        bind_from(table, there.channel, parent, child, kind);
    }
}

/// Sends an event to a domain's port for a device, if it is bound to Dom0's port for it.
pub fn signal(table: &mut PortTable, dom: DomId, kind: u8)
    requires { kind ≤ P9 }
    ensures { table.new ≡ after_signal table.old dom kind }
{
    let after = match table.get(dom.get(), kind) {
        Some(there) => Some(port_after_signal(there, dom, kind)),
        None => None,
    };
    table.set(dom.get(), kind, after);
}

// A domain's port after a device was heard.
fn port_after_signal(port: EventPort, dom: DomId, kind: u8) -> EventPort
    requires { kind ≤ P9 }
    ensures { result ≡ port_after_signal dom kind port }
{
    if port.is_bound_to(dom_zero(), zero_port(dom, kind)) {
        EventPort {
            channel: port.channel,
            pending: true,
        }
    } else {
        port
    }
}
