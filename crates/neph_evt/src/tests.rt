// Sequences of calls as tables, the last port, and the last domain.
use crate::port::{BindRefused, PortState};
use crate::ports::Ports;
use neph_base::{DomId, Port, Who};
use std::test::Fail;

// A call of a domain's, with the numbers of domains and ports.
#[derive(Clone, Copy, Debug, PartialEq, Eq)]
enum Call {
    Alloc(u32),
    AllocChild,
    Bind(u32, u32),
    Send(u32),
    Wait(u32),
    Close(u32),
    Clone(u32),
    End,
}

// What it is answered.
#[derive(Clone, Copy, Debug, PartialEq, Eq)]
enum Answer {
    Done,
    Port(u32),
    Full,
    NoPort,
    NotYours,
    NotBound,
    Blocked,
    NoSuchNumber,
}

fn given(port: Option<Port>) -> Answer {
    match port {
        Some(own) => Answer::Port(own.get()),
        None => Answer::Full,
    }
}

fn waited(ports: &mut Ports, me: DomId, port: Port) -> Answer {
    if ports.state(me, port) == PortState::Closed {
        Answer::NotBound
    } else if ports.take(me, port) {
        Answer::Done
    } else {
        Answer::Blocked
    }
}

fn bound(ports: &mut Ports, me: DomId, dom: DomId, port: Port) -> Answer {
    match ports.bind(me, dom, port) {
        Ok(own) => Answer::Port(own.get()),
        Err(BindRefused::NoPort) => Answer::NoPort,
        Err(BindRefused::NotYours) => Answer::NotYours,
        Err(BindRefused::Full) => Answer::Full,
    }
}

fn done(was: bool) -> Answer {
    if was { Answer::Done } else { Answer::NotBound }
}

fn cloned(ports: &mut Ports, me: DomId, child: DomId) -> Answer {
    if me.get() == child.get() {
        return Answer::NoSuchNumber;
    }
    ports.clone_ports(me, child);
    ports.bind_zero(me, child);
    Answer::Done
}

fn with_dom(ports: &mut Ports, me: DomId, call: Call, n: u32) -> Answer {
    match (call, DomId::new(n)) {
        (Call::Alloc(_), Some(who)) => given(ports.alloc(me, Who::Dom(who))),
        (Call::Clone(_), Some(child)) => cloned(ports, me, child),
        _ => Answer::NoSuchNumber,
    }
}

fn with_port(ports: &mut Ports, me: DomId, call: Call, n: u32) -> Answer {
    match (call, Port::new(n)) {
        (Call::Send(_), Some(port)) => done(ports.send(me, port)),
        (Call::Wait(_), Some(port)) => waited(ports, me, port),
        (Call::Close(_), Some(port)) => done(ports.close(me, port)),
        _ => Answer::NoSuchNumber,
    }
}

fn ask(ports: &mut Ports, me: DomId, call: Call) -> Answer {
    match call {
        Call::Alloc(n) | Call::Clone(n) => with_dom(ports, me, call, n),
        Call::AllocChild => given(ports.alloc(me, Who::Child)),
        Call::Bind(dom, n) => match (DomId::new(dom), Port::new(n)) {
            (Some(dom), Some(port)) => bound(ports, me, dom, port),
            _ => Answer::NoSuchNumber,
        },
        Call::Send(n) | Call::Wait(n) | Call::Close(n) => with_port(ports, me, call, n),
        Call::End => {
            ports.end(me);
            Answer::Done
        }
    }
}

#[test]
fn one_domain_with_itself(rt: HostRuntime) -> Result<(), Fail> {
    let mut ports = Ports::new(rt.alloc())?;
    let me = DomId::new(1).ok_or("domain")?;
    assert!(rt; me.get() != 0);
    ports.start(me);
    let rows = [
        (Call::Send(9), Answer::NotBound),
        (Call::Wait(9), Answer::NotBound),
        (Call::Alloc(1), Answer::Port(4)),
        (Call::Bind(1, 4), Answer::Port(5)),
        (Call::Send(4), Answer::Done),
        (Call::Wait(5), Answer::Done),
        (Call::Close(4), Answer::Done),
        (Call::Send(5), Answer::NotBound),
        (Call::Bind(1, 9), Answer::NoPort),
        (Call::Alloc(0), Answer::Port(4)),
        (Call::Bind(1, 4), Answer::NotYours),
        (Call::Close(1), Answer::Done),
        (Call::Bind(0, 9), Answer::NoPort),
        (Call::Bind(0, 5), Answer::Port(1)),
    ];
    for (call, wanted) in rows {
        assert_eq!(rt; ask(&mut ports, me, call), wanted);
    }
    Ok(())
}

#[test]
fn a_child_and_its_child(rt: HostRuntime) -> Result<(), Fail> {
    let mut ports = Ports::new(rt.alloc())?;
    let first = DomId::new(1).ok_or("domain")?;
    assert!(rt; first.get() != 0);
    ports.start(first);
    let rows = [
        (1, Call::AllocChild, Answer::Port(4)),
        (1, Call::Clone(2), Answer::Done),
        (2, Call::AllocChild, Answer::Port(5)),
        (2, Call::Clone(3), Answer::Done),
        (3, Call::Send(4), Answer::NotBound),
        (3, Call::Send(5), Answer::Done),
        (2, Call::Wait(5), Answer::Done),
        (3, Call::End, Answer::Done),
        (2, Call::Send(4), Answer::Done),
        (1, Call::Wait(4), Answer::Done),
        (2, Call::End, Answer::Done),
        (1, Call::End, Answer::Done),
        (1, Call::Send(4), Answer::NotBound),
    ];
    for (dom, call, wanted) in rows {
        let me = DomId::new(dom).ok_or("domain")?;
        assert_eq!(rt; ask(&mut ports, me, call), wanted);
    }
    Ok(())
}

#[test]
fn a_wildcard_and_two_children(rt: HostRuntime) -> Result<(), Fail> {
    let mut ports = Ports::new(rt.alloc())?;
    let rows = [
        (1, Call::AllocChild, Answer::Port(1)),
        (1, Call::Alloc(9), Answer::Port(2)),
        (1, Call::Clone(62), Answer::Done),
        (1, Call::Clone(63), Answer::Done),
        (1, Call::Send(1), Answer::Done),
        (62, Call::Wait(1), Answer::Done),
        (62, Call::Wait(1), Answer::Blocked),
        (9, Call::Bind(63, 2), Answer::Port(1)),
        (63, Call::Send(2), Answer::Done),
        (9, Call::Wait(1), Answer::Done),
        (1, Call::Close(1), Answer::Done),
        (63, Call::Wait(1), Answer::Done),
        (62, Call::Send(1), Answer::NotBound),
        (1, Call::Bind(62, 1), Answer::Port(1)),
        (62, Call::Send(1), Answer::Done),
        (1, Call::Wait(1), Answer::Done),
        (1, Call::End, Answer::Done),
        (2, Call::Bind(62, 1), Answer::NotYours),
    ];
    for (dom, call, wanted) in rows {
        let me = DomId::new(dom).ok_or("domain")?;
        assert_eq!(rt; ask(&mut ports, me, call), wanted);
    }
    Ok(())
}

#[test]
fn all_ports_of_a_domain(rt: HostRuntime) -> Result<(), Fail> {
    let mut ports = Ports::new(rt.alloc())?;
    let me = DomId::new(2).ok_or("domain")?;
    for n in 1..64 {
        assert_eq!(rt; ask(&mut ports, me, Call::Alloc(2)), Answer::Port(n));
    }
    assert_eq!(rt; ask(&mut ports, me, Call::AllocChild), Answer::Full);
    assert_eq!(rt; ask(&mut ports, me, Call::Bind(2, 63)), Answer::Full);
    assert_eq!(rt; ask(&mut ports, me, Call::Bind(3, 63)), Answer::NoPort);
    Ok(())
}

#[test]
fn devices_of_the_last_domain(rt: HostRuntime) -> Result<(), Fail> {
    let mut ports = Ports::new(rt.alloc())?;
    let zero = DomId::new(0).ok_or("domain")?;
    let last = DomId::new(63).ok_or("domain")?;
    let network = Port::new(2).ok_or("port")?;
    let p9 = Port::new(3).ok_or("port")?;
    assert!(rt; last.get() != 0);
    ports.start(last);
    assert_eq!(rt; ports.state(last, network), PortState::Inter(zero, 254));
    assert_eq!(rt; ports.state(last, p9), PortState::Inter(zero, 255));
    assert!(rt; network.get() == 2);
    assert!(rt; p9.get() == 3);
    ports.signal(last, p9);
    assert!(rt; ports.pending(last, p9));
    assert!(rt; !ports.pending(last, network));
    assert!(rt; ports.send(last, p9));
    assert!(rt; ports.take(last, p9));
    assert!(rt; ports.close(last, network));
    assert_eq!(rt; ports.alloc(last, Who::Dom(zero)), Some(network));
    ports.signal(last, network);
    assert!(rt; !ports.pending(last, network));
    Ok(())
}
