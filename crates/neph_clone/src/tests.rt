// The refusals in their order, and the ring at its largest size.
use crate::admission::{CloneFacts, admit};
use crate::ring::NotifyRing;
use neph_base::{DomId, Refusal};
use std::test::Fail;

// A domain of 8 pages with one leaf table and three exposed pages, which needs 6 frames.
const FACTS: CloneFacts = CloneFacts {
    accepted: 0,
    limit: 1,
    next: 2,
    exclusive: false,
    asked: false,
    leaves: 1,
    exposed: 3,
    free: 6,
};

#[test]
fn refusals_in_their_order(rt: HostRuntime) -> Result<(), Fail> {
    let mut f = FACTS;
    assert!(rt; matches!(admit(&f), Ok(child) if child.get() == 2));
    f.exposed = 4;
    assert!(rt; admit(&f) == Err(Refusal::Frames { need: 7, free: 6 }));
    f.asked = true;
    assert!(rt; admit(&f) == Err(Refusal::PolicyP9));
    f.exclusive = true;
    assert!(rt; admit(&f) == Err(Refusal::PolicyNet));
    f.next = 64;
    assert!(rt; admit(&f) == Err(Refusal::Ids));
    f.accepted = 1;
    assert!(rt; admit(&f) == Err(Refusal::Limit));
    Ok(())
}

#[test]
fn first_in_first_out(rt: HostRuntime) -> Result<(), Fail> {
    let mut ring = NotifyRing::new(rt.alloc())?;
    assert!(rt; ring.front().is_none());
    for n in 1..64 {
        ring.put(DomId::new(n).ok_or("domain")?);
    }
    for n in 1..64 {
        assert!(rt; ring.front() == DomId::new(n));
        assert!(rt; ring.take() == DomId::new(n));
    }
    assert!(rt; ring.take().is_none());
    Ok(())
}
