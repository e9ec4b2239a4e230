// A small machine in memory.
use crate::daemon::{Daemon, stage_two};
use neph_base::{DomId, NoMemory};
use neph_clone::{NotifyRing, TwoStage};
use std::test::Fail;

// A ring, and the child that was joined last.
#[derive(Drop)]
struct Joiner {
    ring: NotifyRing,
    joined: Option<DomId>,
}

impl TwoStage for Joiner {
    ghost use Rattle.std.specs.Prelude.{◌≡◌, Some};

    ghost children = { λ c. c.ring };

    ghost joins = { λ old new child. new.joined ≡ Some child };

    fn waiting(&self) -> Option<DomId> {
        self.ring.front()
    }

    fn finish(&mut self, child: DomId) -> Result<(), NoMemory> {
        let _taken = self.ring.take();
        self.joined = Some(child);
        Ok(())
    }
}

#[test]
fn children_in_their_order(rt: HostRuntime) -> Result<(), Fail> {
    let ring = NotifyRing::new(rt.alloc())?;
    let mut machine = Joiner { ring, joined: None };
    assert!(rt; stage_two(&mut machine)? == Daemon::Idle);
    machine.ring.put(DomId::new(3).ok_or("domain")?);
    machine.ring.put(DomId::new(2).ok_or("domain")?);
    for n in [3, 2] {
        let child = DomId::new(n).ok_or("domain")?;
        assert!(rt; stage_two(&mut machine)? == Daemon::Did(child));
        assert!(rt; machine.joined == Some(child));
    }
    assert!(rt; stage_two(&mut machine)? == Daemon::Idle);
    Ok(())
}
