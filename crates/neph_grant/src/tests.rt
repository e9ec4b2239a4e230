// Entries in bytes, sequences of calls, and tables at their largest size.
use crate::faults::{EndFault, InUse, MapRefused};
use crate::handles::Handles;
use crate::table::GrantTable;
use neph_base::{DomId, GrantRef, Handle, Mode, Pfn, Who};
use std::test::Fail;

fn dom(n: u32) -> Result<DomId, Fail> {
    Ok(DomId::new(n).ok_or("domain")?)
}

fn reference(n: u32) -> Result<GrantRef, Fail> {
    Ok(GrantRef::new(n).ok_or("reference")?)
}

fn page(n: u32) -> Result<Pfn, Fail> {
    Ok(Pfn::new(n).ok_or("page")?)
}

fn handle(n: u32) -> Result<Handle, Fail> {
    Ok(Handle::new(n).ok_or("handle")?)
}

#[test]
fn entries_in_bytes(rt: HostRuntime) -> Result<(), Fail> {
    let mut table = GrantTable::start();
    assert!(rt;
        table
            .grant(reference(3)?, Who::Child, page(4)?, Mode::Rw)
            .is_ok()
    );
    assert!(rt;
        table
            .grant(reference(4)?, Who::Dom(dom(2)?), page(1023)?, Mode::Ro)
            .is_ok()
    );
    let cases = [
        (0, false, false, [0x19, 0, 0, 0, 1, 0, 0, 0]),
        (1, false, false, [0x19, 0, 0, 0, 2, 0, 0, 0]),
        (2, true, true, [0x19, 0, 0, 0, 3, 0, 0, 0]),
        (3, false, false, [0x01, 0, 0xF8, 0x7F, 4, 0, 0, 0]),
        (3, true, true, [0x19, 0, 0xF8, 0x7F, 4, 0, 0, 0]),
        (4, true, false, [0x0D, 0, 2, 0, 0xFF, 3, 0, 0]),
    ];
    for (r, reading, writing, bytes) in cases {
        assert!(rt; table.entry_bytes(reference(r)?, reading, writing) == Some(bytes));
    }
    assert!(rt; table.entry_bytes(reference(5)?, false, false).is_none());
    Ok(())
}

// A page is granted to its own domain for reading, mapped, given up and taken back.
#[test]
fn grant_map_and_end(rt: HostRuntime) -> Result<(), Fail> {
    let mut table = GrantTable::start();
    let mut handles = Handles::new();
    let me = dom(1)?;
    let none = dom(0)?;
    let third = reference(3)?;
    assert!(rt; table.grant(reference(0)?, Who::Dom(none), page(4)?, Mode::Rw) == Err(InUse));
    assert!(rt; !table.names(page(4)?));
    assert!(rt; table.grant(third, Who::Dom(me), page(4)?, Mode::Ro).is_ok());
    assert!(rt; table.names(page(4)?));
    assert!(rt; table.at(third).is_some());
    let admitted = table.admits(third, me, none, me);
    assert!(rt; matches!(admitted, Ok((p, Mode::Ro)) if p.get() == 4));
    let h = handles.put(me, third, Mode::Ro).ok_or("full")?;
    assert!(rt; h.get() == 0);
    assert!(rt; matches!(handles.at(h), Some((_, _, Mode::Ro))));
    assert!(rt; handles.maps(me, third) && !handles.writes(me, third));
    assert!(rt; table.end(third, handles.maps(me, third)) == Err(EndFault::Busy));
    assert!(rt; handles.remove(h) && !handles.remove(h));
    assert!(rt; handles.at(h).is_none());
    assert!(rt; matches!(table.end(third, handles.maps(me, third)), Ok(p) if p.get() == 4));
    assert!(rt; !table.names(page(4)?));
    assert!(rt; table.end(third, false) == Err(EndFault::NoGrant));
    assert!(rt; table.end(reference(0)?, false) == Err(EndFault::Busy));
    let free = table.admits(reference(5)?, me, none, me);
    assert!(rt; matches!(free, Err(MapRefused::NoEntry)));
    let other = table.admits(reference(0)?, me, none, me);
    assert!(rt; matches!(other, Err(MapRefused::NotYours)));
    Ok(())
}

// Domain 1 grants a page to its children; 2 is one, 3 is a child of 2, and 4 has no parent.
#[test]
fn children_are_let_in(rt: HostRuntime) -> Result<(), Fail> {
    let mut table = GrantTable::start();
    let r = reference(3)?;
    assert!(rt; table.grant(r, Who::Child, page(4)?, Mode::Rw).is_ok());
    let copy = table.copy();
    let cases = [
        (1, 0, 1, false),
        (2, 1, 1, true),
        (3, 2, 1, false),
        (4, 0, 1, false),
    ];
    for (me, parent, granter, lets_in) in cases {
        let answer = table.admits(r, dom(me)?, dom(parent)?, dom(granter)?);
        assert!(rt; answer.is_ok() == lets_in);
    }
    // The child 2 has the same entry, which lets in its own child alone.
    let cases = [(2, 1, 2, false), (3, 2, 2, true), (1, 0, 2, false)];
    for (me, parent, granter, lets_in) in cases {
        let answer = copy.admits(r, dom(me)?, dom(parent)?, dom(granter)?);
        assert!(rt; answer.is_ok() == lets_in);
    }
    Ok(())
}

#[test]
fn all_handles_and_all_references(rt: HostRuntime) -> Result<(), Fail> {
    let mut handles = Handles::new();
    let mut table = GrantTable::new();
    for n in 0..64 {
        let h = handles.put(dom(2)?, reference(n)?, Mode::Rw).ok_or("full")?;
        assert!(rt; h.get() == n);
        assert!(rt;
            table
                .grant(reference(n)?, Who::Child, page(7)?, Mode::Rw)
                .is_ok()
        );
    }
    assert!(rt; handles.put(dom(2)?, reference(0)?, Mode::Rw).is_none());
    assert!(rt; handles.writes(dom(2)?, reference(63)?));
    assert!(rt; handles.remove(handle(17)?));
    assert!(rt; !handles.maps(dom(2)?, reference(17)?));
    let again = handles.put(dom(1)?, reference(9)?, Mode::Ro).ok_or("full")?;
    assert!(rt; again.get() == 17);
    for n in 3..64 {
        assert!(rt; table.names(page(7)?));
        assert!(rt; table.end(reference(n)?, false).is_ok());
    }
    assert!(rt; table.names(page(7)?));
    Ok(())
}
