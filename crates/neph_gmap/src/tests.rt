// Each call once.
use crate::map::GuestMap;
use crate::page::Page;
use neph_base::{FrameNo, Pfn, Vpn};
use std::test::Fail;

#[test]
fn pages_and_their_mappings(rt: HostRuntime) -> Result<(), Fail> {
    let mut map = GuestMap::new(rt.alloc(), 8)?;
    let p = Pfn::new(5).ok_or("pfn")?;
    assert!(rt; p.get() < 8);
    let past = Pfn::new(8).ok_or("pfn")?;
    let f = FrameNo::new(77).ok_or("frame")?;
    assert!(rt; map.page(past).is_none());
    map.set(p, Page::Local(f));
    assert!(rt; map.page(p) == Some(Page::Local(f)));
    assert!(rt; map.page_in(f) == Some(p));
    assert_eq!(rt; map.len(), 8);
    for n in [9, 3, 262143, 3] {
        let v = Vpn::new(n).ok_or("vpn")?;
        map.add_vpn(p, v)?;
    }
    assert_eq!(rt; map.vpns(p).len(), 3);
    let v = Vpn::new(9).ok_or("vpn")?;
    map.drop_vpn(p, v);
    assert_eq!(rt; map.vpns(p).len(), 2);
    assert_eq!(rt; map.vpns(past).len(), 0);
    Ok(())
}

#[test]
fn a_page_mapped_once(rt: HostRuntime) -> Result<(), Fail> {
    let mut map = GuestMap::new(rt.alloc(), 8)?;
    let p = Pfn::new(5).ok_or("pfn")?;
    let v = Vpn::new(9).ok_or("vpn")?;
    assert!(rt; p.get() < 8);
    map.drop_vpn(p, v);
    assert_eq!(rt; map.vpns(p).len(), 0);
    map.add_vpn(p, v)?;
    map.add_vpn(p, v)?;
    assert_eq!(rt; map.vpns(p).len(), 1);
    map.drop_vpn(p, v);
    assert_eq!(rt; map.vpns(p).len(), 0);
    Ok(())
}

#[test]
fn the_largest_guest(rt: HostRuntime) -> Result<(), Fail> {
    let mut map = GuestMap::new(rt.alloc(), 1024)?;
    let p = Pfn::new(1023).ok_or("pfn")?;
    let f = FrameNo::new(0).ok_or("frame")?;
    assert!(rt; p.get() < 1024);
    assert!(rt; map.page_in(f).is_none());
    map.set(p, Page::Local(f));
    assert!(rt; map.page_in(f) == Some(p));
    Ok(())
}

#[test]
fn pages_that_move(rt: HostRuntime) -> Result<(), Fail> {
    let mut map = GuestMap::new(rt.alloc(), 8)?;
    let p = Pfn::new(4).ok_or("pfn")?;
    let q = Pfn::new(5).ok_or("pfn")?;
    let f = FrameNo::new(16383).ok_or("frame")?;
    let g = FrameNo::new(3).ok_or("frame")?;
    assert!(rt; p.get() < 8 && q.get() < 8);
    assert!(rt; map.page_in(f).is_none());
    map.set(p, Page::Local(f));
    map.set(p, Page::Local(g));
    assert!(rt; map.page_in(f).is_none());
    assert!(rt; map.page_in(g) == Some(p));
    map.set(q, Page::Local(f));
    map.set(p, Page::Local(f));
    assert!(rt; map.page_in(f) == Some(p));
    map.set(p, Page::Exposed);
    assert!(rt; map.page_in(f) == Some(q));
    Ok(())
}
