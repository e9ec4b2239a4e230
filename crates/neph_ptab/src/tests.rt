// Each call once, over the plain pool, through its bound, and entries bit for bit.
ghost use Rattle.std.specs.Prelude.{◌≡◌, ◌≢◌};
ghost use Rattle.neph_pool.specs.Entries.{IsZeroAt, IsSoleAt};
ghost use Rattle.neph_pool.specs.World.{World, IsSeat, Moves};
ghost use Rattle.neph_ptab.specs.Moves.{IsLocal};
ghost use Rattle.neph_ptab.specs.Tables.{walk_at, IsTables};

use crate::bits::{root_word, walk_in, walk_word};
use crate::tables::Tables;
use crate::walk::Walk;
use neph_base::{FrameNo, Pfn, Vpn};
use neph_pool::{FramePool, PlainPool};
use std::test::Fail;

// What was seen of a virtual page.
#[derive(Clone, Copy, Debug, PartialEq)]
struct Seen {
    missing: bool,
    mapped: Walk,
    shared: Walk,
    cleared: Walk,
}

// The page comes into another frame, where it may be shared.
fn share_page<P: FramePool>(
    pool: &mut P,
    s: &mut P::Seat,
    tables: &mut Tables<P>,
    v: Vpn,
    to: FrameNo,
)
    requires seat { IsSeat P.world pool.old s.old }
    requires stands { IsTables (P.world.entries pool.old s.old) tables.old.root }
    requires local { IsLocal (walk_at (P.world.entries pool.old s.old) tables.old.root v) }
    ensures root { tables.new.root ≡ tables.old.root }
    ensures stands { IsTables (P.world.entries pool.new s.new) tables.old.root }
    ensures moves { Moves P.world pool.old s.old pool.new s.new }
{
    tables.move_page(pool, s, &[v], to, false);
}

// Tables are made, and a page is mapped, shared and unmapped.
#[tactic(auto, using(neph_pool::proofs::Entries::entry_laws, neph_pool::proofs::Calls::call_laws))]
fn map_once<P: FramePool>(
    pool: &mut P,
    s: &mut P::Seat,
    root: FrameNo,
    leaf: FrameNo,
    v: Vpn,
    page: FrameNo,
) -> Seen
    requires seat { IsSeat P.world pool.old s.old }
    requires root { IsSoleAt (P.world.entries pool.old s.old) root }
    requires leaf { IsSoleAt (P.world.entries pool.old s.old) leaf }
    requires apart { leaf ≢ root }
    ensures moves { Moves P.world pool.old s.old pool.new s.new }
{
    let mut tables = Tables::new(pool, s, root);
    let missing = tables.needs_leaf(pool, s, v);
    tables.add_leaf(pool, s, v, leaf);
    let to = Walk::Local {
        frame: page,
        rw: true,
        shared: false,
    };
    tables.set(pool, s, v, to);
    let mapped = tables.walk(pool, s, v);
    share_page(pool, s, &mut tables, v, page);
    let shared = tables.walk(pool, s, v);
    tables.clear(pool, s, v);
    let cleared = tables.walk(pool, s, v);
    Seen {
        missing,
        mapped,
        shared,
        cleared,
    }
}

// Two kept frames are taken for tables.
#[tactic(auto, using(neph_pool::proofs::Entries::entry_laws, neph_pool::proofs::Calls::call_laws))]
fn map_in<P: FramePool>(
    pool: &mut P,
    s: &mut P::Seat,
    root: FrameNo,
    leaf: FrameNo,
    v: Vpn,
    page: FrameNo,
) -> Seen
    requires seat { IsSeat P.world pool.old s.old }
    requires root { IsZeroAt (P.world.entries pool.old s.old) root }
    requires leaf { IsZeroAt (P.world.entries pool.old s.old) leaf }
    requires apart { leaf ≢ root }
    ensures moves { Moves P.world pool.old s.old pool.new s.new }
{
    pool.retake(s, root);
    pool.retake(s, leaf);
    map_once(pool, s, root, leaf, v, page)
}

#[test]
fn pages_are_mapped(rt: HostRuntime) -> Result<(), Fail> {
    let (mut pool, mut s) = PlainPool::new(rt.alloc(), 16, 16)?;
    let root = FrameNo::new(3).ok_or("root")?;
    let leaf = FrameNo::new(7).ok_or("leaf")?;
    let page = FrameNo::new(9).ok_or("page")?;
    let v = Vpn::new(1000).ok_or("vpn")?;
    assert!(rt; root.get() < 16);
    assert!(rt; leaf.get() < 16);
    assert!(rt; leaf.get() != root.get());
    let seen = map_in(&mut pool, &mut s, root, leaf, v, page);
    let all = Seen {
        missing: true,
        mapped: Walk::Local {
            frame: page,
            rw: true,
            shared: false,
        },
        shared: Walk::Local {
            frame: page,
            rw: false,
            shared: true,
        },
        cleared: Walk::None,
    };
    assert!(rt; seen == all);
    pool.tell(&mut s);
    assert_eq!(rt; pool.count(root), 1);
    Ok(())
}

#[test]
fn entries_bit_for_bit(rt: HostRuntime) -> Result<(), Fail> {
    let frame = FrameNo::new(0x1234).ok_or("frame")?;
    let pfn = Pfn::new(0x3ff).ok_or("pfn")?;
    assert_eq!(rt; root_word(frame), 0x123_4003);
    let own = Walk::Local {
        frame,
        rw: true,
        shared: false,
    };
    assert_eq!(rt; walk_word(own), 0x123_4003);
    let read_only = Walk::Local {
        frame,
        rw: false,
        shared: false,
    };
    assert_eq!(rt; walk_word(read_only), 0x123_4001);
    let shared = Walk::Local {
        frame,
        rw: false,
        shared: true,
    };
    assert_eq!(rt; walk_word(shared), 0x123_4201);
    assert_eq!(rt; walk_word(Walk::Exposed { pfn, rw: false }), 0x3f_f400);
    assert_eq!(rt; walk_word(Walk::Exposed { pfn, rw: true }), 0x3f_f600);
    assert!(rt; walk_in(0) == Walk::None);
    Ok(())
}
