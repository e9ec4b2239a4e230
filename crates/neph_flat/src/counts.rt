// The frames of the domains' tables and clones.
ghost use Rattle.std.specs.Prelude.{◌≡◌, ◌≤◌, ◌<◌, ◌^◌, true, if◌then◌else◌};
ghost use Rattle.neph_model.specs.Books.{table_frames, aside_for, need_of};
ghost use Rattle.neph_model.specs.Machine.{is_live, sum_live};
ghost use Rattle.neph_flat.specs.Halves.{seen};
ghost use Rattle.neph_flat.specs.Sound.{IsSound};

use crate::halves::Halves;
use neph_base::{DomId, IDS};
use neph_model::Script;

/// How many frames the tables of the live domains stand on.
pub fn tables(h: &Halves, s: &Script) -> u32
    requires { IsSound s.now (seen h.now) }
    ensures value { result ≡ sum_live (table_frames (seen h.now)) h.now.registry.lives }
    ensures few { result ≤ 65536 }
{
    let mut frames = 0;
    for id in 0..IDS {
        frames += live_tables(h, s, id);
    }
    frames
}

/// How many frames the clones that live domains have begun have put aside.
pub fn aside(h: &Halves, s: &Script) -> u32
    requires { IsSound s.now (seen h.now) }
    ensures value { result ≡ sum_live (aside_for (seen h.now)) h.now.registry.lives }
    ensures few { result ≤ 2 ^ 24 }
{
    let mut frames = 0;
    for id in 0..IDS {
        frames += live_aside(h, s, id);
    }
    frames
}

// The frames of the tables of a domain, none where it isn't live.
fn live_tables(h: &Halves, s: &Script, id: usize) -> u32
    requires sound { IsSound s.now (seen h.now) }
    requires low { id < 64 }
    ensures value { result ≡ (if is_live id h.now.registry.lives then table_frames (seen h.now) id
        else 0) }
    ensures few { result ≤ 600 }
{
    let dom = DomId::new(id as u32).unwrap();
    match h.live_own(s, dom) {
        Some(o) => 1 + o.leaves.items().len() as u32,
        None => 0,
    }
}

// The frames that the clones of a domain have put aside, none where it isn't live.
fn live_aside(h: &Halves, s: &Script, id: usize) -> u32
    requires sound { IsSound s.now (seen h.now) }
    requires low { id < 64 }
    ensures value { result ≡ (if is_live id h.now.registry.lives then aside_for (seen h.now) id
        else 0) }
    ensures few { result ≤ 100000 }
{
    let dom = DomId::new(id as u32).unwrap();
    if h.registry.life(dom).is_none() {
        return 0;
    }
    let need = need(h, s, dom);
    h.registry.begun_count(dom) * need
}

/// How many frames a clone of a live domain needs.
pub fn need(h: &Halves, s: &Script, id: DomId) -> u32
    requires sound { IsSound s.now (seen h.now) }
    requires live { is_live id h.now.registry.lives ≡ true }
    ensures value { result ≡ need_of (seen h.now) id }
    ensures few { result ≤ 1600 }
{
    let leaves = h.own[id.get() as usize].leaves.items().len() as u32;
    neph_rows::need(&h.pages, id, leaves)
}
