// How many nodes are in each domain's home.
ghost use Rattle.std.specs.Prelude.{◌≡◌, ◌+◌, ◌-◌, ◌<◌, ◌≤◌, ◌^◌, ℕ, true, false, IfSome, IfNone, slice_index, if◌then◌else◌};
ghost use Rattle.neph_tree.specs.Places.{home, is_within};

use crate::place::Place;
use crate::places::is_within;
use neph_base::{DomId, SLASH};

// There is one for each domain's id.
pub(crate) const HOMES: usize = 64;

// There is no node.
pub(crate) fn no_counts() -> [u32; HOMES]
    ensures { (d : ℕ) → d < 64 → slice_index result d ≡ 0 }
{
    let mut counts = [0; HOMES];
    for d in 0..HOMES {
        counts[d] = 0;
    }
    counts
}

// One node more at this path.
pub(crate) fn count_up(counts: &mut [u32; HOMES], path: &[u8])
    requires { (d : ℕ) → d < 64 → slice_index counts.old d + 1 < 2 ^ 32 }
    ensures { (d : ℕ) → d < 64 → slice_index counts.new d
        ≡ slice_index counts.old d + (if is_within (home d) path.now then 1 else 0) }
{
    if let Some(d) = owner(path) {
        counts[d] += 1;
    }
}

// So many nodes fewer, which are all that were within `top`.
pub(crate) fn count_down(counts: &mut [u32; HOMES], top: &[u8], gone: u32)
    requires { (d : ℕ) → d < 64 → is_within (home d) top.now ≡ true
        → gone ≤ slice_index counts.old d }
    ensures { (d : ℕ) → d < 64 → slice_index counts.new d
        ≡ (if is_within (home d) top.now then slice_index counts.old d - gone
        else if is_within top.now (home d) then 0 else slice_index counts.old d) }
{
    match owner(top) {
        Some(d) => counts[d] -= gone,
        None => clear_within(counts, top),
    }
}

// No node is left in the homes within `top`.
fn clear_within(counts: &mut [u32; HOMES], top: &[u8])
    ensures { (d : ℕ) → d < 64 → slice_index counts.new d
        ≡ (if is_within top.now (home d) then 0 else slice_index counts.old d) }
{
    for d in 0..HOMES {
        if has_home(top, d) {
            counts[d] = 0;
        }
    }
}

// The domain in whose home the path is.
fn owner(path: &[u8]) -> Option<usize>
    ensures some { IfSome result (λ d. (d < 64) × (is_within (home d) path.now ≡ true)) }
    ensures none { IfNone result ((d : ℕ) → d < 64 → is_within (home d) path.now ≡ false) }
{
    if let Some(id) = guess(path) {
        if is_within(Place::home(id).bytes(), path) {
            return Some(id.get() as usize);
        }
    }
    search(path)
}

// `owner` of every path, by trying each home.
fn search(path: &[u8]) -> Option<usize>
    ensures some { IfSome result (λ d. (d < 64) × (is_within (home d) path.now ≡ true)) }
    ensures none { IfNone result ((d : ℕ) → d < 64 → is_within (home d) path.now ≡ false) }
{
    for d in 0..HOMES {
        if is_in_home(d, path) {
            return Some(d);
        }
    }
    None
}

// The only domain that can own the path, by the digits behind `/local/domain/`.
fn guess(path: &[u8]) -> Option<DomId> {
    let digits = path.strip_prefix(b"/local/domain/")?;
    let first = *digits.first()?;
    let number = u32::from(first).wrapping_sub(48);
    match digits.get(1) {
        Some(second) if *second != SLASH => {
            let low = u32::from(*second).wrapping_sub(48);
            DomId::new(number.wrapping_mul(10).wrapping_add(low))
        }
        _ => DomId::new(number),
    }
}

fn is_in_home(d: usize, path: &[u8]) -> bool
    requires { d < 64 }
    ensures { result ≡ is_within (home d) path.now }
{
    match DomId::new(d as u32) {
        Some(id) => is_within(Place::home(id).bytes(), path),
        None => unreachable!(),
    }
}

fn has_home(top: &[u8], d: usize) -> bool
    requires { d < 64 }
    ensures { result ≡ is_within top.now (home d) }
{
    match DomId::new(d as u32) {
        Some(id) => is_within(top, Place::home(id).bytes()),
        None => unreachable!(),
    }
}
