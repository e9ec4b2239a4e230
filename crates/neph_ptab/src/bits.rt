// The bits of the tables' entries.
ghost use Rattle.std.specs.Prelude.{◌≡◌, ◌+◌, ◌*◌, ◌/◌, ◌%◌, ◌^◌, ◌<◌, ◌≤◌, ℕ, Some, None};
ghost use Rattle.neph_ptab.specs.Bits.{has_bit, number_in, digit, leaf_in, root_word, walk_in, walk_word, InRange};

use crate::walk::Walk;
use neph_base::{FrameNo, MAX_FRAMES, MAX_PAGES, Pfn, TABLE_ENTRIES, Vpn};

/// The bit of an entry that leads somewhere (Xen's `_PAGE_PRESENT`).
pub const PRESENT: u32 = 0;

/// The bit of an entry through which may be written (Xen's `_PAGE_RW`).
pub const RW: u32 = 1;

/// The first bit that is left to software (Xen's `_PAGE_AVAIL0`): a page that is wanted writable,
/// but may not be written at once.
pub const AVAIL0: u32 = 9;

/// The second bit that is left to software (Xen's `_PAGE_AVAIL1`): an exposed page.
pub const AVAIL1: u32 = 10;

/// The first bit of a frame's number (Xen's `PAGE_SHIFT`).
pub const PAGE_SHIFT: u32 = 12;

// Bit `n` of a word.
fn has_bit(word: u64, n: u32) -> bool
    requires { n < 64 }
    ensures { result ≡ has_bit word n }
{
    (word >> n) % 2 == 1
}

// The number in bits 12 to 51.
fn number_in(word: u64) -> u32
    requires { number_in word < 2 ^ 32 }
    ensures { result ≡ number_in word }
{
    ((word >> PAGE_SHIFT) % (1 << 40)) as u32
}

// A bit as a number.
fn digit(b: bool) -> u64
    ensures value { result ≡ digit b }
    ensures small { result ≤ 1 }
{
    if b { 1 } else { 0 }
}

/// The place in the root of a virtual page's entry.
pub fn root_place(v: Vpn) -> u16
    ensures value { result ≡ v / TABLE_ENTRIES }
    ensures small { result < TABLE_ENTRIES }
    ensures range { v < 2 ^ 18 }
{
    (v.get() as usize / TABLE_ENTRIES) as u16
}

/// The place in its leaf table.
pub fn leaf_place(v: Vpn) -> u16
    ensures value { result ≡ v % TABLE_ENTRIES }
    ensures small { result < TABLE_ENTRIES }
    ensures range { v < 2 ^ 18 }
{
    (v.get() as usize % TABLE_ENTRIES) as u16
}

/// The leaf table that a root's entry names.
pub fn leaf_in(word: u64) -> Option<FrameNo>
    requires { (f : ℕ) → leaf_in word ≡ Some f → f < MAX_FRAMES }
    ensures { result ≡ leaf_in word }
{
    if has_bit(word, PRESENT) {
        FrameNo::new(number_in(word))
    } else {
        None
    }
}

/// The root's entry that names a leaf table.
pub fn root_word(leaf: FrameNo) -> u64
    ensures value { result ≡ root_word (Some leaf) }
    ensures range { leaf < MAX_FRAMES }
{
    (1 << PRESENT) + (1 << RW) + (1 << PAGE_SHIFT) * u64::from(leaf.get())
}

/// What a leaf's entry says.
pub fn walk_in(word: u64) -> Walk
    requires { InRange (walk_in word) }
    ensures { result ≡ walk_in word }
{
    if has_bit(word, PRESENT) {
        return local_in(word);
    }
    if has_bit(word, AVAIL1) {
        return exposed_in(word);
    }
    Walk::None
}

fn local_in(word: u64) -> Walk
    requires { number_in word < MAX_FRAMES }
    ensures { result ≡ Walk.Local (number_in word) (has_bit word RW) (has_bit word AVAIL0) }
{
    let frame = FrameNo::new(number_in(word)).unwrap();
    Walk::Local {
        frame,
        rw: has_bit(word, RW),
        shared: has_bit(word, AVAIL0),
    }
}

fn exposed_in(word: u64) -> Walk
    requires { number_in word < MAX_PAGES }
    ensures { result ≡ Walk.Exposed (number_in word) (has_bit word AVAIL0) }
{
    let pfn = Pfn::new(number_in(word)).unwrap();
    Walk::Exposed {
        pfn,
        rw: has_bit(word, AVAIL0),
    }
}

/// The leaf's entry that says it.
pub fn walk_word(walk: Walk) -> u64
    ensures value { result ≡ walk_word walk }
    ensures range { InRange walk }
{
    match walk {
        Walk::None => 0,
        Walk::Local { frame, rw, shared } => {
            (1 << PRESENT)
                + (1 << RW) * digit(rw)
                + (1 << AVAIL0) * digit(shared)
                + (1 << PAGE_SHIFT) * u64::from(frame.get())
        }
        Walk::Exposed { pfn, rw } => {
            (1 << AVAIL1) + (1 << AVAIL0) * digit(rw) + (1 << PAGE_SHIFT) * u64::from(pfn.get())
        }
    }
}
