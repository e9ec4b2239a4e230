// The console's output: a ring of bytes that the guest fills and the backend drains.
ghost use Rattle.std.specs.Prelude.{◌≡◌, ◌↔◌, ◌+◌, ◌≤◌, ◌++◌, [], length, vec_len, vec_capacity, IsTrue, IsOk, IfOk, OnOk, OnErr};
ghost use Rattle.std.specs.Bool.{OnTrue, OnFalse};
ghost use Rattle.neph_ring.specs.Bytes.{bytes_of_words};
ghost use Rattle.neph_ring.specs.Console.{IsConsole, out_count, out_queue, ring_bytes, with_output, with_ring, without_output};

use crate::bytes::{read_bytes, write_bytes};
use crate::layout::{XENCONS_OUT, XENCONS_OUT_CONS, XENCONS_OUT_PROD, XENCONS_OUT_SIZE};
use crate::numbers::{read_u32, write_u32};
use crate::words::Words;
use neph_base::{NoMemory, Piece};

// Reads the ring's bytes from an index on, round the ring's end.
fn read_ring<W: Words>(page: &mut W, index: u32, into: &mut [u8])
    requires { length into.old ≤ XENCONS_OUT_SIZE }
    ensures bytes { into.new
        ≡ ring_bytes (bytes_of_words (W.words page.old)) index (length into.old) }
    ensures words { W.words page.new ≡ W.words page.old }
    ensures rest { W.keeps_rest page.old page.new }
{
    let at = index as usize % XENCONS_OUT_SIZE;
    let first = into.len().min(XENCONS_OUT_SIZE - at);
    let (until_end, from_start) = into.split_at_mut(first);
    read_bytes(page, XENCONS_OUT + at, until_end);
    read_bytes(page, XENCONS_OUT, from_start);
}

// Writes the ring's bytes from an index on, round the ring's end.
fn write_ring<W: Words>(page: &mut W, index: u32, from: &[u8])
    requires { length from.now ≤ XENCONS_OUT_SIZE }
    ensures bytes { bytes_of_words (W.words page.new)
        ≡ with_ring (bytes_of_words (W.words page.old)) index from.now }
    ensures rest { W.keeps_rest page.old page.new }
{
    let at = index as usize % XENCONS_OUT_SIZE;
    let first = from.len().min(XENCONS_OUT_SIZE - at);
    write_bytes(page, XENCONS_OUT + at, &from[..first]);
    write_bytes(page, XENCONS_OUT, &from[first..]);
}

/// Puts bytes behind those that wait. False exactly where the ring has no room for all of them.
pub fn put_out<W: Words>(page: &mut W, bytes: &Piece) -> bool
    requires { IsConsole (bytes_of_words (W.words page.old)) }
    ensures exactly { IsTrue result
        ↔ (out_count (bytes_of_words (W.words page.old)) + length bytes.now
        ≤ XENCONS_OUT_SIZE) }
    ensures put { OnTrue result (bytes_of_words (W.words page.new)
        ≡ with_output (bytes_of_words (W.words page.old)) bytes.now) }
    ensures queue { OnTrue result (out_queue (bytes_of_words (W.words page.new))
        ≡ out_queue (bytes_of_words (W.words page.old)) ++ bytes.now) }
    ensures full { OnFalse result (W.words page.new ≡ W.words page.old) }
    ensures kept { IsConsole (bytes_of_words (W.words page.new)) }
    ensures rest { W.keeps_rest page.old page.new }
{
    let from = bytes.bytes();
    let cons = read_u32(page, XENCONS_OUT_CONS);
    let prod = read_u32(page, XENCONS_OUT_PROD);
    let count = prod.wrapping_sub(cons) as usize;
    if count + from.len() > XENCONS_OUT_SIZE {
        return false;
    }
    write_ring(page, prod, from);
    write_u32(page, XENCONS_OUT_PROD, prod.wrapping_add(from.len() as u32));
    true
}

/// Appends the bytes that wait, and tells how many there were. None waits then. Where memory is
/// out, none is taken; it isn't where `into` has room for them. The ring's bytes stay in their
/// places.
pub fn drain_out<W: Words>(page: &mut W, into: &mut Vec<u8>) -> Result<u32, NoMemory>
    requires { IsConsole (bytes_of_words (W.words page.old)) }
    ensures count { IfOk result (λ n. n ≡ length (out_queue (bytes_of_words (W.words page.old)))) }
    ensures bytes { OnOk result (into.new.items
        ≡ into.old.items ++ out_queue (bytes_of_words (W.words page.old))) }
    ensures page { OnOk result (bytes_of_words (W.words page.new)
        ≡ without_output (bytes_of_words (W.words page.old))) }
    ensures empty { OnOk result (out_queue (bytes_of_words (W.words page.new)) ≡ []) }
    ensures err { OnErr result (into.new.items ≡ into.old.items) }
    ensures err_page { OnErr result (W.words page.new ≡ W.words page.old) }
    ensures room { vec_len into.old + length (out_queue (bytes_of_words (W.words page.old)))
        ≤ vec_capacity into.old → IsOk result }
    ensures kept { IsConsole (bytes_of_words (W.words page.new)) }
    ensures rest { W.keeps_rest page.old page.new }
{
    let cons = read_u32(page, XENCONS_OUT_CONS);
    let prod = read_u32(page, XENCONS_OUT_PROD);
    let count = prod.wrapping_sub(cons);
    let had = into.len();
    into.resize(had + count as usize, 0)?;
    read_ring(page, cons, &mut into[had..]);
    write_u32(page, XENCONS_OUT_CONS, prod);
    Ok(count)
}
