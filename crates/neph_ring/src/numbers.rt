// Numbers of 32 bits in a page.
ghost use Rattle.std.specs.Prelude.{◌≡◌, ◌+◌, ◌≤◌};
ghost use Rattle.neph_ring.specs.Bytes.{bytes_of_words, u32_at, with_u32};

use crate::bytes::{read_bytes, write_bytes};
use crate::words::Words;
use byteorder::{ByteOrder, LittleEndian};

/// The 32-bit number at a place.
pub(crate) fn read_u32<W: Words>(page: &mut W, at: usize) -> u32
    requires { at + 4 ≤ 4096 }
    ensures number { result ≡ u32_at (bytes_of_words (W.words page.old)) at }
    ensures words { W.words page.new ≡ W.words page.old }
    ensures rest { W.keeps_rest page.old page.new }
{
    let mut bytes = [0u8; 4];
    read_bytes(page, at, &mut bytes);
    LittleEndian::read_u32(&bytes)
}

/// Puts a 32-bit number at a place.
pub(crate) fn write_u32<W: Words>(page: &mut W, at: usize, n: u32)
    requires { at + 4 ≤ 4096 }
    ensures bytes { bytes_of_words (W.words page.new)
        ≡ with_u32 (bytes_of_words (W.words page.old)) at n }
    ensures rest { W.keeps_rest page.old page.new }
{
    let mut bytes = [0u8; 4];
    LittleEndian::write_u32(&mut bytes, n);
    write_bytes(page, at, &bytes);
}
