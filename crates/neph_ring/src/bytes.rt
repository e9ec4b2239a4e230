// The bytes of a page, moved by words.
ghost use Rattle.std.specs.Prelude.{◌≡◌, ◌+◌, ◌%◌, ◌<◌, ◌≤◌, length};
ghost use Rattle.neph_ring.specs.Bytes.{bytes_of_words, span, with_bytes};

use crate::words::Words;

// Reads bytes that lie within one word.
fn read_in_word<W: Words>(page: &mut W, at: usize, into: &mut [u8])
    requires place { at < 4096 }
    requires within { at % 8 + length into.old ≤ 8 }
    ensures bytes { into.new ≡ span (bytes_of_words (W.words page.old)) at (length into.old) }
    ensures words { W.words page.new ≡ W.words page.old }
    ensures rest { W.keeps_rest page.old page.new }
{
    let word = page.get((at / 8) as u16).to_le_bytes();
    let lane = at % 8;
    into.copy_from_slice(&word[lane..lane + into.len()]);
}

// Writes a whole word.
fn write_word<W: Words>(page: &mut W, at: usize, from: &[u8])
    requires place { at < 4096 }
    requires start { at % 8 ≡ 0 }
    requires whole { length from.now ≡ 8 }
    ensures bytes { bytes_of_words (W.words page.new)
        ≡ with_bytes (bytes_of_words (W.words page.old)) at from.now }
    ensures rest { W.keeps_rest page.old page.new }
{
    let mut word = [0u8; 8];
    word.copy_from_slice(from);
    page.set((at / 8) as u16, u64::from_le_bytes(word));
}

// Writes bytes that lie within one word, and leaves its others.
fn write_part<W: Words>(page: &mut W, at: usize, from: &[u8])
    requires place { at < 4096 }
    requires within { at % 8 + length from.now ≤ 8 }
    ensures bytes { bytes_of_words (W.words page.new)
        ≡ with_bytes (bytes_of_words (W.words page.old)) at from.now }
    ensures rest { W.keeps_rest page.old page.new }
{
    let w = (at / 8) as u16;
    let lane = at % 8;
    let mut word = page.get(w).to_le_bytes();
    word[lane..lane + from.len()].copy_from_slice(from);
    page.set(w, u64::from_le_bytes(word));
}

// Writes bytes that lie within one word.
fn write_in_word<W: Words>(page: &mut W, at: usize, from: &[u8])
    requires place { at < 4096 }
    requires within { at % 8 + length from.now ≤ 8 }
    ensures bytes { bytes_of_words (W.words page.new)
        ≡ with_bytes (bytes_of_words (W.words page.old)) at from.now }
    ensures rest { W.keeps_rest page.old page.new }
{
    if from.len() == 8 {
        write_word(page, at, from);
    } else {
        write_part(page, at, from);
    }
}

/// Reads bytes of the page from a place on.
pub(crate) fn read_bytes<W: Words>(page: &mut W, at: usize, into: &mut [u8])
    requires { at + length into.old ≤ 4096 }
    ensures bytes { into.new ≡ span (bytes_of_words (W.words page.old)) at (length into.old) }
    ensures words { W.words page.new ≡ W.words page.old }
    ensures rest { W.keeps_rest page.old page.new }
{
    let mut done = 0;
    while done < into.len() {
        let n = (8 - (at + done) % 8).min(into.len() - done);
        read_in_word(page, at + done, &mut into[done..done + n]);
        done += n;
    }
}

/// Writes bytes of the page from a place on.
pub(crate) fn write_bytes<W: Words>(page: &mut W, at: usize, from: &[u8])
    requires { at + length from.now ≤ 4096 }
    ensures bytes { bytes_of_words (W.words page.new)
        ≡ with_bytes (bytes_of_words (W.words page.old)) at from.now }
    ensures rest { W.keeps_rest page.old page.new }
{
    let mut done = 0;
    while done < from.len() {
        let n = (8 - (at + done) % 8).min(from.len() - done);
        write_in_word(page, at + done, &from[done..done + n]);
        done += n;
    }
}
