// What the words of a line say.
ghost use Rattle.std.specs.Prelude.{◌≡◌, ◌≢◌, ◌+◌, ◌*◌, ◌<◌, ◌≤◌, ◌^◌, ℕ, List, [], ◌∷◌, length, Some, None, IfOk, IfSome, IfNone, IsTrue, ◌↔◌};
ghost use Rattle.std.specs.List.{list_all};
ghost use Rattle.std.specs.Fmt.{decimal};
ghost use Rattle.neph_command.specs.Plain.{IsPlain};
ghost use Rattle.neph_command.specs.Words.{number, number_in, digit_value, piece, is_letter, is_digit, is_name_byte, is_name, mode};

use crate::why::Why;
use neph_base::{Mode, Piece};

/// The number of a range that a word spells.
pub fn number(word: &[u8], low: u32, high: u32) -> Result<u32, Why>
    ensures value { result ≡ number low high word.now }
    ensures range { IfOk result (λ n. (low ≤ n) × (n ≤ high)) }
{
    ranged(word, low, high).ok_or(Why::Number)
}

// The same, `None` where it spells none.
fn ranged(word: &[u8], low: u32, high: u32) -> Option<u32>
    ensures value { result ≡ number_in low high word.now }
    ensures range { IfSome result (λ n. (low ≤ n) × (n ≤ high)) }
{
    let n = any_number(word)?;
    if low <= n && n <= high { Some(n) } else { None }
}

// The number that a word spells, in decimal without a sign or a leading zero.
fn any_number(word: &[u8]) -> Option<u32>
    ensures found { IfSome result (λ n. word.now ≡ decimal n) }
    ensures small { IfSome result (λ n. n < 2 ^ 32) }
    ensures none { IfNone result ((n : ℕ) → n < 2 ^ 32 → word.now ≢ decimal n) }
{
    if word.is_empty() {
        return None;
    }
    if !is_plain(word) {
        return None;
    }
    let mut n = 0u64;
    for b in word {
        if !is_digit(*b) {
            return None;
        }
        n = 10 * n + u64::from(*b - b'0');
        if n > 0xffff_ffff {
            return None;
        }
    }
    Some(n as u32)
}

fn is_plain(word: &[u8]) -> bool
    ensures { IsTrue result ↔ IsPlain word.now }
{
    match word {
        [b'+', ..] => false,
        [b'0', _, ..] => false,
        _ => true,
    }
}

// The value of a hexadecimal digit, and more than 15 where a byte is none.
fn value(b: u8) -> u8
    ensures digit { result < 16 → digit_value b ≡ Some result }
    ensures none { 15 < result → digit_value b ≡ None }
{
    if b <= b'9' {
        b.wrapping_sub(b'0')
    } else {
        b.wrapping_sub(b'a').saturating_add(10)
    }
}

/// The bytes that a word spells, two digits each: one to 64 of them.
pub fn piece(word: &[u8]) -> Result<Piece, Why>
    ensures { result ≡ piece word.now }
{
    let n = word.len() / 2;
    if word.len() % 2 != 0 || n > 64 {
        return Err(Why::Hex);
    }
    // Always as many digits, and judged once at the end, so that many go at a time.
    let mut digits = [b'0'; 128];
    digits[..word.len()].copy_from_slice(word);
    let mut most = 0u8;
    'values: for i in 0..128usize {
        let v = value(digits[i]);
        most = most.max(v);
        digits[i] = v;
    }
    if most > 15 {
        return Err(Why::Hex);
    }
    let mut kept = [0u8; 64];
    'pairs: for i in 0..64usize {
        kept[i] = joined(digits[2 * i], digits[2 * i + 1]);
    }
    Piece::new(&kept[..n]).ok_or(Why::Hex)
}

// The byte of two digits' values.
fn joined(high: u8, low: u8) -> u8
    requires high { high < 16 }
    requires low { low < 16 }
    ensures { result ≡ 16 * high + low }
{
    // One product of both, which the machine takes at many places at a time.
    let pair = u16::from(high) + 256 * u16::from(low);
    (pair.wrapping_mul(4097) / 256) as u8
}

/// Whether a word is a name: 1 to 16 letters and digits, the first a letter.
pub fn is_name(word: &[u8]) -> bool
    ensures { result ≡ is_name word.now }
{
    !word.is_empty() && word.len() < 17 && is_letter(word[0]) && are_name_bytes(word)
}

fn are_name_bytes(word: &[u8]) -> bool
    ensures { result ≡ list_all is_name_byte word.now }
{
    for b in word {
        if !is_name_byte(*b) {
            return false;
        }
    }
    true
}

fn is_letter(b: u8) -> bool
    ensures { result ≡ is_letter b }
{
    b'a' <= b && b <= b'z'
}

/// Whether a byte is one of the digits 0 to 9.
pub fn is_digit(b: u8) -> bool
    ensures { result ≡ is_digit b }
{
    b'0' <= b && b <= b'9'
}

fn is_name_byte(b: u8) -> bool
    ensures { result ≡ is_name_byte b }
{
    is_letter(b) || is_digit(b)
}

/// How a page is to be mapped.
pub fn mode(word: &[u8]) -> Result<Mode, Why>
    ensures { result ≡ mode word.now }
{
    if word == b"ro".as_slice() {
        return Ok(Mode::Ro);
    }
    if word == b"rw".as_slice() {
        return Ok(Mode::Rw);
    }
    Err(Why::Word)
}
