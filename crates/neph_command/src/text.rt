// Words, numbers and bytes as text.
ghost use Rattle.std.specs.Prelude.{◌≡◌, ◌++◌, ◌<◌, ◌≤◌, length, OnOk};
ghost use Rattle.std.specs.Fmt.{decimal};
ghost use Rattle.neph_model.specs.Words.{hex, hex_digit};

use itoa::Buffer;
use neph_base::NoMemory;

/// Puts a word behind a text.
pub fn put_word(text: &mut Vec<u8>, word: &[u8]) -> Result<(), NoMemory>
    ensures { OnOk result (text.new.items ≡ text.old.items ++ word.now) }
{
    text.extend_from_slice(word)?;
    Ok(())
}

/// Puts a number in decimal.
#[tactic(auto, using(std::proofs::lemmas::Fmt::decimal_digit, crate::proofs::Numerals::two_digits))]
pub fn put_number(text: &mut Vec<u8>, n: u32) -> Result<(), NoMemory>
    ensures { OnOk result (text.new.items ≡ text.old.items ++ decimal n) }
{
    if n < 10 {
        text.push(b'0' + n as u8)?;
        return Ok(());
    }
    if n < 100 {
        return put_word(text, &[b'0' + (n / 10) as u8, b'0' + (n % 10) as u8]);
    }
    let mut digits = Buffer::new();
    put_word(text, digits.format(n).as_bytes())
}

/// Puts a word and then a number.
pub fn put_labelled(text: &mut Vec<u8>, label: &[u8], n: u32) -> Result<(), NoMemory>
    ensures { OnOk result (text.new.items ≡ text.old.items ++ (label.now ++ decimal n)) }
{
    text.extend_from_slice(label)?;
    put_number(text, n)
}

/// Puts at most 64 bytes with two hexadecimal digits for each.
pub fn put_hex(text: &mut Vec<u8>, bytes: &[u8]) -> Result<(), NoMemory>
    requires { length bytes.now ≤ 64 }
    ensures { OnOk result (text.new.items ≡ text.old.items ++ hex bytes.now) }
{
    let mut digits = [0u8; 128];
    for i in 0..bytes.len() {
        let byte = bytes[i];
        digits[2 * i] = digit_of(byte / 16);
        digits[2 * i + 1] = digit_of(byte % 16);
    }
    put_word(text, &digits[..2 * bytes.len()])
}

fn digit_of(n: u8) -> u8
    requires { n < 16 }
    ensures { result ≡ hex_digit n }
{
    n + if n < 10 { 48 } else { 87 }
}
