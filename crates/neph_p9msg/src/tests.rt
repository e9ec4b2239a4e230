// The messages of the manual byte for byte, what is no message, the largest ones, and a few
// thousand at random.
use crate::{decode, encode};
use neph_base::NoMemory;
use std::alloc::Global;
use std::test::Fail;

// A message, its tag and the number of its type.
const MESSAGES: [(&[u8], u16, u8); 16] = [
    (
        b"\x13\x00\x00\x00\x68\x01\x00\x00\x00\x00\x00\xff\xff\xff\xff\x00\x00\x00\x00",
        1,
        104,
    ),
    (
        b"\x14\x00\x00\x00\x69\x01\x00\x80\x00\x00\x00\x00\x00\x00\x00\x00\x00\x00\x00\x00",
        1,
        105,
    ),
    (
        b"\x14\x00\x00\x00\x6e\x02\x00\x00\x00\x00\x00\x01\x00\x00\x00\x01\x00\x01\x00\x61",
        2,
        110,
    ),
    (
        b"\x16\x00\x00\x00\x6f\x02\x00\x01\x00\x00\x00\x00\x00\x00\x01\x00\x00\x00\x00\x00\x00\x00",
        2,
        111,
    ),
    (b"\x0c\x00\x00\x00\x70\x03\x00\x01\x00\x00\x00\x00", 3, 112),
    (
        b"\x18\x00\x00\x00\x71\x03\x00\x00\x00\x00\x00\x00\x01\x00\x00\x00\x00\x00\x00\x00\x00\x00\x00\x00",
        3,
        113,
    ),
    (
        b"\x17\x00\x00\x00\x74\x04\x00\x01\x00\x00\x00\x00\x00\x00\x00\x00\x00\x00\x00\x05\x00\x00\x00",
        4,
        116,
    ),
    (
        b"\x10\x00\x00\x00\x75\x04\x00\x05\x00\x00\x00\x68\x65\x6c\x6c\x6f",
        4,
        117,
    ),
    (b"\x0b\x00\x00\x00\x78\x05\x00\x09\x00\x00\x00", 5, 120),
    (
        b"\x14\x00\x00\x00\x6b\x05\x00\x0b\x00\x75\x6e\x6b\x6e\x6f\x77\x6e\x20\x66\x69\x64",
        5,
        107,
    ),
    (
        b"\x13\x00\x00\x00\x64\xff\xff\x00\x04\x00\x00\x06\x00\x39\x50\x32\x30\x30\x30",
        65535,
        100,
    ),
    (
        b"\x13\x00\x00\x00\x65\xff\xff\x00\x04\x00\x00\x06\x00\x39\x50\x32\x30\x30\x30",
        65535,
        101,
    ),
    (
        b"\x1c\x00\x00\x00\x76\x06\x00\x01\x00\x00\x00\x09\x00\x00\x00\x00\x00\x00\x00\x05\x00\x00\x00\x68\x65\x6c\x6c\x6f",
        6,
        118,
    ),
    (b"\x0b\x00\x00\x00\x77\x06\x00\x05\x00\x00\x00", 6, 119),
    (b"\x07\x00\x00\x00\x79\x07\x00", 7, 121),
    (
        b"\x31\x00\x00\x00\x6e\x01\x00\x00\x00\x00\x00\x01\x00\x00\x00\x10\x00\x00\x00\x00\x00\x00\x00\x00\x00\x00\x00\x00\x00\x00\x00\x00\x00\x00\x00\x00\x00\x00\x00\x00\x00\x00\x00\x00\x00\x00\x00\x00\x00",
        1,
        110,
    ),
];

// Bytes that are no message, and why.
const NO_MESSAGES: [(&[u8], &str); 16] = [
    (b"", "nothing"),
    (b"\x07\x00\x00", "less than a size"),
    (b"\x08\x00\x00\x00\x79\x07\x00", "a size too large by one"),
    (b"\x06\x00\x00\x00\x79\x07", "a size too small for a tag"),
    (
        b"\x07\x00\x00\x00\x79\x07\x00\x00",
        "a byte behind the message",
    ),
    (
        b"\x08\x00\x00\x00\x79\x07\x00\x00",
        "a byte behind an empty body",
    ),
    (b"\x07\x00\x00\x00\x06\x07\x00", "a type that is no message"),
    (b"\x07\x00\x00\x00\x66\x00\x00", "Tauth"),
    (
        b"\x14\x00\x00\x00\x6b\x05\x00\x0c\x00\x75\x6e\x6b\x6e\x6f\x77\x6e\x20\x66\x69\x64",
        "a string that passes the end",
    ),
    (
        b"\x14\x00\x00\x00\x6b\x05\x00\x0a\x00\x75\x6e\x6b\x6e\x6f\x77\x6e\x20\x66\x69\x64",
        "a string that ends before the end",
    ),
    (
        b"\x14\x00\x00\x00\x6e\x02\x00\x00\x00\x00\x00\x01\x00\x00\x00\x02\x00\x01\x00\x61",
        "fewer names than are said",
    ),
    (
        b"\x14\x00\x00\x00\x69\x01\x00\x01\x00\x00\x00\x00\x00\x00\x00\x00\x00\x00\x00\x00",
        "a qid that is neither a directory nor a file",
    ),
    (
        b"\x14\x00\x00\x00\x69\x01\x00\x80\x01\x00\x00\x00\x00\x00\x00\x00\x00\x00\x00\x00",
        "a qid of another version",
    ),
    (
        b"\x10\x00\x00\x00\x75\x04\x00\x06\x00\x00\x00\x68\x65\x6c\x6c\x6f",
        "fewer bytes than are said",
    ),
    (
        b"\x0c\x00\x00\x00\x70\x03\x00\x01\x00\x00\x00\x01\xff",
        "an Topen with a byte too many",
    ),
    (
        b"\x33\x00\x00\x00\x6e\x01\x00\x00\x00\x00\x00\x01\x00\x00\x00\x11\x00\x00\x00\x00\x00\x00\x00\x00\x00\x00\x00\x00\x00\x00\x00\x00\x00\x00\x00\x00\x00\x00\x00\x00\x00\x00\x00\x00\x00\x00\x00\x00\x00\x00\x00",
        "seventeen names",
    ),
];

// What the message in these bytes is written as.
fn written_again(alloc: Global, bytes: &[u8]) -> Result<Option<Vec<u8>>, NoMemory> {
    match decode(alloc, bytes)? {
        None => Ok(None),
        Some(m) => {
            let mut into = Vec::new(alloc);
            encode(&m, &mut into)?;
            Ok(Some(into))
        }
    }
}

#[test]
fn each_message_is_read_and_written_again(rt: HostRuntime) -> Result<(), Fail> {
    for (bytes, tag, code) in &MESSAGES {
        let m = decode(rt.alloc(), bytes)?.ok_or("no message")?;
        assert_eq!(rt; m.tag, *tag);
        assert_eq!(rt; m.body.code(), *code);
        let again = written_again(rt.alloc(), bytes)?.ok_or("no message")?;
        assert!(rt; again.as_slice() == *bytes);
    }
    Ok(())
}

#[test]
fn what_is_no_message(rt: HostRuntime) -> Result<(), Fail> {
    for (bytes, why) in &NO_MESSAGES {
        let found = decode(rt.alloc(), bytes)?;
        assert!(rt; found.is_none(), "{why}");
    }
    Ok(())
}

#[test]
fn the_largest_messages(rt: HostRuntime) -> Result<(), Fail> {
    // A read of 1,013 bytes, and a walk to 78 nodes, which is one byte short of the most.
    let read: &[u8] = b"\x00\x04\x00\x00\x75\x09\x00\xf5\x03\x00\x00";
    let walk: &[u8] = b"\xff\x03\x00\x00\x6f\x09\x00\x4e\x00";
    for (front, rest) in [(read, 1013), (walk, 78 * 13)] {
        let mut bytes = Vec::from_slice(rt.alloc(), front)?;
        for _ in 0..rest {
            bytes.push(0)?;
        }
        let again = written_again(rt.alloc(), bytes.as_slice())?.ok_or("no message")?;
        assert!(rt; again.as_slice() == bytes.as_slice());
        bytes.push(0)?;
        assert!(rt; decode(rt.alloc(), bytes.as_slice())?.is_none());
    }
    Ok(())
}

// Messages with one byte changed: what is still one is written as it was read.
#[test]
fn changed_messages(rt: HostRuntime) -> Result<(), Fail> {
    let mut state: u32 = 1;
    let mut found: u32 = 0;
    for (bytes, _, _) in &MESSAGES {
        for _ in 0..200 {
            state = state.wrapping_mul(1_664_525).wrapping_add(1_013_904_223);
            let mut changed = Vec::from_slice(rt.alloc(), bytes)?;
            let at = (state >> 8) as usize;
            if !changed.is_empty() {
                let place = at % changed.len();
                changed[place] = (state >> 24) as u8;
            }
            if let Some(again) = written_again(rt.alloc(), changed.as_slice())? {
                found = found.wrapping_add(1);
                assert!(rt; again.as_slice() == changed.as_slice());
            }
        }
    }
    assert!(rt; found > 500);
    Ok(())
}
