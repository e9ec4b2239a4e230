// The fields of messages, read from the front of bytes.
ghost use Rattle.std.specs.Prelude.{◌≡◌};
ghost use Rattle.neph_p9msg.specs.Reading.{Gives, byte_at, bytes_at, counted_at, dir_of, many_at, names_at, number_at, qid_at, qids_at, version_at};
ghost use Rattle.neph_p9msg.specs.declared.fields.ReadError.TheVariants.{Memory};

use crate::msg::{MAXWELEM, QTDIR, QTFILE, Qid};
use byteorder::{ByteOrder, LittleEndian};
use neph_base::{Bytes, Name};
use std::alloc::{AllocError, AllocFailed, Global};

/// Why nothing was read.
#[derive(Debug, Drop)]
pub enum ReadError {
    /// Want of memory.
    Memory,
    /// The bytes are no message.
    NoMessage,
}

impl From<AllocError> for ReadError {
    ghost from_gives = { λ _ e. e ≡ Memory };

    fn from(_error: AllocError) -> ReadError {
        ReadError::Memory
    }
}

impl<T: Drop> From<AllocFailed<T>> for ReadError {
    ghost from_gives = { λ _ e. e ≡ Memory };

    fn from(_error: AllocFailed<T>) -> ReadError {
        ReadError::Memory
    }
}

/// One byte, and the bytes behind it.
#[tactic(auto, unfolding(crate::specs::Reading::byte_at))]
pub fn u8_at(bytes: &[u8]) -> Result<(u8, &[u8]), ReadError>
    ensures { Gives (λ x. (x.0, x.1.now)) result (byte_at bytes.now) }
{
    match bytes {
        [] => Err(ReadError::NoMessage),
        [byte, rest @ ..] => Ok((*byte, rest)),
    }
}

/// A number of two bytes, and the bytes behind it.
pub fn u16_at(bytes: &[u8]) -> Result<(u16, &[u8]), ReadError>
    ensures { Gives (λ x. (x.0, x.1.now)) result (number_at 2 bytes.now) }
{
    if bytes.len() < 2 {
        return Err(ReadError::NoMessage);
    }
    Ok((LittleEndian::read_u16(bytes), &bytes[2..]))
}

/// A number of four bytes, and the bytes behind it.
pub fn u32_at(bytes: &[u8]) -> Result<(u32, &[u8]), ReadError>
    ensures { Gives (λ x. (x.0, x.1.now)) result (number_at 4 bytes.now) }
{
    if bytes.len() < 4 {
        return Err(ReadError::NoMessage);
    }
    Ok((LittleEndian::read_u32(bytes), &bytes[4..]))
}

/// A number of eight bytes, and the bytes behind it.
pub fn u64_at(bytes: &[u8]) -> Result<(u64, &[u8]), ReadError>
    ensures { Gives (λ x. (x.0, x.1.now)) result (number_at 8 bytes.now) }
{
    if bytes.len() < 8 {
        return Err(ReadError::NoMessage);
    }
    Ok((LittleEndian::read_u64(bytes), &bytes[8..]))
}

#[tactic(auto, unfolding(crate::specs::Reading::bytes_at))]
fn bytes_of(alloc: Global, len: usize, bytes: &[u8]) -> Result<(Vec<u8>, &[u8]), ReadError>
    ensures { Gives (λ x. (x.0.items, x.1.now)) result (bytes_at len bytes.now) }
{
    if bytes.len() < len {
        return Err(ReadError::NoMessage);
    }
    let (front, rest) = bytes.split_at(len);
    Ok((Vec::from_slice(alloc, front)?, rest))
}

/// A string, and the bytes behind it.
#[tactic(auto, unfolding(crate::specs::Reading::counted_at))]
pub fn string_at(alloc: Global, bytes: &[u8]) -> Result<(Vec<u8>, &[u8]), ReadError>
    ensures { Gives (λ x. (x.0.items, x.1.now)) result (counted_at 2 bytes.now) }
{
    let (len, rest) = u16_at(bytes)?;
    bytes_of(alloc, len as usize, rest)
}

/// The bytes that are read or put, and the bytes behind them.
#[tactic(auto, unfolding(crate::specs::Reading::counted_at))]
pub fn data_at(alloc: Global, bytes: &[u8]) -> Result<(Vec<u8>, &[u8]), ReadError>
    ensures { Gives (λ x. (x.0.items, x.1.now)) result (counted_at 4 bytes.now) }
{
    let (len, rest) = u32_at(bytes)?;
    bytes_of(alloc, len as usize, rest)
}

#[tactic(auto, unfolding(crate::specs::Reading::dir_of))]
fn dir_of(byte: u8) -> Result<bool, ReadError>
    ensures { Gives (λ b. b) result (dir_of byte) }
{
    match byte {
        QTDIR => Ok(true),
        QTFILE => Ok(false),
        _ => Err(ReadError::NoMessage),
    }
}

// A qid's version must be 0.
#[tactic(auto, unfolding(crate::specs::Reading::version_at))]
fn behind_version(bytes: &[u8]) -> Result<&[u8], ReadError>
    ensures { Gives (λ rest. rest.now) result (version_at bytes.now) }
{
    let (version, rest) = u32_at(bytes)?;
    if version == 0 {
        Ok(rest)
    } else {
        Err(ReadError::NoMessage)
    }
}

/// A qid, and the bytes behind it.
#[tactic(auto, unfolding(crate::specs::Reading::qid_at))]
pub fn qid_at(bytes: &[u8]) -> Result<(Qid, &[u8]), ReadError>
    ensures { Gives (λ x. (x.0, x.1.now)) result (qid_at bytes.now) }
{
    let (byte, rest) = u8_at(bytes)?;
    let dir = dir_of(byte)?;
    let rest = behind_version(rest)?;
    let (path, rest) = u64_at(rest)?;
    Ok((Qid { dir, path }, rest))
}

fn some_names(alloc: Global, n: u16, bytes: &[u8]) -> Result<(Vec<Name>, &[u8]), ReadError>
    ensures { Gives (λ x. (x.0.items, x.1.now)) result (many_at (counted_at 2) n bytes.now) }
{
    let mut names = Vec::new(alloc);
    let mut rest = bytes;
    for _ in 0..n {
        let (name, behind) = string_at(alloc, rest)?;
        names.push(Bytes::of(name))?;
        rest = behind;
    }
    Ok((names, rest))
}

/// Names behind their count, at most [`MAXWELEM`], and the bytes behind them.
#[tactic(auto, unfolding(crate::specs::Reading::names_at))]
pub fn names_at(alloc: Global, bytes: &[u8]) -> Result<(Vec<Name>, &[u8]), ReadError>
    ensures { Gives (λ x. (x.0.items, x.1.now)) result (names_at bytes.now) }
{
    let (n, rest) = u16_at(bytes)?;
    if MAXWELEM < n as usize {
        return Err(ReadError::NoMessage);
    }
    some_names(alloc, n, rest)
}

fn some_qids(alloc: Global, n: u16, bytes: &[u8]) -> Result<(Vec<Qid>, &[u8]), ReadError>
    ensures { Gives (λ x. (x.0.items, x.1.now)) result (many_at qid_at n bytes.now) }
{
    let mut qids = Vec::new(alloc);
    let mut rest = bytes;
    for _ in 0..n {
        let (qid, behind) = qid_at(rest)?;
        qids.push(qid)?;
        rest = behind;
    }
    Ok((qids, rest))
}

/// Qids behind their count, and the bytes behind them.
#[tactic(auto, unfolding(crate::specs::Reading::qids_at))]
pub fn qids_at(alloc: Global, bytes: &[u8]) -> Result<(Vec<Qid>, &[u8]), ReadError>
    ensures { Gives (λ x. (x.0.items, x.1.now)) result (qids_at bytes.now) }
{
    let (n, rest) = u16_at(bytes)?;
    some_qids(alloc, n, rest)
}
