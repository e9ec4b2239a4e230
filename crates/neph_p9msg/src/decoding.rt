// Bytes to messages.
ghost use Rattle.std.specs.Prelude.{IfOk, IfSome};
ghost use Rattle.neph_p9msg.specs.Grammar.{IsFound, IsMessage};
ghost use Rattle.neph_p9msg.specs.Reading.{Gives, body_at, message_of, rattach_at, rerror_at, ropen_at, rread_at, rversion_at, rwalk_at, rwrite_at, kind_at, sized_at, tattach_at, tclunk_at, topen_at, tread_at, tversion_at, twalk_at, twrite_at};

use crate::fields::{
    ReadError, data_at, names_at, qid_at, qids_at, string_at, u8_at, u16_at, u32_at, u64_at,
};
use crate::kind::MsgType;
use crate::msg::{MSIZE, Msg, MsgBody, Qids};
use neph_base::{Bytes, Names, NoMemory};
use std::alloc::Global;

#[tactic(auto, unfolding(crate::specs::Reading::tversion_at))]
fn tversion_at(alloc: Global, bytes: &[u8]) -> Result<(MsgBody, &[u8]), ReadError>
    ensures { Gives (λ x. (x.0, x.1.now)) result (tversion_at bytes.now) }
{
    let (msize, rest) = u32_at(bytes)?;
    let (version, rest) = string_at(alloc, rest)?;
    let version = Bytes::of(version);
    Ok((MsgBody::Tversion { msize, version }, rest))
}

#[tactic(auto, unfolding(crate::specs::Reading::rversion_at))]
fn rversion_at(alloc: Global, bytes: &[u8]) -> Result<(MsgBody, &[u8]), ReadError>
    ensures { Gives (λ x. (x.0, x.1.now)) result (rversion_at bytes.now) }
{
    let (msize, rest) = u32_at(bytes)?;
    let (version, rest) = string_at(alloc, rest)?;
    let version = Bytes::of(version);
    Ok((MsgBody::Rversion { msize, version }, rest))
}

#[tactic(auto, unfolding(crate::specs::Reading::tattach_at))]
fn tattach_at(alloc: Global, bytes: &[u8]) -> Result<(MsgBody, &[u8]), ReadError>
    ensures { Gives (λ x. (x.0, x.1.now)) result (tattach_at bytes.now) }
{
    let (fid, rest) = u32_at(bytes)?;
    let (afid, rest) = u32_at(rest)?;
    let (uname, rest) = string_at(alloc, rest)?;
    let (aname, rest) = string_at(alloc, rest)?;
    let body = MsgBody::Tattach {
        fid,
        afid,
        uname: Bytes::of(uname),
        aname: Bytes::of(aname),
    };
    Ok((body, rest))
}

#[tactic(auto, unfolding(crate::specs::Reading::rattach_at))]
fn rattach_at(bytes: &[u8]) -> Result<(MsgBody, &[u8]), ReadError>
    ensures { Gives (λ x. (x.0, x.1.now)) result (rattach_at bytes.now) }
{
    let (qid, rest) = qid_at(bytes)?;
    Ok((MsgBody::Rattach { qid }, rest))
}

#[tactic(auto, unfolding(crate::specs::Reading::rerror_at))]
fn rerror_at(alloc: Global, bytes: &[u8]) -> Result<(MsgBody, &[u8]), ReadError>
    ensures { Gives (λ x. (x.0, x.1.now)) result (rerror_at bytes.now) }
{
    let (ename, rest) = string_at(alloc, bytes)?;
    let ename = Bytes::of(ename);
    Ok((MsgBody::Rerror { ename }, rest))
}

#[tactic(auto, unfolding(crate::specs::Reading::twalk_at))]
fn twalk_at(alloc: Global, bytes: &[u8]) -> Result<(MsgBody, &[u8]), ReadError>
    ensures { Gives (λ x. (x.0, x.1.now)) result (twalk_at bytes.now) }
{
    let (fid, rest) = u32_at(bytes)?;
    let (newfid, rest) = u32_at(rest)?;
    let (names, rest) = names_at(alloc, rest)?;
    let names = Names::of(names);
    Ok((MsgBody::Twalk { fid, newfid, names }, rest))
}

#[tactic(auto, unfolding(crate::specs::Reading::rwalk_at))]
fn rwalk_at(alloc: Global, bytes: &[u8]) -> Result<(MsgBody, &[u8]), ReadError>
    ensures { Gives (λ x. (x.0, x.1.now)) result (rwalk_at bytes.now) }
{
    let (qids, rest) = qids_at(alloc, bytes)?;
    let qids = Qids::of(qids);
    Ok((MsgBody::Rwalk { qids }, rest))
}

#[tactic(auto, unfolding(crate::specs::Reading::topen_at))]
fn topen_at(bytes: &[u8]) -> Result<(MsgBody, &[u8]), ReadError>
    ensures { Gives (λ x. (x.0, x.1.now)) result (topen_at bytes.now) }
{
    let (fid, rest) = u32_at(bytes)?;
    let (mode, rest) = u8_at(rest)?;
    Ok((MsgBody::Topen { fid, mode }, rest))
}

#[tactic(auto, unfolding(crate::specs::Reading::ropen_at))]
fn ropen_at(bytes: &[u8]) -> Result<(MsgBody, &[u8]), ReadError>
    ensures { Gives (λ x. (x.0, x.1.now)) result (ropen_at bytes.now) }
{
    let (qid, rest) = qid_at(bytes)?;
    let (iounit, rest) = u32_at(rest)?;
    Ok((MsgBody::Ropen { qid, iounit }, rest))
}

#[tactic(auto, unfolding(crate::specs::Reading::tread_at))]
fn tread_at(bytes: &[u8]) -> Result<(MsgBody, &[u8]), ReadError>
    ensures { Gives (λ x. (x.0, x.1.now)) result (tread_at bytes.now) }
{
    let (fid, rest) = u32_at(bytes)?;
    let (offset, rest) = u64_at(rest)?;
    let (count, rest) = u32_at(rest)?;
    Ok((MsgBody::Tread { fid, offset, count }, rest))
}

#[tactic(auto, unfolding(crate::specs::Reading::rread_at))]
fn rread_at(alloc: Global, bytes: &[u8]) -> Result<(MsgBody, &[u8]), ReadError>
    ensures { Gives (λ x. (x.0, x.1.now)) result (rread_at bytes.now) }
{
    let (read, rest) = data_at(alloc, bytes)?;
    let bytes = Bytes::of(read);
    Ok((MsgBody::Rread { bytes }, rest))
}

#[tactic(auto, unfolding(crate::specs::Reading::twrite_at))]
fn twrite_at(alloc: Global, bytes: &[u8]) -> Result<(MsgBody, &[u8]), ReadError>
    ensures { Gives (λ x. (x.0, x.1.now)) result (twrite_at bytes.now) }
{
    let (fid, rest) = u32_at(bytes)?;
    let (offset, rest) = u64_at(rest)?;
    let (put, rest) = data_at(alloc, rest)?;
    let bytes = Bytes::of(put);
    Ok((MsgBody::Twrite { fid, offset, bytes }, rest))
}

#[tactic(auto, unfolding(crate::specs::Reading::rwrite_at))]
fn rwrite_at(bytes: &[u8]) -> Result<(MsgBody, &[u8]), ReadError>
    ensures { Gives (λ x. (x.0, x.1.now)) result (rwrite_at bytes.now) }
{
    let (count, rest) = u32_at(bytes)?;
    Ok((MsgBody::Rwrite { count }, rest))
}

#[tactic(auto, unfolding(crate::specs::Reading::tclunk_at))]
fn tclunk_at(bytes: &[u8]) -> Result<(MsgBody, &[u8]), ReadError>
    ensures { Gives (λ x. (x.0, x.1.now)) result (tclunk_at bytes.now) }
{
    let (fid, rest) = u32_at(bytes)?;
    Ok((MsgBody::Tclunk { fid }, rest))
}

#[tactic(auto, unfolding(crate::specs::Reading::body_at))]
fn body_at(alloc: Global, kind: MsgType, bytes: &[u8]) -> Result<(MsgBody, &[u8]), ReadError>
    ensures { Gives (λ x. (x.0, x.1.now)) result (body_at kind bytes.now) }
{
    match kind {
        MsgType::Tversion => tversion_at(alloc, bytes),
        MsgType::Rversion => rversion_at(alloc, bytes),
        MsgType::Tattach => tattach_at(alloc, bytes),
        MsgType::Rattach => rattach_at(bytes),
        MsgType::Rerror => rerror_at(alloc, bytes),
        MsgType::Twalk => twalk_at(alloc, bytes),
        MsgType::Rwalk => rwalk_at(alloc, bytes),
        MsgType::Topen => topen_at(bytes),
        MsgType::Ropen => ropen_at(bytes),
        MsgType::Tread => tread_at(bytes),
        MsgType::Rread => rread_at(alloc, bytes),
        MsgType::Twrite => twrite_at(alloc, bytes),
        MsgType::Rwrite => rwrite_at(bytes),
        MsgType::Tclunk => tclunk_at(bytes),
        MsgType::Rclunk => Ok((MsgBody::Rclunk, bytes)),
    }
}

// What stands behind the size field.
#[tactic(auto, unfolding(crate::specs::Reading::sized_at))]
fn behind_size(bytes: &[u8]) -> Result<&[u8], ReadError>
    ensures { Gives (λ rest. rest.now) result (sized_at bytes.now) }
{
    let (size, rest) = u32_at(bytes)?;
    if size as usize != bytes.len() || MSIZE < bytes.len() {
        return Err(ReadError::NoMessage);
    }
    Ok(rest)
}

fn kind_of(code: u8) -> Result<MsgType, ReadError>
    ensures { Gives (λ kind. kind) result (kind_at code) }
{
    MsgType::of(code).ok_or(ReadError::NoMessage)
}

#[tactic(auto, unfolding(crate::specs::Reading::message_of))]
fn message(alloc: Global, bytes: &[u8]) -> Result<Msg, ReadError>
    ensures { Gives (λ m. m) result (message_of bytes.now) }
{
    let rest = behind_size(bytes)?;
    let (code, rest) = u8_at(rest)?;
    let kind = kind_of(code)?;
    let (tag, rest) = u16_at(rest)?;
    let (body, rest) = body_at(alloc, kind, rest)?;
    if !rest.is_empty() {
        return Err(ReadError::NoMessage);
    }
    Ok(Msg { tag, body })
}

/// The message that these bytes spell, all of them. `None` exactly where they spell none: the size
/// field isn't their number or is above [`MSIZE`], the type isn't one of 9P2000's that are built
/// here, a field passes the end, bytes are left, a qid's type or version is another, or too many
/// names are walked.
pub fn decode(alloc: Global, bytes: &[u8]) -> Result<Option<Msg>, NoMemory>
    ensures found { IfOk result (IsFound bytes.now) }
    ensures message { IfOk result (λ found. IfSome found IsMessage) }
{
    match message(alloc, bytes) {
        Ok(found) => Ok(Some(found)),
        Err(ReadError::NoMessage) => Ok(None),
        Err(ReadError::Memory) => Err(NoMemory),
    }
}
