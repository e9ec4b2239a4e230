// The requests, one by one. An error changes nothing, and so does want of memory.
ghost use Rattle.std.specs.Prelude.{◌≡◌, ◌+◌, ◌-◌, ◌≤◌, ◌<◌, ◌^◌, ◌++◌, ◌==◌, if◌then◌else◌, IfOk, OnOk, replicate, length, map, take, drop, min, nat_lt};
ghost use Rattle.std.specs.List.{AllByRecursion};
ghost use Rattle.neph_p9msg.specs.Grammar.{IsBody};
ghost use Rattle.neph_p9srv.specs.Rules.{Obeys, IsReply, attach_rule, clunk_rule, new_fid_fault, open_rule, open_to as opened_rule, read_rule, rule, splice, version_answer, version_rule, walk_rule, walked as walked_rule, write_rule};
ghost use Rattle.neph_p9srv.specs.State.{end_of, qid_of, trail as spec_trail};

use crate::error::P9Error;
use crate::fid_map::{Fid, FidMap, MAX_FIDS, OpenMode};
use crate::tree::{ROOT, Tree};
use neph_base::{Bytes, Name, NoMemory};
use neph_p9msg::{MAXWELEM, MSIZE, MsgBody, NOFID, Qid, Qids};
use std::alloc::Global;

/// The most bytes that one Tread gives: what is left of a message behind its other fields.
pub const MAX_READ: usize = MSIZE - 11;

/// The most bytes of a file.
pub const MAX_FILE: usize = 4096;

// Why a number can't be a new fid.
fn new_fid_error(fids: &FidMap, fid: u32) -> Option<P9Error>
    ensures { result ≡ new_fid_fault fids.now fid }
{
    if fid == NOFID {
        Some(P9Error::BadFid)
    } else if fids.get(fid).is_some() {
        Some(P9Error::FidInUse)
    } else if fids.len() < MAX_FIDS {
        None
    } else {
        Some(P9Error::TooManyFids)
    }
}

fn spoken_version(version: &[u8]) -> &'static [u8]
    ensures { result.now ≡ version_answer version.now }
{
    if version == b"9P2000".as_slice() || version.starts_with(b"9P2000.") {
        b"9P2000"
    } else {
        b"unknown"
    }
}

#[tactic(auto, unfolding(crate::specs::Rules::version_rule))]
fn version(
    alloc: Global,
    tree: &Tree,
    fids: &mut FidMap,
    msize: u32,
    version: &[u8],
) -> Result<MsgBody, NoMemory>
    ensures does { Obeys (λ own. version_rule own msize version.now)
        tree.now fids.old tree.now fids.new result }
    ensures message { IfOk result IsReply }
{
    let version = Bytes::of(Vec::from_slice(alloc, spoken_version(version))?);
    *fids = FidMap::new(alloc);
    Ok(MsgBody::Rversion {
        msize: msize.min(MSIZE as u32),
        version,
    })
}

#[tactic(auto, unfolding(crate::specs::Rules::attach_rule))]
fn attach(
    alloc: Global,
    tree: &Tree,
    fids: &mut FidMap,
    fid: u32,
    afid: u32,
) -> Result<MsgBody, NoMemory>
    ensures does { Obeys (λ own. attach_rule own fid afid)
        tree.now fids.old tree.now fids.new result }
    ensures message { IfOk result IsReply }
{
    if afid != NOFID {
        return P9Error::NoAuth.answer(alloc);
    }
    if let Some(why) = new_fid_error(fids, fid) {
        return why.answer(alloc);
    }
    let root = Fid {
        node: ROOT,
        mode: None,
    };
    fids.insert(fid, root)?;
    let qid = tree.qid(ROOT);
    Ok(MsgBody::Rattach { qid })
}

// The nodes to which the names lead, until one leads nowhere, and the last of them.
fn trail(alloc: Global, tree: &Tree, at: u32, names: &[Name]) -> Result<(Vec<Qid>, u32), NoMemory>
    ensures qids { IfOk result (λ r.
        r.0.items ≡ map (qid_of tree.now) (spec_trail tree.now at names.now)) }
    ensures end { IfOk result (λ r. r.1 ≡ end_of at (spec_trail tree.now at names.now)) }
    ensures fits { IfOk result (λ r. AllByRecursion (λ q. q.path < 256 ^ 8) r.0.items) }
    ensures most { IfOk result (λ r. length r.0.items ≤ length names.now) }
{
    let mut qids = Vec::new(alloc);
    let mut last = at;
    for name in names {
        match tree.next(last, name.items()) {
            None => return Ok((qids, last)),
            Some(n) => {
                qids.push(tree.qid(n))?;
                last = n;
            }
        }
    }
    Ok((qids, last))
}

#[tactic(auto, unfolding(crate::specs::Rules::walked))]
fn walked(
    alloc: Global,
    tree: &Tree,
    fids: &mut FidMap,
    newfid: u32,
    at: u32,
    names: &[Name],
) -> Result<MsgBody, NoMemory>
    requires { length names.now ≤ MAXWELEM }
    ensures does { Obeys (λ own. walked_rule own newfid at names.now)
        tree.now fids.old tree.now fids.new result }
    ensures message { IfOk result IsReply }
{
    let (qids, last) = trail(alloc, tree, at, names)?;
    if qids.len() == names.len() {
        let there = Fid {
            node: last,
            mode: None,
        };
        fids.insert(newfid, there)?;
        Ok(MsgBody::Rwalk {
            qids: Qids::of(qids),
        })
    } else if qids.is_empty() {
        P9Error::NoSuchFile.answer(alloc)
    } else {
        Ok(MsgBody::Rwalk {
            qids: Qids::of(qids),
        })
    }
}

fn target_error(fids: &FidMap, fid: u32, newfid: u32) -> Option<P9Error>
    ensures { result ≡ (if newfid == fid then None else new_fid_fault fids.now newfid) }
{
    if newfid == fid {
        None
    } else {
        new_fid_error(fids, newfid)
    }
}

#[tactic(auto, unfolding(crate::specs::Rules::walk_rule))]
fn walk(
    alloc: Global,
    tree: &Tree,
    fids: &mut FidMap,
    fid: u32,
    newfid: u32,
    names: &[Name],
) -> Result<MsgBody, NoMemory>
    requires { length names.now ≤ MAXWELEM }
    ensures does { Obeys (λ own. walk_rule own fid newfid names.now)
        tree.now fids.old tree.now fids.new result }
    ensures message { IfOk result IsReply }
{
    let Some(from) = fids.get(fid) else {
        return P9Error::UnknownFid.answer(alloc);
    };
    if from.mode.is_some() {
        return P9Error::FidOpen.answer(alloc);
    }
    if let Some(why) = target_error(fids, fid, newfid) {
        return why.answer(alloc);
    }
    walked(alloc, tree, fids, newfid, from.node, names)
}

// A fid as it is open after a Topen.
fn opened(
    alloc: Global,
    tree: &Tree,
    fids: &mut FidMap,
    fid: u32,
    to: Fid,
) -> Result<MsgBody, NoMemory>
    ensures does { Obeys (λ own. opened_rule own fid to)
        tree.now fids.old tree.now fids.new result }
    ensures message { IfOk result IsReply }
{
    let qid = tree.qid(to.node);
    if qid.dir && to.writes() {
        return P9Error::IsADirectory.answer(alloc);
    }
    fids.insert(fid, to)?;
    Ok(MsgBody::Ropen { qid, iounit: 0 })
}

#[tactic(auto, unfolding(crate::specs::Rules::open_rule))]
fn open(
    alloc: Global,
    tree: &Tree,
    fids: &mut FidMap,
    fid: u32,
    mode: u8,
) -> Result<MsgBody, NoMemory>
    ensures does { Obeys (λ own. open_rule own fid mode)
        tree.now fids.old tree.now fids.new result }
    ensures message { IfOk result IsReply }
{
    let Some(from) = fids.get(fid) else {
        return P9Error::UnknownFid.answer(alloc);
    };
    if from.mode.is_some() {
        return P9Error::FidOpen.answer(alloc);
    }
    let Some(mode) = OpenMode::of(mode) else {
        return P9Error::BadMode.answer(alloc);
    };
    let to = Fid {
        node: from.node,
        mode: Some(mode),
    };
    opened(alloc, tree, fids, fid, to)
}

// The bytes from an offset on, so many and no more than fit a message.
fn piece_of(bytes: &[u8], offset: u64, count: u32) -> &[u8]
    ensures value { result.now ≡ take (min count MAX_READ) (drop offset bytes.now) }
    ensures most { length result.now ≤ MAX_READ }
{
    if offset >= bytes.len() as u64 {
        return &[];
    }
    let rest = &bytes[offset as usize..];
    let most = (count as usize).min(MAX_READ);
    if rest.len() <= most {
        rest
    } else {
        &rest[..most]
    }
}

#[tactic(auto, unfolding(crate::specs::Rules::read_rule))]
fn read(
    alloc: Global,
    tree: &Tree,
    fids: &FidMap,
    fid: u32,
    offset: u64,
    count: u32,
) -> Result<MsgBody, NoMemory>
    ensures does { Obeys (λ own. read_rule own fid offset count)
        tree.now fids.now tree.now fids.now result }
    ensures message { IfOk result IsReply }
{
    let Some(from) = fids.get(fid) else {
        return P9Error::UnknownFid.answer(alloc);
    };
    if !from.reads() {
        return P9Error::NotOpenForReading.answer(alloc);
    }
    let Some(bytes) = tree.body(from.node) else {
        return P9Error::IsADirectory.answer(alloc);
    };
    let bytes = Bytes::of(Vec::from_slice(alloc, piece_of(bytes, offset, count))?);
    Ok(MsgBody::Rread { bytes })
}

fn is_too_large(offset: u64, len: usize) -> bool
    ensures { result ≡ nat_lt MAX_FILE (offset + len) }
{
    match offset.checked_add(len as u64) {
        None => true,
        Some(end) => (MAX_FILE as u64) < end,
    }
}

// Adds zeros up to a length.
fn pad(bytes: &mut Vec<u8>, to: usize) -> Result<(), NoMemory>
    ensures { OnOk result (bytes.new.items
        ≡ bytes.old.items ++ replicate (to - length bytes.old.items) 0) }
{
    let missing = to.saturating_sub(bytes.len());
    for _ in 0..missing {
        bytes.push(0)?;
    }
    Ok(())
}

#[tactic(auto, unfolding(crate::specs::Rules::splice))]
fn spliced(alloc: Global, old: &[u8], offset: usize, bytes: &[u8]) -> Result<Vec<u8>, NoMemory>
    requires { offset + length bytes.now ≤ MAX_FILE }
    ensures { IfOk result (λ v. v.items ≡ splice old.now offset bytes.now) }
{
    if bytes.is_empty() {
        return Ok(Vec::from_slice(alloc, old)?);
    }
    let mut new = Vec::from_slice(alloc, &old[..offset.min(old.len())])?;
    pad(&mut new, offset)?;
    new.extend_from_slice(bytes)?;
    new.extend_from_slice(&old[(offset + bytes.len()).min(old.len())..])?;
    Ok(new)
}

#[tactic(auto, unfolding(crate::specs::Rules::write_rule))]
fn write(
    alloc: Global,
    tree: &mut Tree,
    fids: &FidMap,
    fid: u32,
    offset: u64,
    bytes: &[u8],
) -> Result<MsgBody, NoMemory>
    ensures does { Obeys (λ own. write_rule own fid offset bytes.now)
        tree.old fids.now tree.new fids.now result }
    ensures message { IfOk result IsReply }
{
    let Some(from) = fids.get(fid) else {
        return P9Error::UnknownFid.answer(alloc);
    };
    if !from.writes() {
        return P9Error::NotOpenForWriting.answer(alloc);
    }
    if is_too_large(offset, bytes.len()) {
        return P9Error::FileTooLarge.answer(alloc);
    }
    let Some(old) = tree.body(from.node) else {
        return P9Error::IsADirectory.answer(alloc);
    };
    let new = Bytes::of(spliced(alloc, old, offset as usize, bytes)?);
    tree.put(from.node, new);
    Ok(MsgBody::Rwrite {
        count: bytes.len() as u32,
    })
}

#[tactic(auto, unfolding(crate::specs::Rules::clunk_rule))]
fn clunk(alloc: Global, tree: &Tree, fids: &mut FidMap, fid: u32) -> Result<MsgBody, NoMemory>
    ensures does { Obeys (λ own. clunk_rule own fid)
        tree.now fids.old tree.now fids.new result }
    ensures message { IfOk result IsReply }
{
    if fids.get(fid).is_none() {
        return P9Error::UnknownFid.answer(alloc);
    }
    fids.remove(fid);
    Ok(MsgBody::Rclunk)
}

/// Does what a request asks of one domain.
#[tactic(auto, unfolding(crate::specs::Rules::rule))]
pub fn handle(
    alloc: Global,
    tree: &mut Tree,
    fids: &mut FidMap,
    body: &MsgBody,
) -> Result<MsgBody, NoMemory>
    requires { IsBody body.now }
    ensures does { Obeys (λ own. rule own body.now)
        tree.old fids.old tree.new fids.new result }
    ensures message { IfOk result IsReply }
{
    match body {
        MsgBody::Tversion { msize, version: v } => version(alloc, tree, fids, *msize, v.items()),
        MsgBody::Tattach { fid, afid, .. } => attach(alloc, tree, fids, *fid, *afid),
        MsgBody::Twalk { fid, newfid, names } => {
            walk(alloc, tree, fids, *fid, *newfid, names.items())
        }
        MsgBody::Topen { fid, mode } => open(alloc, tree, fids, *fid, *mode),
        MsgBody::Tread { fid, offset, count } => read(alloc, tree, fids, *fid, *offset, *count),
        MsgBody::Twrite { fid, offset, bytes } => {
            write(alloc, tree, fids, *fid, *offset, bytes.items())
        }
        MsgBody::Tclunk { fid } => clunk(alloc, tree, fids, *fid),
        MsgBody::Rversion { .. }
        | MsgBody::Rattach { .. }
        | MsgBody::Rerror { .. }
        | MsgBody::Rwalk { .. }
        | MsgBody::Ropen { .. }
        | MsgBody::Rread { .. }
        | MsgBody::Rwrite { .. }
        | MsgBody::Rclunk => P9Error::BadMessage.answer(alloc),
    }
}
