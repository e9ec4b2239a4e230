// Messages to bytes.
ghost use Rattle.std.specs.Prelude.{◌≡◌, ◌+◌, ◌≤◌, ◌∷◌, ◌++◌, [], IsOk, OnOk, OnErr, length, vec_len, vec_capacity};
ghost use Rattle.std.specs.List.{flat_map, AllByRecursion};
ghost use Rattle.neph_p9msg.specs.Grammar.{number, string, payload, series, qid, qid_type, body_bytes, bytes_of, IsString, IsBody, IsMessage, Fits};

use crate::draft::Draft;
use crate::msg::{MAXWELEM, MSIZE, Msg, MsgBody, QTDIR, QTFILE, Qid};
use neph_base::{Name, NoMemory};

fn put_string(draft: &mut Draft, text: &[u8])
    requires text { IsString text.now }
    requires room { length draft.old + length (string text.now) ≤ MSIZE }
    ensures { draft.new ≡ draft.old ++ string text.now }
{
    draft.put_u16(text.len() as u16);
    draft.put(text);
}

fn put_payload(draft: &mut Draft, bytes: &[u8])
    requires { length draft.old + length (payload bytes.now) ≤ MSIZE }
    ensures { draft.new ≡ draft.old ++ payload bytes.now }
{
    draft.put_u32(bytes.len() as u32);
    draft.put(bytes);
}

fn qid_byte(dir: bool) -> u8
    ensures { result ≡ qid_type dir }
{
    if dir { QTDIR } else { QTFILE }
}

fn put_qid(draft: &mut Draft, q: Qid)
    requires { length draft.old + 13 ≤ MSIZE }
    ensures { draft.new ≡ draft.old ++ qid q }
{
    draft.put(&[qid_byte(q.dir)]);
    draft.put_u32(0);
    draft.put_u64(q.path);
}

fn put_names(draft: &mut Draft, names: &[Name])
    requires each { AllByRecursion IsString names.now }
    requires room { length draft.old + length (flat_map string names.now) ≤ MSIZE }
    ensures { draft.new ≡ draft.old ++ flat_map string names.now }
{
    for name in names {
        put_string(draft, name.items());
    }
}

fn put_qids(draft: &mut Draft, qids: &[Qid])
    requires { length draft.old + length (flat_map qid qids.now) ≤ MSIZE }
    ensures { draft.new ≡ draft.old ++ flat_map qid qids.now }
{
    for q in qids {
        put_qid(draft, *q);
    }
}

fn put_version(draft: &mut Draft, msize: u32, version: &[u8])
    requires text { IsString version.now }
    requires room { length draft.old + length (number 4 msize ++ string version.now) ≤ MSIZE }
    ensures { draft.new ≡ draft.old ++ (number 4 msize ++ string version.now) }
{
    draft.put_u32(msize);
    put_string(draft, version);
}

fn put_attach(draft: &mut Draft, fid: u32, afid: u32, uname: &[u8], aname: &[u8])
    requires user { IsString uname.now }
    requires tree { IsString aname.now }
    requires room { length draft.old
        + length (body_bytes (MsgBody.Tattach fid afid uname.now aname.now)) ≤ MSIZE }
    ensures { draft.new
        ≡ draft.old ++ body_bytes (MsgBody.Tattach fid afid uname.now aname.now) }
{
    draft.put_u32(fid);
    draft.put_u32(afid);
    put_string(draft, uname);
    put_string(draft, aname);
}

fn put_walk(draft: &mut Draft, fid: u32, newfid: u32, names: &[Name])
    requires most { length names.now ≤ MAXWELEM }
    requires each { AllByRecursion IsString names.now }
    requires room { length draft.old + length (body_bytes (MsgBody.Twalk fid newfid names.now))
        ≤ MSIZE }
    ensures { draft.new ≡ draft.old ++ body_bytes (MsgBody.Twalk fid newfid names.now) }
{
    draft.put_u32(fid);
    draft.put_u32(newfid);
    draft.put_u16(names.len() as u16);
    put_names(draft, names);
}

fn put_write(draft: &mut Draft, fid: u32, offset: u64, bytes: &[u8])
    requires { length draft.old + length (body_bytes (MsgBody.Twrite fid offset bytes.now))
        ≤ MSIZE }
    ensures { draft.new ≡ draft.old ++ body_bytes (MsgBody.Twrite fid offset bytes.now) }
{
    draft.put_u32(fid);
    draft.put_u64(offset);
    put_payload(draft, bytes);
}

fn put_read(draft: &mut Draft, fid: u32, offset: u64, count: u32)
    requires { length draft.old + 16 ≤ MSIZE }
    ensures { draft.new ≡ draft.old ++ (number 4 fid ++ number 8 offset ++ number 4 count) }
{
    draft.put_u32(fid);
    draft.put_u64(offset);
    draft.put_u32(count);
}

fn put_open(draft: &mut Draft, fid: u32, mode: u8)
    requires { length draft.old + 5 ≤ MSIZE }
    ensures { draft.new ≡ draft.old ++ (number 4 fid ++ mode ∷ []) }
{
    draft.put_u32(fid);
    draft.put(&[mode]);
}

fn put_opened(draft: &mut Draft, q: Qid, iounit: u32)
    requires { length draft.old + 17 ≤ MSIZE }
    ensures { draft.new ≡ draft.old ++ (qid q ++ number 4 iounit) }
{
    put_qid(draft, q);
    draft.put_u32(iounit);
}

fn put_walked(draft: &mut Draft, qids: &[Qid])
    requires count { Fits 2 (length qids.now) }
    requires room { length draft.old + length (series qid qids.now) ≤ MSIZE }
    ensures { draft.new ≡ draft.old ++ series qid qids.now }
{
    draft.put_u16(qids.len() as u16);
    put_qids(draft, qids);
}

fn put_body(draft: &mut Draft, body: &MsgBody)
    requires body { IsBody body.now }
    requires room { length draft.old + length (body_bytes body.now) ≤ MSIZE }
    ensures { draft.new ≡ draft.old ++ body_bytes body.now }
{
    match body {
        MsgBody::Tversion { msize, version } => put_version(draft, *msize, version.items()),
        MsgBody::Rversion { msize, version } => put_version(draft, *msize, version.items()),
        MsgBody::Tattach {
            fid,
            afid,
            uname,
            aname,
        } => {
            put_attach(draft, *fid, *afid, uname.items(), aname.items());
        }
        MsgBody::Rattach { qid } => put_qid(draft, *qid),
        MsgBody::Rerror { ename } => put_string(draft, ename.items()),
        MsgBody::Twalk { fid, newfid, names } => put_walk(draft, *fid, *newfid, names.items()),
        MsgBody::Rwalk { qids } => put_walked(draft, qids.items()),
        MsgBody::Topen { fid, mode } => put_open(draft, *fid, *mode),
        MsgBody::Ropen { qid, iounit } => put_opened(draft, *qid, *iounit),
        MsgBody::Tread { fid, offset, count } => put_read(draft, *fid, *offset, *count),
        MsgBody::Rread { bytes } => put_payload(draft, bytes.items()),
        MsgBody::Twrite { fid, offset, bytes } => put_write(draft, *fid, *offset, bytes.items()),
        MsgBody::Rwrite { count } => draft.put_u32(*count),
        MsgBody::Tclunk { fid } => draft.put_u32(*fid),
        MsgBody::Rclunk => {}
    }
}

fn draft_of(m: &Msg) -> Draft
    requires { IsMessage m.now }
    ensures { result ≡ bytes_of m.now }
{
    let mut draft = Draft::new();
    draft.put_u32(0);
    draft.put(&[m.body.code()]);
    draft.put_u16(m.tag);
    put_body(&mut draft, &m.body);
    draft.seal();
    draft
}

/// Appends the bytes of a message. Where `into` has room for [`MSIZE`] bytes more it is never short
/// of memory; after `NoMemory` it is as before.
pub fn encode(m: &Msg, into: &mut Vec<u8>) -> Result<(), NoMemory>
    requires { IsMessage m.now }
    ensures ok { OnOk result (into.new.items ≡ into.old.items ++ bytes_of m.now) }
    ensures err { OnErr result (into.new.items ≡ into.old.items) }
    ensures room { vec_len into.old + MSIZE ≤ vec_capacity into.old → IsOk result }
{
    let draft = draft_of(m);
    into.extend_from_slice(draft.bytes())?;
    Ok(())
}
