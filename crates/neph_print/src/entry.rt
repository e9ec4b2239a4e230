// The line of an entry.
ghost use Rattle.std.specs.Prelude.{◌≡◌, ◌++◌, IfOk, OnOk};
ghost use Rattle.neph_model.specs.Transcript.{entry_line, refusal_text, reply_text};
ghost use Rattle.neph_print.specs.Texts.{AreTexts};

use crate::texts::LineTexts;
use neph_base::{Entry, NoMemory, Refusal, Reply};
use neph_command::{put_hex, put_labelled, put_number, put_word};
use neph_model::Script;
use std::alloc::Global;

/// The line of a transcript for an entry of a domain of this family, with its line feed. A family
/// is the number of a `domain` line, from 1.
pub fn entry_line(
    alloc: Global,
    s: &Script,
    family: u8,
    e: &Entry,
    r: &Reply,
) -> Result<Vec<u8>, NoMemory>
    ensures { IfOk result (λ line. line.items ≡ entry_line s.now family e.now r.now) }
{
    let mut line = Vec::new(alloc);
    let mut texts = LineTexts::none(alloc);
    put_entry_line(&mut line, &mut texts, s, family, e, r)?;
    Ok(line)
}

/// Puts the line of an entry behind a text.
pub fn put_entry_line(
    text: &mut Vec<u8>,
    texts: &mut LineTexts,
    s: &Script,
    family: u8,
    entry: &Entry,
    reply: &Reply,
) -> Result<(), NoMemory>
    requires { AreTexts s.now texts.old }
    ensures line { OnOk result (text.new.items
        ≡ text.old.items ++ entry_line s.now family entry.now reply.now) }
    ensures texts { AreTexts s.now texts.new }
{
    match *entry {
        Entry::Line { dom, line } => {
            put_number(text, dom.get())?;
            texts.put(text, s, family, line)?;
        }
        Entry::Commit { dom, line } => {
            put_number(text, dom.get())?;
            put_labelled(text, b":", u32::from(line))?;
            put_word(text, b" commit = ")?;
        }
        Entry::Daemon => put_word(text, b"daemon = ")?,
    }
    put_reply(text, reply)?;
    text.push(b'\n')?;
    Ok(())
}

fn put_reply(text: &mut Vec<u8>, reply: &Reply) -> Result<(), NoMemory>
    ensures { OnOk result (text.new.items ≡ text.old.items ++ reply_text reply.now) }
{
    match reply {
        Reply::Done => put_word(text, b"ok"),
        Reply::Go => put_word(text, b"go"),
        Reply::On => put_word(text, b"on"),
        Reply::Ended => put_word(text, b"ended"),
        Reply::Number(n) => put_number(text, *n),
        Reply::Begun(child) => put_labelled(text, b"begin ", child.get()),
        Reply::Child(child) => put_number(text, child.get()),
        Reply::Bytes(bytes) => put_hex(text, bytes.bytes()),
        Reply::Refused(why) => {
            put_word(text, b"no ")?;
            put_refusal(text, *why)
        }
    }
}

fn put_refusal(text: &mut Vec<u8>, why: Refusal) -> Result<(), NoMemory>
    ensures { OnOk result (text.new.items ≡ text.old.items ++ refusal_text why) }
{
    match why {
        Refusal::Unmapped => put_word(text, b"unmapped"),
        Refusal::ReadOnly => put_word(text, b"readonly"),
        Refusal::BadPfn => put_word(text, b"badpfn"),
        Refusal::NoFrame => put_word(text, b"noframe"),
        Refusal::Limit => put_word(text, b"limit"),
        Refusal::Ids => put_word(text, b"ids"),
        Refusal::PolicyNet => put_word(text, b"policy net"),
        Refusal::PolicyP9 => put_word(text, b"policy p9"),
        Refusal::Frames { need, free } => {
            put_labelled(text, b"frames ", need)?;
            put_labelled(text, b" ", free)
        }
        Refusal::NoGrant => put_word(text, b"nogrant"),
        Refusal::Busy => put_word(text, b"busy"),
        Refusal::NoEntry => put_word(text, b"noentry"),
        Refusal::NotYours => put_word(text, b"notyours"),
        Refusal::Gone => put_word(text, b"gone"),
        Refusal::HandlesFull => put_word(text, b"handlesfull"),
        Refusal::NoHandle => put_word(text, b"nohandle"),
    }
}
