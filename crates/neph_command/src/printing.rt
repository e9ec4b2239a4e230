// Prints commands.
ghost use Rattle.std.specs.Prelude.{◌≡◌, ◌++◌, ◌∷◌, [], OnOk, map};
ghost use Rattle.neph_model.specs.Words.{command_words, label_name, mode_word, spaced};
ghost use Rattle.neph_command.specs.Kinds.{operand_word};
ghost use Rattle.neph_command.specs.Verbs.{keyword};

use crate::operand::Operand;
use crate::text::{put_hex, put_number, put_word};
use crate::verb::Verb;
use neph_base::{Command, Mode, NoMemory};
use neph_model::Label;

/// Puts the words of a command of a program with these labels behind a text, with a space between
/// each two.
pub fn put_command(text: &mut Vec<u8>, labels: &[Label], command: &Command) -> Result<(), NoMemory>
    ensures { OnOk result (text.new.items ≡ text.old.items
        ++ spaced (command_words labels.now command.now)) }
{
    match *command {
        Command::W { addr, bytes } => {
            put_words(text, Verb::W, &[Operand::Addr(addr), Operand::Bytes(bytes)])
        }
        Command::R { addr, len } => {
            put_words(text, Verb::R, &[Operand::Addr(addr), Operand::Len(len)])
        }
        Command::Map { vpn, pfn, mode } => put_words(
            text,
            Verb::Map,
            &[Operand::Vpn(vpn), Operand::Pfn(pfn), Operand::Mode(mode)],
        ),
        Command::Unmap { vpn } => put_words(text, Verb::Unmap, &[Operand::Vpn(vpn)]),
        Command::Jump { label } => put_jump(text, Verb::Jump, labels, label),
        Command::JChild { label } => put_jump(text, Verb::JChild, labels, label),
        Command::JFail { label } => put_jump(text, Verb::JFail, labels, label),
        Command::Exit => put_words(text, Verb::Exit, &[]),
        Command::Free => put_words(text, Verb::Free, &[]),
        Command::Clone => put_words(text, Verb::Clone, &[]),
        Command::Ungrant { reference } => {
            put_words(text, Verb::Ungrant, &[Operand::Ref(reference)])
        }
        Command::Gmap { granter, reference } => put_words(
            text,
            Verb::Gmap,
            &[Operand::Dom(granter), Operand::Ref(reference)],
        ),
        Command::Gunmap { handle } => put_words(text, Verb::Gunmap, &[Operand::Handle(handle)]),
        Command::Hr {
            handle,
            offset,
            len,
        } => put_words(
            text,
            Verb::Hr,
            &[
                Operand::Handle(handle),
                Operand::Offset(offset),
                Operand::Len(len),
            ],
        ),
        Command::Hw {
            handle,
            offset,
            bytes,
        } => put_words(
            text,
            Verb::Hw,
            &[
                Operand::Handle(handle),
                Operand::Offset(offset),
                Operand::Bytes(bytes),
            ],
        ),
    }
}

fn put_words(text: &mut Vec<u8>, verb: Verb, operands: &[Operand]) -> Result<(), NoMemory>
    ensures { OnOk result (text.new.items ≡ text.old.items
        ++ spaced (keyword verb ∷ map operand_word operands.now)) }
{
    put_word(text, verb.keyword())?;
    for operand in operands {
        text.push(b' ')?;
        put_operand(text, *operand)?;
    }
    Ok(())
}

fn put_operand(text: &mut Vec<u8>, operand: Operand) -> Result<(), NoMemory>
    ensures { OnOk result (text.new.items ≡ text.old.items ++ operand_word operand) }
{
    match operand {
        Operand::Addr(addr) => put_number(text, addr.get()),
        Operand::Len(len) => put_number(text, u32::from(len)),
        Operand::Bytes(bytes) => put_hex(text, bytes.bytes()),
        Operand::Vpn(vpn) => put_number(text, vpn.get()),
        Operand::Pfn(pfn) => put_number(text, pfn.get()),
        Operand::Mode(mode) => put_mode(text, mode),
        Operand::Label(label) => put_word(text, label.bytes()),
        Operand::Dom(dom) => put_number(text, dom.get()),
        Operand::Ref(reference) => put_number(text, reference.get()),
        Operand::Handle(handle) => put_number(text, handle.get()),
        Operand::Offset(offset) => put_number(text, offset.get()),
    }
}

fn put_mode(text: &mut Vec<u8>, mode: Mode) -> Result<(), NoMemory>
    ensures { OnOk result (text.new.items ≡ text.old.items ++ mode_word mode) }
{
    match mode {
        Mode::Ro => put_word(text, b"ro"),
        Mode::Rw => put_word(text, b"rw"),
    }
}

// A jump, whose place among the labels stands for its label's name.
fn put_jump(text: &mut Vec<u8>, verb: Verb, labels: &[Label], place: u16) -> Result<(), NoMemory>
    ensures { OnOk result (text.new.items ≡ text.old.items
        ++ spaced (keyword verb ∷ label_name labels.now place ∷ [])) }
{
    put_word(text, verb.keyword())?;
    put_word(text, b" ")?;
    put_word(text, label_name(labels, place))
}

fn label_name(labels: &[Label], place: u16) -> &[u8]
    ensures { result.now ≡ label_name labels.now place }
{
    match labels.get(place as usize) {
        None => &[],
        Some(label) => label.name.items(),
    }
}
