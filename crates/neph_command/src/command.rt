// Commands as their lines say them.
ghost use Rattle.std.specs.Prelude.{◌≡◌, ◌+◌, ◌≤◌, ℕ, List, map};
ghost use Rattle.neph_command.specs.Commands.{extra, extra_said, said_alone, unless_within, command_said};

use crate::operand::{addr, dom, handle, label, len, offset, pfn, reference, vpn};
use crate::verb::Verb;
use crate::why::Why;
use crate::word::{mode, piece};
use neph_base::{Command, PAGE_BYTES, Piece};

/// A command as its line says it. A jump has the name of its label, whose place isn't known yet.
#[derive(Clone, Copy, Debug, PartialEq, Eq)]
pub enum Said {
    /// All but a jump.
    Whole(Command),
    Jump(Piece),
    JChild(Piece),
    JFail(Piece),
}

/// The command of a line with these words behind its keyword.
pub fn command_line(verb: Verb, words: &[&[u8]]) -> Result<Said, Why>
    ensures { result ≡ command_said verb (map (λ w. w.now) words.now) }
{
    if verb.is_unbuilt(words.len()) {
        return Err(Why::Unbuilt);
    }
    let said = said_alone(verb, words)?;
    match extra_said(&said) {
        Some(why) => Err(why),
        None => Ok(said),
    }
}

// What the words say, each judged alone, from the left.
fn said_alone(verb: Verb, words: &[&[u8]]) -> Result<Said, Why>
    ensures { result ≡ said_alone verb (map (λ w. w.now) words.now) }
{
    match (verb, words) {
        (Verb::W, [a, b]) => Ok(Said::Whole(Command::W {
            addr: addr(a)?,
            bytes: piece(b)?,
        })),
        (Verb::R, [a, b]) => Ok(Said::Whole(Command::R {
            addr: addr(a)?,
            len: len(b)?,
        })),
        (Verb::Map, [a, b, c]) => Ok(Said::Whole(Command::Map {
            vpn: vpn(a)?,
            pfn: pfn(b)?,
            mode: mode(c)?,
        })),
        (Verb::Unmap, [a]) => Ok(Said::Whole(Command::Unmap { vpn: vpn(a)? })),
        (Verb::Jump, [a]) => Ok(Said::Jump(label(a)?)),
        (Verb::JChild, [a]) => Ok(Said::JChild(label(a)?)),
        (Verb::JFail, [a]) => Ok(Said::JFail(label(a)?)),
        (Verb::Exit, []) => Ok(Said::Whole(Command::Exit)),
        (Verb::Free, []) => Ok(Said::Whole(Command::Free)),
        (Verb::Clone, []) => Ok(Said::Whole(Command::Clone)),
        (Verb::Ungrant, [a]) => Ok(Said::Whole(Command::Ungrant {
            reference: reference(a)?,
        })),
        (Verb::Gmap, [a, b]) => Ok(Said::Whole(Command::Gmap {
            granter: dom(a)?,
            reference: reference(b)?,
        })),
        (Verb::Gunmap, [a]) => Ok(Said::Whole(Command::Gunmap { handle: handle(a)? })),
        (Verb::Hr, [a, b, c]) => Ok(Said::Whole(Command::Hr {
            handle: handle(a)?,
            offset: offset(b)?,
            len: len(c)?,
        })),
        (Verb::Hw, [a, b, c]) => Ok(Said::Whole(Command::Hw {
            handle: handle(a)?,
            offset: offset(b)?,
            bytes: piece(c)?,
        })),
        _ => Err(Why::Form),
    }
}

fn extra_said(said: &Said) -> Option<Why>
    ensures { result ≡ extra_said said.now }
{
    match said {
        Said::Whole(command) => extra(command),
        _ => None,
    }
}

// What is wrong with two operands together, each of which is right.
fn extra(command: &Command) -> Option<Why>
    ensures { result ≡ extra command.now }
{
    match *command {
        Command::W { addr, bytes } => unless_within(addr.offset(), bytes.bytes().len(), Why::Hex),
        Command::R { addr, len } => unless_within(addr.offset(), len as usize, Why::Number),
        Command::Hr { offset, len, .. } => {
            unless_within(offset.get() as usize, len as usize, Why::Number)
        }
        Command::Hw { offset, bytes, .. } => {
            unless_within(offset.get() as usize, bytes.bytes().len(), Why::Hex)
        }
        _ => None,
    }
}

fn unless_within(start: usize, len: usize, why: Why) -> Option<Why>
    requires start { start ≤ 65535 }
    requires len { len ≤ 255 }
    ensures { result ≡ unless_within (start + len) why }
{
    if start + len > PAGE_BYTES {
        Some(why)
    } else {
        None
    }
}
