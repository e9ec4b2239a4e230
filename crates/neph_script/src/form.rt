// What the first word of a line begins.
ghost use Rattle.std.specs.Prelude.{◌≡◌, ℕ, List, map};
ghost use Rattle.neph_script.specs.Forms.{form_of, is_later, later};

use neph_command::{Verb, begun_by as verb_begun_by};

/// A form of lines.
#[derive(Clone, Copy, Debug, PartialEq, Eq)]
pub enum Form {
    Heading,
    Frames,
    Program,
    Command(Verb),
    Label,
    End,
    Domain,
    Turns,
}

/// The form that a first word begins.
pub fn begun_by(word: &[u8]) -> Option<Form>
    ensures { result ≡ form_of word.now }
{
    if let Some(verb) = verb_begun_by(word) {
        return Some(Form::Command(verb));
    }
    if word == b"nephele".as_slice() {
        return Some(Form::Heading);
    }
    if word == b"frames".as_slice() {
        return Some(Form::Frames);
    }
    if word == b"program".as_slice() {
        return Some(Form::Program);
    }
    if word == b"label".as_slice() {
        return Some(Form::Label);
    }
    if word == b"end".as_slice() {
        return Some(Form::End);
    }
    if word == b"domain".as_slice() {
        return Some(Form::Domain);
    }
    if word == b"turns".as_slice() {
        return Some(Form::Turns);
    }
    None
}

/// Whether a line of a form that isn't built yet begins with this word.
pub fn is_later(word: &[u8]) -> bool
    ensures { result ≡ is_later word.now }
{
    for other in later() {
        if word == *other {
            return true;
        }
    }
    false
}

// The first words of forms that aren't built yet.
fn later() -> &'static [&'static [u8]]
    ensures { map (λ w. w.now) result.now ≡ later }
{
    &[
        b"dir", b"file", b"kill", b"dump", b"wipe", b"grant", b"alloc", b"bind", b"send", b"wait",
        b"close", b"sread", b"swrite", b"slist", b"srm", b"puts", b"tx", b"rx", b"p9put", b"p9get",
    ]
}
