// What the words of a line say.
ghost use Rattle.std.specs.Prelude.{◌≡◌, codes};
ghost use Rattle.neph_command.specs.Words.{name, number_in};
ghost use Rattle.neph_script.specs.Actors.{actor_named, numbered};
ghost use Rattle.neph_script.specs.Outcomes.{Gives};

use crate::why::LineEnd;
use neph_base::{Actor, DomId, Name};
use neph_command::{Why, is_digit, is_name, number};
use std::alloc::Global;

/// A word in the place of a name.
pub fn name(alloc: Global, word: &[u8]) -> Result<Name, LineEnd>
    ensures { Gives result (name word.now) }
{
    if !is_name(word) {
        return Err(LineEnd::Bad(Why::Name));
    }
    Ok(Name::of(Vec::from_slice(alloc, word)?))
}

/// The actor that a word names.
pub fn actor(word: &[u8]) -> Result<Actor, Why>
    ensures { result ≡ actor_named word.now }
{
    if word == b"daemon".as_slice() {
        return Ok(Actor::Daemon);
    }
    if word == b"console".as_slice() {
        return Ok(Actor::Console);
    }
    if word == b"net".as_slice() {
        return Ok(Actor::Net);
    }
    if word == b"p9".as_slice() {
        return Ok(Actor::P9);
    }
    if word.is_empty() || !is_digit(word[0]) {
        return Err(Why::Word);
    }
    domain(word)
}

fn domain(word: &[u8]) -> Result<Actor, Why>
    ensures { result ≡ numbered (number_in 1 63 word.now) }
{
    let n = number(word, 1, 63)?;
    let dom = DomId::new(n).ok_or(Why::Number)?;
    Ok(Actor::Dom(dom))
}
