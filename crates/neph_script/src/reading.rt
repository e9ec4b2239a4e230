// Reads a script, line by line.
ghost use Rattle.std.specs.Prelude.{◌≡◌, ◌++◌, ◌∷◌, [], ◌<◌, ◌≤◌, ◌+◌, ◌-◌, ◌^◌, ℕ, List, map, length, true, OnOk, IfOk, IsTrue, Ok};
ghost use Rattle.std.specs.List.{list_all};
ghost use Rattle.neph_script.specs.Grammar.{parts_at, lines, is_printed, is_text, is_skipped, may_end, with_line, read_script, ended};
ghost use Rattle.neph_script.specs.Bytes.{may_stand_in_lines};
ghost use Rattle.neph_script.specs.Outcomes.{Reads, IfBad};
ghost use Rattle.neph_script.specs.Spells.{Spells, IsFault};
ghost use Rattle.neph_model.specs.WellFormed.{IsWellFormed};
ghost use Rattle.neph_model.specs.declared.script.Script.{Script};
ghost use Rattle.neph_script.specs.Seen.{seen, IsSound, Moves};

use crate::state::{Place, Reader};
use crate::why::{BadScript, LineEnd, ParseEnd};
use memchr::memchr;
use neph_base::NoMemory;
use neph_command::Why;
use neph_model::{Actors, Programs, Script, Starts};
use std::alloc::Global;

/// The script that a text spells, or its first line that can't stand and why.
pub fn parse(alloc: Global, bytes: &[u8]) -> Result<Script, ParseEnd>
    requires { length bytes.now < 2 ^ 32 - 1 }
    ensures reads { Reads result (read_script bytes.now) }
    // A script is read only where the bytes spell it, and it is well formed.
    ensures spelled { IfOk result (Spells bytes.now) }
    ensures formed { IfOk result IsWellFormed }
    // What the bytes spell is read, unless memory runs out.
    ensures only { (s : Script) → Spells bytes.now s → Reads result (Ok s) }
    // Else it is the first line that can't stand, with the first reason that holds.
    ensures fault { IfBad result (IsFault bytes.now) }
{
    read(alloc, bytes)
}

fn read(alloc: Global, bytes: &[u8]) -> Result<Script, ParseEnd>
    requires { length bytes.now < 2 ^ 32 - 1 }
    ensures { Reads result (read_script bytes.now) }
{
    let mut reader = Reader::new(alloc);
    let mut words = Vec::new(alloc);
    let printed = are_lines_printed(bytes);
    let mut rest = bytes;
    let mut line = 1;
    'lines: while !rest.is_empty() {
        let (first, more) = first_line(rest);
        match reader.line(alloc, first, printed, &mut words) {
            Err(LineEnd::Bad(why)) => return Err(ParseEnd::Bad(BadScript { line, why })),
            Err(LineEnd::NoMemory) => return Err(ParseEnd::NoMemory),
            Ok(()) => {}
        }
        rest = more;
        line += 1;
    }
    reader.ended(line)
}

// The first line of a text, and the text behind it.
fn first_line(text: &[u8]) -> (&[u8], &[u8])
    requires { 0 < length text.now }
    ensures lines { lines text.now ≡ result.0.now ∷ lines result.1.now }
    ensures shorter { length result.1.now < length text.now }
{
    match memchr(b'\n', text) {
        None => (text, &[]),
        Some(at) => (&text[..at], &text[at + 1..]),
    }
}

// Whether each line of a text is printed: many bytes are judged at a time, since nothing leaves the
// loop before the end.
fn are_lines_printed(text: &[u8]) -> bool
    ensures { result ≡ list_all may_stand_in_lines text.now }
{
    let mut all = true;
    for b in text {
        all &= may_stand_in_lines(*b);
    }
    all
}

fn may_stand_in_lines(b: u8) -> bool
    ensures { result ≡ may_stand_in_lines b }
{
    (32 <= b && b <= 126) || b == b'\n'
}

impl Reader {
    // Takes a line, which may be known to be printed.
    fn line<'a>(
        &mut self,
        alloc: Global,
        line: &'a [u8],
        printed: bool,
        words: &mut Vec<&'a [u8]>,
    ) -> Result<(), LineEnd>
        requires sound { IsSound self.old }
        requires printed { IsTrue printed → list_all is_printed line.now ≡ true }
        ensures moves { Moves (with_line (seen self.old) line.now) (seen self.new) result }
        ensures sound { OnOk result (IsSound self.new) }
    {
        if !is_text(line, printed) {
            return Err(LineEnd::Bad(Why::Bytes));
        }
        if is_skipped(line) {
            return Ok(());
        }
        cut(line, words)?;
        let item = self.judge(alloc, words)?;
        self.take(alloc, item)?;
        Ok(())
    }

    // The script, where the text may end.
    fn ended(self, line: u32) -> Result<Script, ParseEnd>
        ensures { Reads result (ended line (seen self)) }
    {
        if !may_end(self.place) {
            return Err(ParseEnd::Bad(BadScript {
                line,
                why: Why::Missing,
            }));
        }
        Ok(Script {
            frames: self.frames,
            programs: Programs::of(self.programs),
            starts: Starts::of(self.starts),
            turns: Actors::of(self.turns),
        })
    }
}

fn may_end(place: Place) -> bool
    ensures { result ≡ may_end place }
{
    place == Place::Started || place == Place::Turned
}

fn is_text(line: &[u8], printed: bool) -> bool
    requires { IsTrue printed → list_all is_printed line.now ≡ true }
    ensures { result ≡ is_text line.now }
{
    line.len() <= 8192 && (printed || are_printed(line))
}

fn are_printed(line: &[u8]) -> bool
    ensures { result ≡ list_all is_printed line.now }
{
    let mut all = true;
    for b in line {
        all &= 32 <= *b && *b <= 126;
    }
    all
}

fn is_skipped(line: &[u8]) -> bool
    ensures { result ≡ is_skipped line.now }
{
    line.is_empty() || line[0] == b'#'
}

// Puts the words of a line in place of others.
fn cut<'a>(line: &'a [u8], words: &mut Vec<&'a [u8]>) -> Result<(), NoMemory>
    ensures { OnOk result (map (λ w. w.now) words.new.items ≡ parts_at 32 line.now) }
{
    words.clear();
    let mut rest = line;
    'words: while let Some(at) = memchr(b' ', rest) {
        words.push(&rest[..at])?;
        rest = &rest[at + 1..];
    }
    words.push(rest)?;
    Ok(())
}
