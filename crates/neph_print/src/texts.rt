// The texts of lines, kept so that a command that many domains do is put together once.
ghost use Rattle.std.specs.Prelude.{◌≡◌, ◌++◌, ◌-◌, OnOk, slice_get};
ghost use Rattle.neph_model.specs.declared.script.Script.{Script};
ghost use Rattle.neph_model.specs.Transcript.{program_started};
ghost use Rattle.neph_print.specs.Texts.{line_text};

use crate::command::put_program_command;
use neph_base::NoMemory;
use neph_command::{put_labelled, put_word};
use neph_model::Script;
use std::alloc::Global;

/// Where the text of a program's line stands; nowhere where it ends at 0.
#[derive(Clone, Copy)]
pub struct TextPlace {
    pub program: u8,
    pub line: u16,
    pub start: usize,
    pub end: usize,
}

/// Texts of lines, one behind another, and where the latest with each line's number stands: lines
/// that are 512 apart share a place.
#[derive(Drop)]
pub struct LineTexts {
    pub text: Vec<u8>,
    pub places: [TextPlace; 512],
}

impl LineTexts {
    ghost use Rattle.neph_print.specs.Texts.{AreTexts};

    /// No text.
    pub fn none(alloc: Global) -> Self
        ensures { (s : Script) → AreTexts s result }
    {
        let nowhere = TextPlace {
            program: 0,
            line: 0,
            start: 0,
            end: 0,
        };
        LineTexts {
            text: Vec::new(alloc),
            places: [nowhere; 512],
        }
    }

    /// Puts the number and the command of a line of a family's program behind a text.
    pub fn put(
        &mut self,
        text: &mut Vec<u8>,
        s: &Script,
        family: u8,
        line: u16,
    ) -> Result<(), NoMemory>
        requires { AreTexts s.now self.old }
        ensures text { OnOk result (text.new.items ≡ text.old.items
            ++ line_text s.now (program_started (slice_get s.now.starts (family - 1))) line) }
        ensures texts { AreTexts s.now self.new }
    {
        let program = program_of(s, family);
        let place = self.places[line as usize % 512];
        if place.program == program && place.line == line && place.end > 0 {
            return put_word(text, &self.text[place.start..place.end]);
        }
        let start = text.len();
        put_line(text, s, program, line)?;
        self.keep(program, line, &text[start..])
    }

    // Keeps the text of a program's line.
    fn keep(&mut self, program: u8, line: u16, words: &[u8]) -> Result<(), NoMemory>
        ensures { (s : Script) → words.now ≡ line_text s program line → AreTexts s self.old
            → AreTexts s self.new }
    {
        let start = self.text.len();
        self.text.extend_from_slice(words)?;
        let end = self.text.len();
        self.places[line as usize % 512] = TextPlace {
            program,
            line,
            start,
            end,
        };
        Ok(())
    }
}

// Puts the number and the command of a program's line.
fn put_line(text: &mut Vec<u8>, s: &Script, program: u8, line: u16) -> Result<(), NoMemory>
    ensures { OnOk result (text.new.items ≡ text.old.items ++ line_text s.now program line) }
{
    put_labelled(text, b":", u32::from(line))?;
    put_word(text, b" ")?;
    put_program_command(text, s, program, line)?;
    put_word(text, b" = ")
}

// The number of a family's program.
fn program_of(s: &Script, family: u8) -> u8
    ensures { result ≡ program_started (slice_get s.now.starts (family - 1)) }
{
    match s.starts.items().get((family as usize).saturating_sub(1)) {
        None => 0,
        Some(start) => start.program,
    }
}
