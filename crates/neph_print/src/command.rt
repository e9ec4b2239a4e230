// Commands, as the script has them.
ghost use Rattle.std.specs.Prelude.{◌≡◌, ◌++◌, OnOk, Some};
ghost use Rattle.neph_model.specs.Programs.{program_at};
ghost use Rattle.neph_model.specs.Transcript.{command_text};

use neph_base::NoMemory;
use neph_command::{put_command, put_word};
use neph_model::{Program, Script};

/// Puts the command at a line of the program with a number.
pub fn put_program_command(
    text: &mut Vec<u8>,
    s: &Script,
    program: u8,
    line: u16,
) -> Result<(), NoMemory>
    ensures { OnOk result (text.new.items ≡ text.old.items
        ++ command_text (program_at s.now program) line) }
{
    match s.programs.items().get(program as usize) {
        None => put_word(text, b"exit"),
        Some(program) => put_command_at(text, program, line),
    }
}

fn put_command_at(text: &mut Vec<u8>, program: &Program, line: u16) -> Result<(), NoMemory>
    ensures { OnOk result (text.new.items
        ≡ text.old.items ++ command_text (Some program.now) line) }
{
    let labels = program.labels.items();
    match program.commands.items().get(line as usize) {
        None => put_word(text, b"exit"),
        Some(command) => put_command(text, labels, command),
    }
}
