// Prints a script.
ghost use Rattle.std.specs.Prelude.{◌≡◌, ◌++◌, ◌∷◌, [], IfOk, OnOk, Ok, map, slice_get};
ghost use Rattle.std.specs.List.{flat_map};
ghost use Rattle.std.specs.Fmt.{decimal};
ghost use Rattle.neph_model.specs.Words.{command_words};
ghost use Rattle.neph_script.specs.Grammar.{read_script};
ghost use Rattle.neph_script.specs.Spells.{Spells, IsLawful};
ghost use Rattle.neph_script.specs.Spelling.{actor_word, start_words, turns_words, name_of_program};
ghost use Rattle.neph_script.specs.Text.{program_words, program_head, body_words, label_words, end_words, frames_words, turn_groups, line_text, lines_text, script_text};

use neph_base::{Actor, Command, NoMemory};
use neph_command::{put_command, put_labelled, put_number, put_word};
use neph_model::{Label, Program, Script, Start};
use std::alloc::Global;

/// The text of a script: its lines in order, without skipped ones, and with 64 actors on each line
/// of turns but the last.
pub fn print_script(alloc: Global, s: &Script) -> Result<Vec<u8>, NoMemory>
    ensures text { IfOk result (λ text. text.items ≡ script_text s.now) }
    // A script that some bytes spell is spelled by its text, and read of it again.
    ensures spells { IfOk result (λ text. IsLawful s.now → Spells text.items s.now) }
    ensures again { IfOk result (λ text. IsLawful s.now → read_script text.items ≡ Ok s.now) }
{
    printed(alloc, s)
}

#[tactic(auto, using(crate::proofs::Printed::lines_append))]
fn printed(alloc: Global, s: &Script) -> Result<Vec<u8>, NoMemory>
    ensures { IfOk result (λ text. text.items ≡ script_text s.now) }
{
    let mut out = Vec::new(alloc);
    put_word(&mut out, b"nephele 1\n")?;
    put_frames(&mut out, s.frames)?;
    put_programs(&mut out, s.programs.items())?;
    put_starts(&mut out, s.programs.items(), s.starts.items())?;
    put_turns(&mut out, s.turns.items())?;
    Ok(out)
}

fn put_frames(out: &mut Vec<u8>, n: u32) -> Result<(), NoMemory>
    ensures { OnOk result (out.new.items ≡ out.old.items ++ line_text (frames_words n)) }
{
    put_word(out, b"frames ")?;
    put_number(out, n)?;
    put_word(out, b"\n")
}

fn put_programs(out: &mut Vec<u8>, programs: &[Program]) -> Result<(), NoMemory>
    ensures { OnOk result (out.new.items
        ≡ out.old.items ++ lines_text (flat_map program_words programs.now)) }
{
    for program in programs {
        put_program(out, program)?;
    }
    Ok(())
}

fn put_program(out: &mut Vec<u8>, program: &Program) -> Result<(), NoMemory>
    ensures { OnOk result (out.new.items
        ≡ out.old.items ++ lines_text (program_words program.now)) }
{
    put_word(out, b"program ")?;
    put_word(out, program.name.items())?;
    put_word(out, b"\n")?;
    put_body(out, program.labels.items(), program.commands.items())?;
    put_word(out, b"end\n")?;
    Ok(())
}

// The commands and the labels among them.
fn put_body(out: &mut Vec<u8>, labels: &[Label], commands: &[Command]) -> Result<(), NoMemory>
    ensures { OnOk result (out.new.items
        ≡ out.old.items ++ lines_text (body_words (command_words labels.now) 0 commands.now
        labels.now)) }
{
    let mut rest = commands;
    let mut at = 0u16;
    for label in labels {
        let ahead = label.at.saturating_sub(at);
        let (before, behind) = rest.split_at(rest.len().min(ahead as usize));
        put_commands(out, labels, before)?;
        put_label(out, label)?;
        rest = behind;
        at += ahead;
    }
    put_commands(out, labels, rest)
}

fn put_label(out: &mut Vec<u8>, label: &Label) -> Result<(), NoMemory>
    ensures { OnOk result (out.new.items ≡ out.old.items ++ line_text (label_words label.now)) }
{
    put_word(out, b"label ")?;
    put_word(out, label.name.items())?;
    put_word(out, b"\n")
}

fn put_commands(out: &mut Vec<u8>, labels: &[Label], commands: &[Command]) -> Result<(), NoMemory>
    ensures { OnOk result (out.new.items
        ≡ out.old.items ++ lines_text (map (command_words labels.now) commands.now)) }
{
    for command in commands {
        put_command_line(out, labels, command)?;
    }
    Ok(())
}

fn put_command_line(out: &mut Vec<u8>, labels: &[Label], command: &Command) -> Result<(), NoMemory>
    ensures { OnOk result (out.new.items
        ≡ out.old.items ++ line_text (command_words labels.now command.now)) }
{
    put_command(out, labels, command)?;
    put_word(out, b"\n")
}

fn put_starts(out: &mut Vec<u8>, programs: &[Program], starts: &[Start]) -> Result<(), NoMemory>
    ensures { OnOk result (out.new.items
        ≡ out.old.items ++ lines_text (map (start_words programs.now) starts.now)) }
{
    for start in starts {
        put_start(out, programs, *start)?;
    }
    Ok(())
}

fn put_start(out: &mut Vec<u8>, programs: &[Program], start: Start) -> Result<(), NoMemory>
    ensures { OnOk result (out.new.items
        ≡ out.old.items ++ line_text (start_words programs.now start)) }
{
    put_word(out, b"domain ")?;
    put_program_name(out, programs, start.program)?;
    put_labelled(out, b" ", u32::from(start.pages))?;
    put_labelled(out, b" ", u32::from(start.limit))?;
    put_word(out, b" open\n")
}

fn put_program_name(out: &mut Vec<u8>, programs: &[Program], place: u8) -> Result<(), NoMemory>
    ensures { OnOk result (out.new.items
        ≡ out.old.items ++ name_of_program (slice_get programs.now place)) }
{
    match programs.get(place as usize) {
        None => Ok(()),
        Some(program) => put_word(out, program.name.items()),
    }
}

fn put_turns(out: &mut Vec<u8>, turns: &[Actor]) -> Result<(), NoMemory>
    ensures { OnOk result (out.new.items
        ≡ out.old.items ++ lines_text (map turns_words (turn_groups turns.now))) }
{
    let mut rest = turns;
    'groups: while !rest.is_empty() {
        let (group, more) = rest.split_at(rest.len().min(64));
        put_group(out, group)?;
        rest = more;
    }
    Ok(())
}

fn put_group(out: &mut Vec<u8>, actors: &[Actor]) -> Result<(), NoMemory>
    ensures { OnOk result (out.new.items ≡ out.old.items ++ line_text (turns_words actors.now)) }
{
    put_word(out, b"turns")?;
    for actor in actors {
        put_word(out, b" ")?;
        put_actor(out, *actor)?;
    }
    put_word(out, b"\n")
}

fn put_actor(out: &mut Vec<u8>, actor: Actor) -> Result<(), NoMemory>
    ensures { OnOk result (out.new.items ≡ out.old.items ++ actor_word actor) }
{
    match actor {
        Actor::Dom(dom) => put_number(out, dom.get()),
        Actor::Daemon => put_word(out, b"daemon"),
        Actor::Console => put_word(out, b"console"),
        Actor::Net => put_word(out, b"net"),
        Actor::P9 => put_word(out, b"p9"),
    }
}
