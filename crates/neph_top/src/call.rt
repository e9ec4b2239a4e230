// Reading, running and writing, by the answer.
ghost use Rattle.std.specs.Prelude.{◌≡◌, IfOk};
ghost use Rattle.neph_model.specs.WellFormed.{IsWellFormed};
ghost use Rattle.neph_top.specs.Call.{Called, Tallies, Tells, refusal_text, saw};

use crate::status::Status;
use itoa::Buffer;
use neph_base::NoMemory;
use neph_core::{Played, Tally, play};
use neph_io::{ReadEnd, Sink, Source, WriteFault, read_all, write_all};
use neph_model::Script;
use neph_script::{BadScript, ParseEnd, parse};
use std::alloc::Global;

// The most bytes of a script.
const LIMIT: u32 = 1_048_576;

/// Reads a script, runs it by turns, and writes its transcript. The tally is raised by the run's
/// page steps.
pub fn call<S: Source, K: Sink>(
    alloc: Global,
    source: &mut S,
    sink: &mut K,
    tally: &mut Tally,
) -> Status
    ensures { Called (saw S.left S.faults source.old source.new K.taken K.faults sink.old sink.new
        tally.old tally.new) result }
{
    let bytes = match read_all(alloc, source, LIMIT) {
        Ok(bytes) => bytes,
        Err(ReadEnd::TooLong) => return told(sink, b"too long\n", Status::TooLong),
        Err(ReadEnd::ReadFault) => return Status::ReadFault,
        Err(ReadEnd::NoMemory) => return Status::NoMemory,
    };
    match parse(alloc, &bytes) {
        Err(ParseEnd::NoMemory) => Status::NoMemory,
        Err(ParseEnd::Bad(bad)) => match refusal_text(alloc, bad) {
            Err(NoMemory) => Status::NoMemory,
            Ok(text) => told(sink, &text, Status::Refused),
        },
        Ok(script) => match text_of(alloc, script, tally) {
            Err(NoMemory) => Status::NoMemory,
            Ok(text) => told(sink, &text, Status::Ended),
        },
    }
}

// The line that says which line of a text can't stand, and why.
fn refusal_text(alloc: Global, bad: BadScript) -> Result<Vec<u8>, NoMemory>
    ensures { IfOk result (λ text. text.items ≡ refusal_text bad) }
{
    let mut text = Vec::from_slice(alloc, b"script ")?;
    text.extend_from_slice(Buffer::new().format(bad.line).as_bytes())?;
    text.extend_from_slice(b" ")?;
    text.extend_from_slice(bad.why.word())?;
    text.extend_from_slice(b"\n")?;
    Ok(text)
}

// The transcript of a script's run. The tally is raised by the run's page steps.
fn text_of(alloc: Global, script: Script, tally: &mut Tally) -> Result<Vec<u8>, NoMemory>
    requires { IsWellFormed script }
    ensures { IfOk result (λ text. Tallies script text.items tally.old tally.new) }
{
    let Played { machine, stalled } = play(alloc, script)?;
    machine.end(stalled, tally)
}

// Writes a text, and answers this status where the sink took all of it.
fn told<K: Sink>(sink: &mut K, text: &[u8], status: Status) -> Status
    ensures { Tells (K.taken sink.old) (K.taken sink.new) text.now (K.faults sink.old)
        (K.faults sink.new) status result }
{
    match write_all(sink, text) {
        Ok(()) => status,
        Err(WriteFault) => Status::WriteFault,
    }
}
